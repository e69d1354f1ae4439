ghost use Rattle.std.specs.Prelude.{◌≡◌, IfNone, IfOk, IfSome, false, true};
ghost use Rattle.std.specs.List.{AllByRecursion};
ghost use Rattle.smf_contract.specs.Begun.{table_of_found};
ghost use Rattle.smf_contract.specs.declared.contract.Holder.TheVariants.{Inherited};
ghost use Rattle.smf_contract.specs.Laws.{IsOrdered};
ghost use Rattle.smf_node.specs.FoundContracts.{are_fit, first_foreign, is_known};

use smf_contract::{ContractTable, Cookie, Found, Holder};
use smf_fmri::Number;
use smf_model::{Journal, Plain};
use std::alloc::{AllocError, Global};

/// Whether the numbers rise, up to the last one that was given, and each contract may be inherited.
fn are_fit(last: Number, found: &[Found]) -> bool
    ensures { result ≡ are_fit 0 last found.now }
{
    let mut before = 0;
    for one in found {
        if before >= one.id.get() || !one.terms.inherit {
            return false;
        }
        before = one.id.get();
    }
    before <= last.get()
}

/// True if a cookie names a run that a held row has given.
fn is_known<J: Journal>(repository: &Plain<J>, cookie: u64) -> Result<bool, AllocError>
    ensures { IfOk result (λ b. b ≡ is_known repository.now.held cookie) }
{
    let Some(cookie) = Cookie::unpack(cookie) else {
        return Ok(false);
    };
    match repository.instance(cookie.instance)? {
        None => Ok(false),
        Some(instance) => Ok(0 < cookie.run && cookie.run <= instance.row.last),
    }
}

/// The first contract of which no held row knows.
pub(crate) fn foreign_in<J: Journal>(
    repository: &Plain<J>,
    found: &[Found],
) -> Result<Option<Number>, AllocError>
    ensures { IfOk result (λ id. id ≡ first_foreign repository.now.held found.now) }
{
    for one in found {
        if !is_known(repository, one.cookie)? {
            return Ok(Some(one.id));
        }
    }
    Ok(None)
}

/// The table of the contracts that are found, which nobody holds yet; none if they are not fit. `AllocError` also if no
/// number of a process is left.
pub(crate) fn table_of(
    alloc: Global,
    last: Number,
    found: &[Found],
) -> Result<Option<ContractTable>, AllocError>
    ensures table { IfOk result (λ t. IfSome t (λ made. made.table ≡ table_of_found Inherited last found.now)) }
    ensures ordered { IfOk result (λ t. IfSome t (λ made. IsOrdered made.table)) }
    ensures inherit { IfOk result (λ t. IfSome t (λ made.
        AllByRecursion (λ c. c.terms.inherit ≡ true) made.table.contracts)) }
    ensures fit { IfOk result (λ t. IfSome t (λ made. are_fit 0 last found.now ≡ true)) }
    ensures unfit { IfOk result (λ t. IfNone t (are_fit 0 last found.now ≡ false)) }
{
    if !are_fit(last, found) {
        return Ok(None);
    }
    match ContractTable::found(alloc, Holder::Inherited, last, found) {
        Ok(table) => Ok(Some(table)),
        Err(_) => Err(AllocError),
    }
}
