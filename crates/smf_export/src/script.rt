//! Lines of svccfg as a script that also refreshes the instances that they touch.

ghost use Rattle.std.specs.Prelude.{◌≡◌, ◌++◌, IfOk, OnOk, true};
ghost use Rattle.smf_export.specs.Scripts.{composed_bytes, for_svccfg, is_touched, refresh_if, refreshes, script_of};
ghost use Rattle.smf_model.specs.Laws.{IsNumbered};

use crate::fault::ExportFault;
use crate::rehearsal::rehearsed;
use smf_fmri::{Bytes, InstanceFmri};
use smf_model::{InstanceName, NoJournal, Plain, Tables};
use smf_value::encode;
use std::alloc::{AllocError, Global};

/// Puts lines, each for svccfg.
fn put_for_svccfg(out: &mut Vec<u8>, lines: &[u8]) -> Result<(), AllocError>
    ensures { OnOk result (out.new.items ≡ out.old.items ++ for_svccfg true lines.now) }
{
    let mut begins = true;
    for byte in lines {
        if begins {
            out.extend_from_slice(b"svccfg ")?;
        }
        out.push(*byte)?;
        begins = *byte == b'\n';
    }
    Ok(())
}

/// The bytes of the groups that an instance has composed, if it is there.
fn composed_bytes(
    alloc: Global,
    repository: &Plain<NoJournal>,
    number: u64,
) -> Result<Option<Bytes>, AllocError>
    ensures { IfOk result (λ bytes. bytes ≡ composed_bytes repository.now.held number) }
{
    match repository.composed_groups(number)? {
        None => Ok(None),
        Some(groups) => Ok(Some(encode(alloc, &groups)?)),
    }
}

/// True if an instance is there in one of two repositories only, or has other groups in the other.
#[tactic(auto, unfolding(crate::specs::Scripts::is_touched))]
fn is_touched(
    alloc: Global,
    before: &Plain<NoJournal>,
    after: &Plain<NoJournal>,
    number: u64,
) -> Result<bool, AllocError>
    ensures { IfOk result (λ b. b ≡ is_touched before.now.held after.now.held number) }
{
    let old = composed_bytes(alloc, before, number)?;
    let new = composed_bytes(alloc, after, number)?;
    let are_same = match (old, new) {
        (None, None) => true,
        (Some(old), Some(new)) => old == new,
        _ => false,
    };
    Ok(!are_same)
}

/// Puts a refresh of an instance, if there is to be one.
fn put_refresh_if(out: &mut Vec<u8>, wanted: bool, name: &InstanceFmri) -> Result<(), AllocError>
    ensures { OnOk result (out.new.items ≡ out.old.items ++ refresh_if wanted name.now) }
{
    if wanted {
        out.extend_from_slice(b"svcadm refresh ")?;
        out.extend_from_slice(name.print().as_bytes())?;
        out.push(b'\n')?;
    }
    Ok(())
}

/// Puts a refresh of each of these instances that is touched.
fn put_refreshes(
    alloc: Global,
    out: &mut Vec<u8>,
    before: &Plain<NoJournal>,
    after: &Plain<NoJournal>,
    names: &[InstanceName],
) -> Result<(), AllocError>
    ensures { OnOk result
        (out.new.items ≡ out.old.items ++ refreshes before.now.held after.now.held names.now) }
{
    for entry in names {
        let touched = is_touched(alloc, before, after, entry.number.get())?;
        put_refresh_if(out, touched, &entry.name)?;
    }
    Ok(())
}

/// The script of lines over what was held before them, and over what is held after them.
fn script_between(
    alloc: Global,
    before: &Tables,
    after: Tables,
    lines: &[u8],
) -> Result<Vec<u8>, AllocError>
    requires before { IsNumbered before.now }
    requires after { IsNumbered after }
    ensures { IfOk result (λ script. script.items
        ≡ for_svccfg true lines.now ++ refreshes before.now after after.names) }
{
    let mut script = Vec::new(alloc);
    put_for_svccfg(&mut script, lines)?;
    let before = Plain::over(alloc, before.clone()?, NoJournal {});
    let after = Plain::over(alloc, after, NoJournal {});
    put_refreshes(
        alloc,
        &mut script,
        &before,
        &after,
        after.names().as_slice(),
    )?;
    Ok(script)
}

/// Lines as a script, which then refreshes each instance that they add, or whose groups, composed with those of its service,
/// they change. A snapshot keeps what an instance runs by, so without a refresh the lines would have no effect on one that
/// runs.
pub fn script_of(alloc: Global, before: &Tables, lines: &str) -> Result<Vec<u8>, ExportFault>
    requires { IsNumbered before.now }
    ensures { IfOk result (λ script. script.items ≡ script_of before.now lines.now) }
{
    let after = rehearsed(alloc, before, lines)?;
    Ok(script_between(alloc, before, after, lines.as_bytes())?)
}
