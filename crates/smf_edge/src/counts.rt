// How many members a contract has left.
ghost use Rattle.std.specs.Prelude.{◌≡◌, ◌+◌, ◌<◌, ◌≤◌};
ghost use Rattle.smf_contract.specs.Calls.{is_fatal};
ghost use Rattle.smf_edge.specs.Ledgers.{left_after, left_by, left_of};

use crate::deed::{Happening, MemberEvent};
use bitflags::Flags;
use smf_contract::{Contract, EventSet, Failure};
use smf_fmri::Number;

/// Says whether a failure of one member of a contract ends them all.
pub(crate) fn is_fatal(contract: &Option<Contract>, failure: Failure) -> bool
    ensures { result ≡ is_fatal failure contract.now }
{
    let kind = match failure {
        Failure::Core => EventSet::CORE,
        Failure::Signal => EventSet::SIGNAL,
        Failure::Hwerr => EventSet::HWERR,
    };
    match contract {
        Some(found) => found.terms.fatal.contains(kind),
        None => false,
    }
}

/// How many of so many members are left if something happens to the lowest.
fn left_by(contract: &Option<Contract>, happening: Happening, count: usize) -> usize
    requires { count + 1 < 0x1_0000_0000_0000_0000 }
    ensures value { result ≡ left_by contract.now happening count }
    ensures bound { result ≤ count + 1 }
{
    match happening {
        Happening::Fork => count + 1,
        Happening::Exit(_) => count.saturating_sub(1),
        Happening::Fail(failure) => {
            if is_fatal(contract, failure) {
                return 0;
            }
            count.saturating_sub(1)
        }
    }
}

fn left_of(contract: &Option<Contract>, id: Number, deed: &MemberEvent, count: usize) -> usize
    requires { count + 1 < 0x1_0000_0000_0000_0000 }
    ensures value { result ≡ left_of contract.now id deed.now count }
    ensures bound { result ≤ count + 1 }
{
    if deed.contract == id {
        return left_by(contract, deed.happening, count);
    }
    count
}

/// How many members a contract has once all that is pending is told, of so many in the table.
pub(crate) fn count_left(
    contract: &Option<Contract>,
    count: usize,
    pending: &[MemberEvent],
    id: Number,
) -> usize
    requires { count < 0x7fff_ffff_ffff_ffff }
    ensures { result ≡ left_after contract.now id pending.now count }
{
    let mut left = count;
    for d in pending {
        left = left_of(contract, id, d, left);
    }
    left
}
