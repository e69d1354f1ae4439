//! Which instances are asked to stop next.

ghost use Rattle.std.specs.Prelude.{◌≡◌, ◌++◌, IfOk, OnOk, filter, map};
ghost use Rattle.smf_stops.specs.Stops.{free, is_enabled, is_free, is_going, is_waiting, name_of, next_stops};

use crate::order::free_flags;
use crate::requirement::is_going;
use smf_dep::GraphMember;
use smf_fmri::{InstanceFmri, Items};
use std::alloc::{AllocError, Global};

/// True if it is to start, and would start meanwhile.
#[tactic(auto, unfolding(crate::specs::Stops::is_waiting))]
fn is_waiting(member: &GraphMember) -> bool
    ensures { result ≡ is_waiting member.now }
{
    member.enabled && !is_going(member)
}

fn put_waiting(members: &[GraphMember], names: &mut Items<InstanceFmri>) -> Result<(), AllocError>
    ensures { OnOk result (names.new ≡ names.old ++ map name_of (filter is_waiting members.now)) }
{
    for member in members {
        if is_waiting(member) {
            names.push(member.name.clone()?)?;
        }
    }
    Ok(())
}

/// Puts the names of the enabled ones of those whose flags are set.
fn put_flagged(
    members: &[GraphMember],
    flags: &[bool],
    names: &mut Items<InstanceFmri>,
) -> Result<(), AllocError>
    requires { flags.now ≡ map (is_free members.now) members.now }
    ensures { OnOk result (names.new ≡ names.old ++ map name_of (filter is_enabled (free members.now))) }
{
    let mut place = 0;
    for member in members {
        if flags[place] && member.enabled {
            names.push(member.name.clone()?)?;
        }
        place += 1;
    }
    Ok(())
}

/// The names of the instances that are asked to stop next. First come those that wait to start, then those that may stop
/// at once, each in number order. What was asked before is not enabled any more.
pub(crate) fn next_stops(
    alloc: Global,
    members: &[GraphMember],
) -> Result<Items<InstanceFmri>, AllocError>
    ensures { IfOk result (λ names. names ≡ next_stops members.now) }
{
    let flags = free_flags(alloc, members)?;
    let mut names = Items::new(alloc);
    put_waiting(members, &mut names)?;
    put_flagged(members, flags.as_slice(), &mut names)?;
    Ok(names)
}
