//! Which instances may stop at once.

ghost use Rattle.std.specs.Prelude.{◌≡◌, ◌||◌, IfOk, map, not};
ghost use Rattle.smf_stops.specs.Stops.{all_held, is_free, is_going, is_held};

use crate::requirement::{holds, is_going};
use smf_dep::GraphMember;
use std::alloc::{AllocError, Global};

/// True if some other instance that goes requires it.
#[tactic(auto, unfolding(crate::specs::Stops::is_held))]
fn is_held(members: &[GraphMember], member: &GraphMember) -> bool
    ensures { result ≡ is_held members.now member.now }
{
    members.iter().any(|other| holds(other, member))
}

fn is_held_if_going(members: &[GraphMember], member: &GraphMember) -> bool
    ensures { result ≡ (not (is_going member.now) || is_held members.now member.now) }
{
    !is_going(member) || is_held(members, member)
}

/// True if each that goes is required by another one.
#[tactic(auto, unfolding(crate::specs::Stops::all_held))]
fn all_held(members: &[GraphMember]) -> bool
    ensures { result ≡ all_held members.now }
{
    members
        .iter()
        .all(|member| is_held_if_going(members, member))
}

#[tactic(auto, unfolding(crate::specs::Stops::is_free))]
fn is_free(members: &[GraphMember], is_circle: bool, member: &GraphMember) -> bool
    requires { is_circle ≡ all_held members.now }
    ensures { result ≡ is_free members.now member.now }
{
    is_going(member) && (is_circle || !is_held(members, member))
}

/// For each instance, whether it may stop at once.
pub(crate) fn free_flags(alloc: Global, members: &[GraphMember]) -> Result<Vec<bool>, AllocError>
    ensures { IfOk result (λ flags. flags.items ≡ map (is_free members.now) members.now) }
{
    let is_circle = all_held(members);
    let mut flags = Vec::new(alloc);
    for member in members {
        flags.push(is_free(members, is_circle, member))?;
    }
    Ok(flags)
}
