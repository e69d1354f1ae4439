ghost use Rattle.std.specs.Prelude.{◌≡◌, ◌+◌, ◌<◌, length, map, position, vec_capacity, vec_len, IfSome, OnOk};
ghost use Rattle.smf_machine.specs.Given.{is_named_kept};
ghost use Rattle.smf_machine.specs.Install.{HasRoom, IsSame, RoomForAll, RoomOf};
ghost use Rattle.smf_machine.specs.Parts.{knowledge};
ghost use Rattle.smf_world.specs.Worked.{is_named};

use crate::parts::Parts;
use smf_fmri::InstanceFmri;
use smf_restarter::{KnowledgeChange, Restarter};
use smf_world::{Becomes, Work};
use std::alloc::AllocError;

fn place_in(restarters: &[Restarter], name: &InstanceFmri) -> Option<usize>
    ensures exact { result ≡ position (is_named_kept name.now) restarters.now }
    ensures in_range { IfSome result (λ k. k < length restarters.now) }
{
    restarters.iter().position(|r| *r.name() == *name)
}

/// The place of the restarter of a name.
#[tactic(auto, using(crate::proofs::Known::position_known))]
pub(crate) fn place_of(restarters: &[Restarter], name: &InstanceFmri) -> Option<usize>
    ensures exact { result ≡ position (is_named name.now) (map knowledge restarters.now) }
    ensures in_range { IfSome result (λ k. k < length restarters.now) }
{
    place_in(restarters, name)
}

/// Room in the restarter of a name for a change.
fn reserve_of(
    restarters: &mut Vec<Restarter>,
    name: &InstanceFmri,
    change: &KnowledgeChange,
) -> Result<(), AllocError>
    ensures same { map knowledge restarters.new.items ≡ map knowledge restarters.old.items }
    ensures capacity { vec_capacity restarters.new ≡ vec_capacity restarters.old }
    ensures len { vec_len restarters.new ≡ vec_len restarters.old }
    ensures room { OnOk result (RoomOf name.now change.now restarters.new.items) }
{
    let Some(place) = place_of(restarters, name) else {
        return Ok(());
    };
    let listed = change.listed.as_slice();
    restarters[place].reserve(change.put.len(), listed.len() + 1)
}

/// Room for one more restarter, and for what a restarter is to learn.
fn reserve_for(restarters: &mut Vec<Restarter>, becomes: &[Becomes]) -> Result<(), AllocError>
    ensures same { map knowledge restarters.new.items ≡ map knowledge restarters.old.items }
    ensures room { OnOk result (RoomForAll becomes.now restarters.new.items) }
    ensures one { OnOk result (vec_len restarters.new < vec_capacity restarters.new) }
{
    restarters.reserve(1)?;
    match becomes.first() {
        Some(Becomes::Knows { name, change }) => reserve_of(restarters, name, change),
        _ => Ok(()),
    }
}

/// Room for all that an event makes.
pub(crate) fn make_room(parts: &mut Parts, work: &Work) -> Result<(), AllocError>
    ensures same { IsSame parts.old parts.new }
    ensures room { OnOk result (HasRoom parts.new work.now) }
{
    parts.commands.reserve(work.command.len())?;
    parts.trail.reserve(work.items.len())?;
    parts.messages.reserve(work.messages.len())?;
    parts.table.reserve()?;
    reserve_for(&mut parts.restarters, work.becomes.as_slice())
}
