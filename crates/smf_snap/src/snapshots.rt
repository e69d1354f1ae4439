ghost use Rattle.smf_fmri.specs.ByKey.{put_all};
ghost use Rattle.smf_snap.specs.Snapshots.{is_left_out, is_snapped, groups_of_revert, unsnapped_groups, snapshot_groups};
ghost use Rattle.smf_value.specs.Groups.{by_group};
ghost use Rattle.std.specs.Prelude.{◌≡◌, IfOk};

use smf_fmri::{Items, Ordered};
use smf_value::Group;
use std::alloc::{AllocError, Global};

fn is_left_out(name: &str) -> bool
    ensures { result ≡ is_left_out name.now }
{
    name == "general" || name == "general_ovr" || name == "restarter"
}

/// True if snapshots hold a group: a persistent one that is not `general`, `general_ovr` or `restarter`.
pub fn is_snapped(group: &Group) -> bool
    ensures { result ≡ is_snapped group.now }
{
    !group.is_non_persistent() && !is_left_out(group.name().as_str())
}

/// The groups of one owner that a snapshot keeps.
pub fn take(alloc: Global, groups: &Ordered<Group>) -> Result<Ordered<Group>, AllocError>
    ensures { IfOk result (λ gs. gs ≡ snapshot_groups groups.now) }
{
    let taken = snapshot_groups(alloc, groups.as_slice())?;
    Ok(Ordered::from_vec(taken.into_vec()))
}

#[tactic(auto, unfolding(crate::specs::Snapshots::snapshot_groups))]
fn snapshot_groups(alloc: Global, groups: &[Group]) -> Result<Items<Group>, AllocError>
    ensures { IfOk result (λ gs. gs ≡ snapshot_groups groups.now) }
{
    let mut taken = Items::new(alloc);
    for group in groups {
        if is_snapped(group) {
            taken.push(group.clone()?)?;
        }
    }
    Ok(taken)
}

/// The groups of one owner that no snapshot holds.
#[tactic(auto, unfolding(crate::specs::Snapshots::unsnapped_groups))]
fn unsnapped_groups(alloc: Global, groups: &[Group]) -> Result<Items<Group>, AllocError>
    ensures { IfOk result (λ gs. gs ≡ unsnapped_groups groups.now) }
{
    let mut staying = Items::new(alloc);
    for group in groups {
        if !is_snapped(group) {
            staying.push(group.clone()?)?;
        }
    }
    Ok(staying)
}

/// Puts copies of groups among others, each over the one that has its name.
fn put_copies(groups: Ordered<Group>, copied: &[Group]) -> Result<Ordered<Group>, AllocError>
    ensures { IfOk result (λ gs. gs ≡ put_all by_group copied.now groups) }
{
    let mut groups = groups;
    for group in copied {
        groups.put(group.clone()?)?;
    }
    Ok(groups)
}

/// One owner's groups after a revert: the snapshot's groups, put over the current groups that no snapshot holds.
#[tactic(auto, unfolding(crate::specs::Snapshots::groups_of_revert))]
pub fn restore(
    alloc: Global,
    current: &Ordered<Group>,
    snapshot: &Ordered<Group>,
) -> Result<Ordered<Group>, AllocError>
    ensures { IfOk result (λ gs. gs ≡ groups_of_revert current.now snapshot.now) }
{
    let staying = unsnapped_groups(alloc, current.as_slice())?;
    put_copies(Ordered::from_vec(staying.into_vec()), snapshot.as_slice())
}
