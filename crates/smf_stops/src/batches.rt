//! Instances in the batches in which they stop.

ghost use Rattle.std.specs.List.{list_any};
ghost use Rattle.std.specs.Prelude.{◌≡◌, ◌++◌, ◌∷◌, [], IfOk, OnOk, if◌then◌else◌};
ghost use Rattle.smf_stops.specs.Stops.{any_going, batches, free, rest};

use crate::order::free_flags;
use crate::requirement::is_going;
use smf_dep::GraphMember;
use smf_fmri::Items;
use std::alloc::{AllocError, Global};
use std::mem::replace;

pub(crate) fn any_going(members: &[GraphMember]) -> bool
    ensures { result ≡ any_going members.now }
{
    members.iter().any(|member| is_going(member))
}

/// Puts a member into the batch, or to those that are left.
fn put_member(
    member: GraphMember,
    is_free: bool,
    batch: &mut Items<GraphMember>,
    left: &mut Items<GraphMember>,
) -> Result<(), AllocError>
    ensures batch { OnOk result (batch.new ≡ (if is_free then batch.old ++ member ∷ [] else batch.old)) }
    ensures left { OnOk result (left.new ≡ (if is_free then left.old else left.old ++ member ∷ [])) }
{
    if is_free {
        batch.push(member)?;
        return Ok(());
    }
    left.push(member)?;
    Ok(())
}

/// Takes those that may stop at once.
fn take_free(alloc: Global, left: &mut Items<GraphMember>) -> Result<Items<GraphMember>, AllocError>
    ensures taken { IfOk result (λ batch. batch ≡ free left.old) }
    ensures left { OnOk result (left.new ≡ rest left.old) }
{
    let flags = free_flags(alloc, left.as_slice())?;
    let all = replace(left, Items::new(alloc));
    let mut batch = Items::new(alloc);
    let mut place = 0;
    for member in all.into_vec() {
        put_member(member, flags[place], &mut batch, left)?;
        place += 1;
    }
    Ok(batch)
}

/// The batches in which the instances that go stop: each has those that may stop once the ones before it have ended.
pub(crate) fn batches(
    alloc: Global,
    members: Items<GraphMember>,
) -> Result<Items<Items<GraphMember>>, AllocError>
    ensures { IfOk result (λ all. all ≡ batches members) }
{
    let mut left = members;
    let mut all = Items::new(alloc);
    for _ in 0..left.len() {
        if !any_going(left.as_slice()) {
            return Ok(all);
        }
        all.push(take_free(alloc, &mut left)?)?;
    }
    Ok(all)
}
