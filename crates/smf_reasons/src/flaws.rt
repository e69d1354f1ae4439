ghost use Rattle.std.specs.List.{AllZip};
ghost use Rattle.std.specs.Prelude.{◌≡◌, ◌++◌, IfOk, OnOk, Some, slice_get};
ghost use Rattle.smf_dep.specs.Members.{members};
ghost use Rattle.smf_reasons.specs.Flaws.{AreFlaws, IsChecked, of_configured, of_item};

use crate::absent::{put_groups_flaws, put_restarter_flaws};
use crate::cycles::cycle_of;
use crate::methods::put_methods;
use crate::reason::{Reason, Told};
use crate::reasons::{is_on_cycle, put_cycle, put_restarter_read, put_snapshot_read};
use smf_dep::{Graph, GraphMember, members};
use smf_fmri::Items;
use smf_state::{View, ViewItem};
use std::alloc::{AllocError, Global};

/// Puts the parts of an item that can't be read.
fn put_item(alloc: Global, item: &ViewItem, all: &mut Items<Reason>) -> Result<(), AllocError>
    ensures { OnOk result (all.new ≡ all.old ++ of_item item.now) }
{
    put_restarter_read(all, item.readable)?;
    put_snapshot_read(alloc, all, item)
}

/// Puts the flaws of a member's groups, of its restarter and of its methods.
fn put_configured(
    alloc: Global,
    members: &[GraphMember],
    item: &ViewItem,
    member: &GraphMember,
    all: &mut Items<Reason>,
) -> Result<(), AllocError>
    ensures { OnOk result (all.new ≡ all.old ++ of_configured members.now item.now member.now) }
{
    put_groups_flaws(alloc, members, member.composed.as_slice(), all)?;
    put_restarter_flaws(alloc, members, &item.row.owner, all)?;
    put_methods(alloc, &item.row.owner, &item.name, &member.composed, all)
}

/// The flaws of an instance, whatever the states are.
#[tactic(auto, using(crate::proofs::Placed::placed_member))]
fn flaws_of(
    alloc: Global,
    view: &View,
    present: &[GraphMember],
    graph: &Graph,
    item: &ViewItem,
    place: usize,
) -> Result<Items<Reason>, AllocError>
    requires shown { present.now ≡ members view.now.items }
    requires linked { graph.now ≡ members view.now.items }
    requires place { slice_get view.now.items place ≡ Some item.now }
    ensures { IfOk result (AreFlaws view.now item.now) }
{
    let Some(member) = present.get(place) else {
        unreachable!()
    };
    let mut all = Items::new(alloc);
    put_item(alloc, item, &mut all)?;
    put_configured(alloc, present, item, member, &mut all)?;
    let is_on_cycle = is_on_cycle(graph, place);
    let cycle = cycle_of(alloc, present, member, is_on_cycle)?;
    put_cycle(&mut all, cycle)?;
    Ok(all)
}

fn report_of_flaws(
    alloc: Global,
    view: &View,
    present: &[GraphMember],
    graph: &Graph,
    item: &ViewItem,
    place: usize,
) -> Result<Told, AllocError>
    requires shown { present.now ≡ members view.now.items }
    requires linked { graph.now ≡ members view.now.items }
    requires place { slice_get view.now.items place ≡ Some item.now }
    ensures { IfOk result (IsChecked view.now item.now) }
{
    let name = item.name.clone()?;
    let reasons = flaws_of(alloc, view, present, graph, item, place)?;
    Ok(Told {
        name,
        state: item.row.state,
        reasons,
    })
}

#[tactic(auto, using(crate::proofs::Placed::placed_item, crate::proofs::Flawed::one_more, crate::proofs::Flawed::whole))]
fn check_all(
    alloc: Global,
    view: &View,
    present: &[GraphMember],
    graph: &Graph,
) -> Result<Items<Told>, AllocError>
    requires shown { present.now ≡ members view.now.items }
    requires linked { graph.now ≡ members view.now.items }
    ensures { IfOk result (λ all. AllZip (IsChecked view.now) view.now.items all) }
{
    let mut all = Items::new(alloc);
    let mut place = 0;
    let items = view.items.as_slice();
    for item in items {
        all.push(report_of_flaws(alloc, view, present, graph, item, place)?)?;
        place += 1;
    }
    Ok(all)
}

/// The flaws of each instance of a view, enabled or not, in number order, whatever the states are.
pub fn check(alloc: Global, view: &View) -> Result<Items<Told>, AllocError>
    ensures { IfOk result (λ all. AllZip (IsChecked view.now) view.now.items all) }
{
    let items = view.items.as_slice();
    let present = members(alloc, items)?;
    let graph = Graph::of(alloc, items)?;
    check_all(alloc, view, present.as_slice(), &graph)
}
