ghost use Rattle.std.specs.Prelude.{◌≡◌, ℕ, IfOk, None, Some, false, find, is_some, slice_get};
ghost use Rattle.smf_dep.specs.Members.{members};
ghost use Rattle.smf_fmri.specs.ByKey.{Rises};
ghost use Rattle.smf_state.specs.Patched.{by_item};
ghost use Rattle.smf_engine.specs.Orders.{decision, is_about, is_none_left, order, order_in, order_to, order_under, order_placed, orders, what_by};

use crate::decisions::{decide_instance, what_of};
use smf_dep::{Finding, Graph, ReadMember};
use smf_fmri::Items;
use smf_state::ViewItem;
use smf_wire::{Order, What};
use std::alloc::{AllocError, Global};

/// An order by what is to be done.
fn order_to(revision: u64, item: &ViewItem, what: What) -> Result<Order, AllocError>
    ensures { IfOk result (λ o. Some o ≡ order_to revision item.now (Some what)) }
{
    Ok(Order {
        restarter: item.row.owner.clone()?,
        instance: item.instance,
        name: item.name.clone()?,
        revision,
        row: item.row.clone()?,
        what,
    })
}

fn what_to_do(
    alloc: Global,
    item: &ViewItem,
    member: &ReadMember,
    finding: &Finding,
) -> Result<Option<What>, AllocError>
    ensures { IfOk result (λ what. what ≡ what_by item.now member.now (decision item.now member.now finding.now)) }
{
    match decide_instance(alloc, item, member, finding)? {
        None => Ok(None),
        Some(decision) => what_of(alloc, item, member, decision),
    }
}

/// The order for an instance, if nothing is under way.
pub(crate) fn order_under(
    alloc: Global,
    revision: u64,
    item: &ViewItem,
    member: &ReadMember,
    finding: &Finding,
) -> Result<Option<Order>, AllocError>
    ensures { IfOk result (λ o. o ≡ order_under revision item.now member.now finding.now item.now.row.next) }
{
    if item.row.next.is_some() {
        return Ok(None);
    }
    match what_to_do(alloc, item, member, finding)? {
        None => Ok(None),
        Some(what) => Ok(Some(order_to(revision, item, what)?)),
    }
}

/// The order for an item, by what a graph has at a place.
pub(crate) fn order_with(
    alloc: Global,
    revision: u64,
    graph: &Graph,
    item: &ViewItem,
    place: usize,
) -> Result<Option<Order>, AllocError>
    ensures { IfOk result (λ o. o ≡ order_placed revision item.now graph.now place) }
{
    let Some(member) = graph.member(place) else {
        return Ok(None);
    };
    let Some(finding) = graph.finding(place) else {
        return Ok(None);
    };
    order_under(alloc, revision, item, member, &finding)
}

/// True if something is to be done with an item, by what a graph has at a place.
pub(crate) fn has_decision(
    alloc: Global,
    graph: &Graph,
    item: &ViewItem,
    place: usize,
) -> Result<bool, AllocError>
    ensures { IfOk result (λ b. b ≡ false → (revision : ℕ) → order_placed revision item.now graph.now place ≡ None) }
{
    let is_under_way = item.row.next.is_some();
    if is_under_way {
        return Ok(false);
    }
    let Some(member) = graph.member(place) else {
        return Ok(false);
    };
    let Some(finding) = graph.finding(place) else {
        return Ok(false);
    };
    let decision = decide_instance(alloc, item, member, &finding)?;
    Ok(decision.is_some())
}

/// True if something is to be done with the item at a place. If nothing is, there is no order for it.
fn is_decided(
    alloc: Global,
    graph: &Graph,
    items: &[ViewItem],
    item: &ViewItem,
    place: usize,
) -> Result<bool, AllocError>
    requires graph { graph.now ≡ members items.now }
    requires place { slice_get items.now place ≡ Some item.now }
    ensures { IfOk result (λ b. b ≡ false → (revision : ℕ) → order revision items.now item.now ≡ None) }
{
    let is_so = has_decision(alloc, graph, item, place)?;
    Ok(is_so)
}

/// The order for the item at a place.
#[tactic(auto, using(crate::proofs::Placed::placed))]
fn order_at(
    alloc: Global,
    revision: u64,
    graph: &Graph,
    items: &[ViewItem],
    item: &ViewItem,
    place: usize,
) -> Result<Option<Order>, AllocError>
    requires graph { graph.now ≡ members items.now }
    requires place { slice_get items.now place ≡ Some item.now }
    ensures { IfOk result (λ o. o ≡ order revision items.now item.now) }
{
    let order = order_with(alloc, revision, graph, item, place)?;
    Ok(order)
}

#[tactic(auto, using(crate::proofs::Placed::placed_item))]
pub(crate) fn orders_by(
    alloc: Global,
    revision: u64,
    graph: &Graph,
    items: &[ViewItem],
) -> Result<Items<Order>, AllocError>
    requires { graph.now ≡ members items.now }
    ensures { IfOk result (λ os. os ≡ orders revision items.now) }
{
    let mut all = Vec::new(alloc);
    let mut place = 0;
    for item in items {
        if is_decided(alloc, graph, items, item, place)? {
            if let Some(order) = order_at(alloc, revision, graph, items, item, place)? {
                all.push(order)?;
            }
        }
        place += 1;
    }
    Ok(Items::from_vec(all))
}

/// True if there is an order for the item at a place.
fn is_ordered(
    alloc: Global,
    revision: u64,
    graph: &Graph,
    items: &[ViewItem],
    item: &ViewItem,
    place: usize,
) -> Result<bool, AllocError>
    requires graph { graph.now ≡ members items.now }
    requires place { slice_get items.now place ≡ Some item.now }
    ensures { IfOk result (λ b. b ≡ is_some (order revision items.now item.now)) }
{
    if !is_decided(alloc, graph, items, item, place)? {
        return Ok(false);
    }
    let order = order_at(alloc, revision, graph, items, item, place)?;
    Ok(order.is_some())
}

/// True if there is no order for any instance.
#[tactic(auto, using(crate::proofs::Placed::placed_item))]
pub(crate) fn has_no_orders_by(
    alloc: Global,
    revision: u64,
    graph: &Graph,
    items: &[ViewItem],
) -> Result<bool, AllocError>
    requires { graph.now ≡ members items.now }
    ensures { IfOk result (λ b. b ≡ is_none_left (orders revision items.now)) }
{
    let mut place = 0;
    for item in items {
        if is_ordered(alloc, revision, graph, items, item, place)? {
            return Ok(false);
        }
        place += 1;
    }
    Ok(true)
}

/// The orders for all instances of a view, in their order.
pub fn orders(alloc: Global, revision: u64, items: &[ViewItem]) -> Result<Items<Order>, AllocError>
    requires { Rises by_item items.now }
    ensures { IfOk result (λ os. os ≡ orders revision items.now) }
{
    let graph = Graph::of(alloc, items)?;
    orders_by(alloc, revision, &graph, items)
}

#[tactic(auto, using(crate::proofs::Placed::placed_item))]
fn order_in(
    alloc: Global,
    revision: u64,
    graph: &Graph,
    items: &[ViewItem],
    instance: u64,
) -> Result<Option<Order>, AllocError>
    requires { graph.now ≡ members items.now }
    ensures { IfOk result (λ o. o ≡ order_in revision items.now (find (is_about instance) items.now)) }
{
    let mut place = 0;
    for item in items {
        if item.instance == instance {
            return order_at(alloc, revision, graph, items, item, place);
        }
        place += 1;
    }
    Ok(None)
}

/// The order for the instance of a number.
pub(crate) fn order_of(
    alloc: Global,
    revision: u64,
    items: &[ViewItem],
    instance: u64,
) -> Result<Option<Order>, AllocError>
    requires { Rises by_item items.now }
    ensures { IfOk result (λ o. o ≡ order_in revision items.now (find (is_about instance) items.now)) }
{
    let graph = Graph::of(alloc, items)?;
    order_in(alloc, revision, &graph, items, instance)
}
