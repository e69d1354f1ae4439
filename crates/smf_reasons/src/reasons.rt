ghost use Rattle.std.specs.List.{AllZip};
ghost use Rattle.std.specs.Option.{option_map_or};
ghost use Rattle.std.specs.Prelude.{◌≡◌, ◌++◌, IfOk, OnOk, Some, false, slice_get};
ghost use Rattle.smf_dep.specs.Cycles.{on_cycle};
ghost use Rattle.smf_dep.specs.Members.{snapshot_in};
ghost use Rattle.smf_engine.specs.Orders.{order_by_view};
ghost use Rattle.smf_reasons.specs.Reasons.{IsInTheWay, IsReasons, IsTold, errand, in_maintenance, is_amiss, of_cycle, of_member, of_row, reasons_of_order, restarter_read, snapshot_read, under_way};
ghost use Rattle.smf_reasons.specs.Sights.{IsSight};

use crate::cycles::cycle_of;
use crate::dependencies::{put_groups, put_restarter};
use crate::methods::put_methods;
use crate::reason::{Reason, Told};
use smf_dep::{Graph, GraphMember, members};
use smf_engine::Engine;
use smf_fmri::{InstanceFmri, Items};
use smf_snap::decode_snapshot;
use smf_state::{State, View, ViewItem};
use smf_value::BodyFault;
use smf_wire::{Order, What};
use std::alloc::{AllocError, Global};

/// A view's engine, members and graph, by which its reasons are found.
#[derive(Drop)]
struct Sight {
    engine: Engine,
    members: Items<GraphMember>,
    graph: Graph,
}

fn let_go(_sight: Sight) {}

fn put_under_way(all: &mut Items<Reason>, next: Option<State>) -> Result<(), AllocError>
    ensures { OnOk result (all.new ≡ all.old ++ under_way next) }
{
    match next {
        None => Ok(()),
        Some(next) => all.push(Reason::UnderWay(next)),
    }
}

fn put_errand(all: &mut Items<Reason>, state: State, what: &What) -> Result<(), AllocError>
    ensures { OnOk result (all.new ≡ all.old ++ errand state what.now) }
{
    match what {
        What::To(to) => all.push(Reason::Ordered(*to)),
        What::Start { .. } => Ok(()),
        What::Stop { to, .. } => all.push(Reason::Ordered(*to)),
        What::Refresh { .. } => all.push(Reason::Ordered(state)),
    }
}

fn put_ordered(
    all: &mut Items<Reason>,
    state: State,
    order: &Option<Order>,
) -> Result<(), AllocError>
    ensures { OnOk result (all.new ≡ all.old ++ reasons_of_order state order.now) }
{
    match order {
        None => Ok(()),
        Some(order) => put_errand(all, state, &order.what),
    }
}

fn put_maintenance(
    all: &mut Items<Reason>,
    instance: u64,
    row: u64,
    state: State,
) -> Result<(), AllocError>
    ensures { OnOk result (all.new ≡ all.old ++ in_maintenance instance row state) }
{
    match state {
        State::Maintenance => all.push(Reason::Maintenance { instance, row }),
        _ => Ok(()),
    }
}

pub(crate) fn put_restarter_read(all: &mut Items<Reason>, is_read: bool) -> Result<(), AllocError>
    ensures { OnOk result (all.new ≡ all.old ++ restarter_read is_read) }
{
    if is_read {
        Ok(())
    } else {
        all.push(Reason::UnreadableRestarter)
    }
}

pub(crate) fn put_snapshot_read(
    alloc: Global,
    all: &mut Items<Reason>,
    item: &ViewItem,
) -> Result<(), AllocError>
    ensures { OnOk result (all.new ≡ all.old ++ snapshot_read (snapshot_in item.now.body)) }
{
    let Some(body) = &item.body else {
        return Ok(());
    };
    match decode_snapshot(alloc, body.as_slice()) {
        Ok(_) => Ok(()),
        Err(BodyFault::Memory) => Err(AllocError),
        Err(BodyFault::BadBody(_)) => all.push(Reason::UnreadableSnapshot),
    }
}

#[tactic(auto, using(crate::proofs::Reasoned::uncycled, crate::proofs::Reasoned::cycled))]
pub(crate) fn put_cycle(
    all: &mut Items<Reason>,
    cycle: Items<InstanceFmri>,
) -> Result<(), AllocError>
    ensures { OnOk result (all.new ≡ all.old ++ of_cycle cycle) }
{
    match cycle.as_slice() {
        [] => Ok(()),
        [_, ..] => all.push(Reason::OnCycle(cycle)),
    }
}

/// Puts what svc.startd's graph orders of an instance, if it is no start.
fn put_order(
    alloc: Global,
    engine: &Engine,
    item: &ViewItem,
    all: &mut Items<Reason>,
) -> Result<(), AllocError>
    ensures { OnOk result
        (all.new ≡ all.old ++ reasons_of_order item.now.row.state (order_by_view engine.now item.now.instance)) }
{
    let order = engine.decide(alloc, item.instance)?;
    put_ordered(all, item.row.state, &order)
}

/// Puts the reasons of a row: a transition, maintenance, and a restarter or a snapshot that can't be read.
fn put_row(
    alloc: Global,
    engine: &Engine,
    item: &ViewItem,
    all: &mut Items<Reason>,
) -> Result<(), AllocError>
    ensures { OnOk result (all.new ≡ all.old ++ of_row engine.now item.now) }
{
    put_under_way(all, item.row.next)?;
    put_order(alloc, engine, item, all)?;
    put_maintenance(all, item.instance, item.row.number, item.row.state)?;
    put_restarter_read(all, item.readable)?;
    put_snapshot_read(alloc, all, item)
}

/// Puts the reasons of a member's groups, of its restarter and of its methods.
fn put_member(
    alloc: Global,
    members: &[GraphMember],
    graph: &Graph,
    item: &ViewItem,
    member: &GraphMember,
    all: &mut Items<Reason>,
) -> Result<(), AllocError>
    requires { graph.now ≡ members.now }
    ensures { OnOk result (all.new ≡ all.old ++ of_member members.now item.now member.now) }
{
    put_groups(alloc, members, graph, member.composed.as_slice(), all)?;
    put_restarter(alloc, members, graph, &item.row.owner, all)?;
    put_methods(alloc, &item.row.owner, &item.name, &member.composed, all)
}

/// It is to run, and does not.
fn is_amiss(item: &ViewItem) -> bool
    ensures { result ≡ is_amiss item.now }
{
    item.enabled && !item.row.state.runs()
}

/// True if the instance at a place depends on itself.
#[tactic(auto, unfolding(smf_dep::specs::Places::finding_of))]
pub(crate) fn is_on_cycle(graph: &Graph, place: usize) -> bool
    ensures { result ≡ option_map_or (on_cycle graph.now) (slice_get graph.now place) false }
{
    match graph.finding(place) {
        None => false,
        Some(finding) => finding.on_cycle,
    }
}

/// All that stands between an instance and its start.
#[tactic(auto, using(crate::proofs::Placed::placed_member))]
fn in_the_way(
    alloc: Global,
    view: &View,
    sight: &Sight,
    item: &ViewItem,
    place: usize,
) -> Result<Items<Reason>, AllocError>
    requires sight { IsSight view.now sight.now }
    requires place { slice_get view.now.items place ≡ Some item.now }
    ensures { IfOk result (IsInTheWay view.now item.now) }
{
    let members = sight.members.as_slice();
    let Some(member) = members.get(place) else {
        unreachable!()
    };
    let mut all = Items::new(alloc);
    put_row(alloc, &sight.engine, item, &mut all)?;
    put_member(alloc, members, &sight.graph, item, member, &mut all)?;
    let is_on_cycle = is_on_cycle(&sight.graph, place);
    let cycle = cycle_of(alloc, members, member, is_on_cycle)?;
    put_cycle(&mut all, cycle)?;
    Ok(all)
}

/// Why an instance that is enabled does not run.
#[tactic(auto, using(crate::proofs::Reasoned::silent_of, crate::proofs::Reasoned::given_of))]
fn reasons_of(
    alloc: Global,
    view: &View,
    sight: &Sight,
    item: &ViewItem,
    place: usize,
) -> Result<Items<Reason>, AllocError>
    requires sight { IsSight view.now sight.now }
    requires place { slice_get view.now.items place ≡ Some item.now }
    ensures { IfOk result (IsReasons view.now item.now) }
{
    if !is_amiss(item) {
        return Ok(Items::new(alloc));
    }
    let all = in_the_way(alloc, view, sight, item, place)?;
    Ok(all)
}

fn report_of_reasons(
    alloc: Global,
    view: &View,
    sight: &Sight,
    item: &ViewItem,
    place: usize,
) -> Result<Told, AllocError>
    requires sight { IsSight view.now sight.now }
    requires place { slice_get view.now.items place ≡ Some item.now }
    ensures { IfOk result (IsTold view.now item.now) }
{
    let name = item.name.clone()?;
    let reasons = reasons_of(alloc, view, sight, item, place)?;
    Ok(Told {
        name,
        state: item.row.state,
        reasons,
    })
}

/// An engine that holds a view, and looked at it.
fn engine_of(alloc: Global, view: &View) -> Result<Engine, AllocError>
    ensures { IfOk result (λ engine. engine ≡ Some view.now) }
{
    let mut engine = Engine::new();
    engine.take_view(alloc, view.clone()?);
    engine.look(alloc)?;
    Ok(engine)
}

/// Looks at a view.
fn sight_of(alloc: Global, view: &View) -> Result<Sight, AllocError>
    ensures { IfOk result (IsSight view.now) }
{
    let items = view.items.as_slice();
    let members = members(alloc, items)?;
    let graph = Graph::of(alloc, items)?;
    let engine = engine_of(alloc, view)?;
    Ok(Sight {
        engine,
        members,
        graph,
    })
}

#[tactic(auto, using(crate::proofs::Placed::placed_item, crate::proofs::Reasoned::one_more, crate::proofs::Reasoned::whole))]
fn tell_all(alloc: Global, view: &View, sight: &Sight) -> Result<Items<Told>, AllocError>
    requires { IsSight view.now sight.now }
    ensures { IfOk result (λ all. AllZip (IsTold view.now) view.now.items all) }
{
    let mut all = Items::new(alloc);
    let mut place = 0;
    let items = view.items.as_slice();
    for item in items {
        all.push(report_of_reasons(alloc, view, sight, item, place)?)?;
        place += 1;
    }
    Ok(all)
}

/// The reasons of each instance of a view, in number order. There are none if it runs, is not enabled, or is about to
/// start.
pub fn tell(alloc: Global, view: &View) -> Result<Items<Told>, AllocError>
    ensures { IfOk result (λ all. AllZip (IsTold view.now) view.now.items all) }
{
    let sight = sight_of(alloc, view)?;
    let all = tell_all(alloc, view, &sight);
    let_go(sight);
    all
}
