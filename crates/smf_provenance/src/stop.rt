ghost use Rattle.std.specs.Option.{option_copied};
ghost use Rattle.std.specs.Prelude.{◌≡◌, ◌++◌, ◌∷◌, [], IfOk, None, OnOk, Some, flat_map, option_map};
ghost use Rattle.smf_dep.specs.Members.{member_of, members};
ghost use Rattle.smf_provenance.specs.Groups.{at};
ghost use Rattle.smf_engine.specs.Orders.{asks};
ghost use Rattle.smf_provenance.specs.Stopped.{all_stops, asked_stops, enabled_reason, event_as, event_by, event_if, event_of, event_where_asked, event_where_excluded, events_for, events_of, first_ask, read_stops, reason_by, revision_of, stop_by_view, stop_evidence, stop_if_any, stop_reason, stops_of_group, unasked_reason};

use crate::evidence::{Ask, EventKind, GroupStop, StopEvent, StopEvidence, StopReason};
use crate::groups::read_alone;
use crate::scene::{Scene, find_item};
use bitflags::Flags;
use smf_dep::{Dependency, DependencyFault, GraphMember, Grouping, RestartOn};
use smf_fmri::{Fmri, Items};
use smf_state::{Asks, Cause, Row, State, ViewItem};
use smf_value::{Group, Name};
use smf_wire::{Order, What};
use std::alloc::{AllocError, Global};

/// The first ask of a row that stops an instance.
fn first_ask(row: &Row) -> Option<Ask>
    ensures { result ≡ first_ask row.now }
{
    if row.asks.contains(Asks::MAINTENANCE_NOW) {
        Some(Ask::MaintenanceNow)
    } else if row.asks.contains(Asks::MAINTENANCE) {
        Some(Ask::Maintenance)
    } else if row.asks.contains(Asks::FAILED) {
        Some(Ask::Failed)
    } else if row.asks.contains(Asks::EXITED) {
        Some(Ask::Exited)
    } else if row.asks.contains(Asks::RESTART) {
        Some(Ask::Restart)
    } else {
        None
    }
}

/// The event after the base that counts, if stops and refreshes do.
fn event_where_asked(restart_on: RestartOn, base: u64, member: &GraphMember) -> Option<EventKind>
    ensures { result ≡ event_where_asked restart_on base member.now }
{
    match restart_on {
        RestartOn::Nothing => None,
        RestartOn::Error => {
            if base < member.err {
                Some(EventKind::ErrorStop)
            } else {
                None
            }
        }
        RestartOn::Restart => {
            if base < member.err {
                Some(EventKind::ErrorStop)
            } else if base < member.stop {
                Some(EventKind::OtherStop)
            } else {
                None
            }
        }
        RestartOn::Refresh => {
            if base < member.err {
                Some(EventKind::ErrorStop)
            } else if base < member.stop {
                Some(EventKind::OtherStop)
            } else if base < member.refresh {
                Some(EventKind::Refreshed)
            } else {
                None
            }
        }
    }
}

/// The event after the base that counts, if starts do.
fn event_where_excluded(restart_on: RestartOn, base: u64, member: &GraphMember) -> Option<EventKind>
    ensures { result ≡ event_where_excluded restart_on base member.now }
{
    if restart_on == RestartOn::Nothing {
        None
    } else if base < member.start {
        Some(EventKind::Started)
    } else {
        None
    }
}

fn event_by(dependency: &Dependency, base: u64, member: &GraphMember) -> Option<EventKind>
    ensures { result ≡ event_by dependency.now.grouping dependency.now.restart_on base member.now }
{
    match dependency.grouping {
        Grouping::ExcludeAll => event_where_excluded(dependency.restart_on, base, member),
        Grouping::RequireAll => event_where_asked(dependency.restart_on, base, member),
        Grouping::RequireAny => event_where_asked(dependency.restart_on, base, member),
        Grouping::OptionalAll => event_where_asked(dependency.restart_on, base, member),
    }
}

fn revision_of(member: &GraphMember, kind: EventKind) -> u64
    ensures { result ≡ revision_of member.now kind }
{
    match kind {
        EventKind::ErrorStop => member.err,
        EventKind::OtherStop => member.stop,
        EventKind::Refreshed => member.refresh,
        EventKind::Started => member.start,
    }
}

/// The event of an instance by which a dependency stops its dependent.
fn event_of(
    dependency: &Dependency,
    base: u64,
    member: &GraphMember,
) -> Result<Option<StopEvent>, AllocError>
    ensures { IfOk result (λ e. e ≡ event_of dependency.now base member.now) }
{
    match event_by(dependency, base, member) {
        None => Ok(None),
        Some(kind) => {
            let name = member.name.clone()?;
            Ok(Some(StopEvent {
                name,
                kind,
                revision: revision_of(member, kind),
            }))
        }
    }
}

/// Puts the event of an instance, if there is one and the entity stands for it.
fn put_if_cited(
    member: Option<&GraphMember>,
    dependency: &Dependency,
    base: u64,
    entity: &Fmri,
    all: &mut Items<StopEvent>,
) -> Result<(), AllocError>
    ensures { OnOk result
        (all.new ≡ all.old ++ at (event_if dependency.now base entity.now) (option_copied member.entry)) }
{
    match member {
        None => Ok(()),
        Some(member) => {
            if !member.is_cited(entity) {
                return Ok(());
            }
            match event_of(dependency, base, member)? {
                None => Ok(()),
                Some(event) => all.push(event),
            }
        }
    }
}

/// Puts the events of the instances that an entity stands for.
fn put_events(
    scene: &Scene,
    dependency: &Dependency,
    base: u64,
    entity: &Fmri,
    all: &mut Items<StopEvent>,
) -> Result<(), AllocError>
    ensures { OnOk result
        (all.new ≡ all.old ++ events_for (members scene.now.items) dependency.now base entity.now) }
{
    for place in 0..scene.count() {
        put_if_cited(scene.member(place), dependency, base, entity, all)?;
    }
    Ok(())
}

#[tactic(auto, unfolding(crate::specs::Stopped::events_of))]
fn events_of(
    alloc: Global,
    scene: &Scene,
    dependency: &Dependency,
    base: u64,
) -> Result<Items<StopEvent>, AllocError>
    ensures { IfOk result (λ all. all ≡ events_of (members scene.now.items) dependency.now base) }
{
    let mut all = Items::new(alloc);
    for entity in dependency.entities.as_slice() {
        put_events(scene, dependency, base, entity, &mut all)?;
    }
    Ok(all)
}

/// Puts a dependency of a group, if it stops the instance.
#[tactic(auto, using(crate::proofs::Halted::no_event, crate::proofs::Halted::some_event))]
fn put_if_any(
    group: &Name,
    dependency: &Dependency,
    events: Items<StopEvent>,
    all: &mut Items<GroupStop>,
) -> Result<(), AllocError>
    ensures { OnOk result (all.new ≡ all.old ++ stop_if_any group.now dependency.now events) }
{
    match events.as_slice() {
        [] => Ok(()),
        [_, ..] => {
            let group = group.clone()?;
            all.push(GroupStop {
                group,
                grouping: dependency.grouping,
                restart_on: dependency.restart_on,
                events,
            })
        }
    }
}

fn put_asked(
    alloc: Global,
    scene: &Scene,
    base: u64,
    group: &Name,
    dependencies: &[Dependency],
    all: &mut Items<GroupStop>,
) -> Result<(), AllocError>
    ensures { OnOk result
        (all.new ≡ all.old ++ flat_map (asked_stops (members scene.now.items) base group.now) dependencies.now) }
{
    for dependency in dependencies {
        let events = events_of(alloc, scene, dependency, base)?;
        put_if_any(group, dependency, events, all)?;
    }
    Ok(())
}

/// Puts a group, if it stops the instance.
#[tactic(auto, using(crate::proofs::Halted::group_asked, crate::proofs::Halted::group_unread))]
fn put_group(
    alloc: Global,
    scene: &Scene,
    base: u64,
    group: &Group,
    all: &mut Items<GroupStop>,
) -> Result<(), AllocError>
    ensures { OnOk result (all.new ≡ all.old ++ stops_of_group (members scene.now.items) base group.now) }
{
    match read_alone(alloc, group) {
        Ok(dependencies) => {
            put_asked(
                alloc,
                scene,
                base,
                group.name(),
                dependencies.as_slice(),
                all,
            )
        }
        Err(DependencyFault::Memory) => Err(AllocError),
        Err(DependencyFault::BadGrouping) => Ok(()),
        Err(DependencyFault::BadRestartOn) => Ok(()),
        Err(DependencyFault::PathType) => Ok(()),
        Err(DependencyFault::BadEntity) => Ok(()),
    }
}

/// The groups that stop an instance.
fn all_stops(
    alloc: Global,
    scene: &Scene,
    base: u64,
    groups: &[Group],
) -> Result<Items<GroupStop>, AllocError>
    ensures { IfOk result (λ all. all ≡ all_stops (members scene.now.items) base groups.now) }
{
    let mut all = Items::new(alloc);
    for group in groups {
        put_group(alloc, scene, base, group, &mut all)?;
    }
    Ok(all)
}

fn reason_by(ask: Option<Ask>, is_enabled: bool, to: State, groups: Items<GroupStop>) -> StopReason
    ensures { result ≡ reason_by ask is_enabled to groups }
{
    if let Some(ask) = ask {
        return StopReason::Asked(ask);
    }
    if !is_enabled {
        return StopReason::NotEnabled;
    }
    match to {
        State::Maintenance => StopReason::Faulty,
        State::Uninitialized => StopReason::Groups(groups),
        State::Disabled => StopReason::Groups(groups),
        State::Offline => StopReason::Groups(groups),
        State::Online => StopReason::Groups(groups),
        State::Degraded => StopReason::Groups(groups),
    }
}

fn stop_reason(
    alloc: Global,
    scene: &Scene,
    item: &ViewItem,
    member: &GraphMember,
    to: State,
) -> Result<StopReason, AllocError>
    ensures { IfOk result (λ r. r ≡ stop_reason (members scene.now.items) item.now member.now to) }
{
    let groups = all_stops(alloc, scene, item.row.base, member.composed.as_slice())?;
    Ok(reason_by(first_ask(&item.row), item.enabled, to, groups))
}

#[tactic(auto, using(crate::proofs::Seen::other_stop, crate::proofs::Seen::no_stop, crate::proofs::Seen::that_stop))]
fn stop_by_view(
    alloc: Global,
    scene: &Scene,
    revision: u64,
    instance: u64,
    to: State,
    cause: Cause,
) -> Result<Option<StopEvidence>, AllocError>
    ensures { IfOk result (λ e. e ≡ stop_by_view scene.now revision instance to cause) }
{
    if scene.revision() != revision {
        return Ok(None);
    }
    let Some(placed) = find_item(scene.items(), instance) else {
        return Ok(None);
    };
    let member = scene.member_at(placed.place, placed.item);
    let name = placed.item.name.clone()?;
    let reason = stop_reason(alloc, scene, placed.item, member, to)?;
    Ok(Some(StopEvidence {
        instance: placed.item.instance,
        name,
        revision,
        to,
        cause,
        reason,
    }))
}

/// On what evidence an order to stop was decided, by the view of the revision that the order names. None by another view,
/// and for any other order.
#[tactic(auto, unfolding(crate::specs::Stopped::stop_evidence))]
pub fn stop_evidence(
    alloc: Global,
    scene: &Scene,
    order: &Order,
) -> Result<Option<StopEvidence>, AllocError>
    ensures { IfOk result (λ e. e ≡ stop_evidence scene.now order.now) }
{
    match &order.what {
        What::To(_) => Ok(None),
        What::Start { .. } => Ok(None),
        What::Stop { to, cause, .. } => {
            stop_by_view(alloc, scene, order.revision, order.instance, *to, *cause)
        }
        What::Refresh { .. } => Ok(None),
    }
}
