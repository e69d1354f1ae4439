ghost use Rattle.std.specs.Prelude.{◌≡◌, ◌++◌, ◌<◌, map, option_to_list, vec_capacity, vec_len, true, Some, IfErr, IfOk, OnErr, OnOk};
ghost use Rattle.smf_contract.specs.Laws.{IsOrdered};
ghost use Rattle.smf_machine.specs.Children.{emptied_one, world_after_poll, news, news_if, news_of, news_of_kind};
ghost use Rattle.smf_machine.specs.declared.fault.MachineFault.TheVariants.{Memory};
ghost use Rattle.smf_machine.specs.Install.{IsSame};
ghost use Rattle.smf_machine.specs.Parts.{world_of};
ghost use Rattle.smf_model.specs.Contents.{Holdings as AnyHoldings};
ghost use Rattle.smf_world.specs.declared.event.Event.TheVariants as events;
ghost use Rattle.smf_world.specs.declared.item.Item.TheVariants.{Emptied as EmptiedItem};
ghost use Rattle.smf_world.specs.Happens.{happens};

use crate::event_work::process_call;
use crate::fault::MachineFault;
use crate::parts::Parts;
use crate::runner::Runner;
use smf_contract::{ContractEvent, ContractTable, EventKind, Failure};
use smf_fmri::Number;
use smf_world::{Item, ProcessEvent};
use std::alloc::AllocError;

/// A process to which something happened.
#[derive(Clone, Copy)]
pub struct News {
    pub process: Number,
    pub what: ProcessEvent,
}

fn about(what: ProcessEvent, process: Number) -> News
    ensures { result ≡ news what process }
{
    News { process, what }
}

/// The news of an event for a process. A fork names no parent, so the first member of the contract stands for it.
fn news_of_kind(table: &ContractTable, id: Number, kind: EventKind) -> Option<News>
    ensures { result ≡ news_of_kind table.now.table id kind }
{
    match kind {
        EventKind::Empty => None,
        EventKind::Fork(_) => match table.first_member(id) {
            Some(process) => Some(about(ProcessEvent::Fork, process)),
            None => None,
        },
        EventKind::Exit(process, exit) => Some(about(ProcessEvent::Exit(exit), process)),
        EventKind::Core(process) => Some(about(ProcessEvent::Fail(Failure::Core), process)),
        EventKind::Signal(process) => Some(about(ProcessEvent::Fail(Failure::Signal), process)),
        EventKind::Hwerr(process) => Some(about(ProcessEvent::Fail(Failure::Hwerr), process)),
    }
}

fn news_if(is_member: bool, news: News) -> Option<News>
    ensures { result ≡ news_if is_member news }
{
    if is_member { Some(news) } else { None }
}

/// The news of an event, if its process has not ended. If one thing brings several events, the first says it all. The
/// others name processes that have ended.
#[tactic(auto, unfolding(crate::specs::Children::news_of))]
fn news_of(table: &ContractTable, event: &ContractEvent) -> Option<News>
    ensures { result ≡ news_of table.now.table event.now }
{
    match news_of_kind(table, event.contract, event.kind) {
        None => None,
        Some(news) => news_if(table.home(news.process).is_some(), news),
    }
}

/// The contract that a process was in, if it has no members now.
fn contract_left_empty(table: &ContractTable, home: Option<Number>) -> Option<Number>
    ensures { option_to_list result ≡ emptied_one table.now.table.members home }
{
    let id = home?;
    if table.has_members(id) {
        return None;
    }
    Some(id)
}

/// Shows a contract that was emptied in the trail.
fn show(trail: &mut Vec<Item>, id: Option<Number>)
    requires { vec_len trail.old < vec_capacity trail.old }
    ensures { trail.new.items ≡ trail.old.items ++ map (λ c. EmptiedItem c) (option_to_list id) }
{
    if let Some(id) = id {
        trail.push(Item::Emptied(id.get())).unwrap();
    }
}

/// Something happens to a process, for which there is room.
fn pass(parts: &mut Parts, process: Number, what: ProcessEvent)
    requires table { parts.old.table.room ≡ true }
    requires trail { vec_len parts.old.trail < vec_capacity parts.old.trail }
    requires ordered { IsOrdered parts.old.table.table }
    ensures { (h : AnyHoldings) → world_of h parts.new ≡ happens (world_of h parts.old) (events.Process process what) }
{
    let home = parts.table.home(process);
    parts.table.call(process_call(process, what));
    let id = contract_left_empty(&parts.table, home);
    show(&mut parts.trail, id);
}

/// The event that children tell happens. There is room for it.
#[tactic(auto, unfolding(crate::specs::Parts::world_of))]
fn learn(parts: &mut Parts, event: &ContractEvent)
    requires table { parts.old.table.room ≡ true }
    requires trail { vec_len parts.old.trail < vec_capacity parts.old.trail }
    requires ordered { IsOrdered parts.old.table.table }
    ensures { (h : AnyHoldings) → world_of h parts.new ≡ world_after_poll (Some event.now) (world_of h parts.old) }
{
    if let Some(news) = news_of(&parts.table, event) {
        pass(parts, news.process, news.what);
    }
}

fn learn_if(parts: &mut Parts, event: &Option<ContractEvent>)
    requires table { parts.old.table.room ≡ true }
    requires trail { vec_len parts.old.trail < vec_capacity parts.old.trail }
    requires ordered { IsOrdered parts.old.table.table }
    ensures { (h : AnyHoldings) → world_of h parts.new ≡ world_after_poll event.now (world_of h parts.old) }
{
    if let Some(event) = event {
        learn(parts, event);
    }
}

/// Room for what one event of a process makes: a call on the contracts, and a contract that is emptied.
fn make_room_for_one(parts: &mut Parts) -> Result<(), AllocError>
    ensures same { IsSame parts.old parts.new }
    ensures table { OnOk result (parts.new.table.room ≡ true) }
    ensures trail { OnOk result (vec_len parts.new.trail < vec_capacity parts.new.trail) }
{
    parts.trail.reserve(1)?;
    parts.table.reserve()
}

/// The next event is asked for once there is room for it, and it happens.
pub(crate) fn hear<R: Runner>(
    parts: &mut Parts,
    runner: &mut R,
) -> Result<Option<ContractEvent>, MachineFault>
    requires { IsOrdered parts.old.table.table }
    ensures heard { (h : AnyHoldings)
        → IfOk result (λ event. world_of h parts.new ≡ world_after_poll event (world_of h parts.old)) }
    ensures answered { IfOk result (λ event. R.rules.polls event (R.seen runner.old) (R.seen runner.new)) }
    ensures err { (h : AnyHoldings) → OnErr result (world_of h parts.new ≡ world_of h parts.old) }
    ensures kept { OnErr result ((R.seen runner.new).ledger ≡ (R.seen runner.old).ledger) }
    ensures fault { IfErr result (λ e. e ≡ Memory) }
{
    make_room_for_one(parts)?;
    let event = runner.next_event()?;
    learn_if(parts, &event);
    Ok(event)
}
