//! The turns of a restarter, for itself and for an instance.

ghost use Rattle.std.specs.Option.{option_copied};
ghost use Rattle.std.specs.Prelude.{◌≡◌, IfOk, OnErr, true};
ghost use Rattle.smf_contract.specs.Stated.{AreEvents};
ghost use Rattle.smf_method.specs.Commands.{builtin};
ghost use Rattle.smf_restarter.specs.Changes.{nothing};
ghost use Rattle.smf_restarter.specs.Room.{needs_memory};
ghost use Rattle.smf_restarter.specs.Ticks.{begun_by, begun_of, built_in, drain_call, end_step, reply_with_end, fatal_bits, fatal_if, fatal_of, first_call, is_ended, is_failed, is_refresh_end, keeps, keeps_run, kill_of, leads_to, note, note_bits, note_due, own_tick, reply_with_spawn, terms_of, reply_to_tick, ticked_in};

use crate::changes::{
    change_of_course, no_change, nothing, reply_with_call, reply_with_message, reply_with_method,
};
use crate::ends::end_on_success;
use crate::known::{After, Drain, Ending, KnownInstance, KnownRun, Owed, Phase, Stage};
use crate::orders::reply_with_proposal;
use crate::reply::{Begun, Call, Course, Reply};
use crate::restarter::Restarter;
use crate::runs::{ignores_core, ignores_signal, is_empty, known_run, orphan};
use bitflags::Flags;
use smf_contract::{Cookie, EventSet, Method, Terms};
use smf_fmri::Items;
use smf_method::Builtin;
use smf_state::{Asks, Duration, Ignore, Row, State, Step};
use smf_wire::Message;
use std::alloc::{AllocError, Global};

/// A tick of the restarter itself: it asks for its rows, and then for the contracts.
#[tactic(auto, unfolding(crate::specs::Ticks::own_tick))]
pub(crate) fn own_tick(alloc: Global, restarter: &Restarter) -> Result<Reply, AllocError>
    ensures exact { IfOk result (λ r. r ≡ own_tick restarter.now.known restarter.now.known.stage) }
    ensures memory { OnErr result (needs_memory (own_tick restarter.now.known restarter.now.known.stage) ≡ true) }
{
    match restarter.stage {
        Stage::Joining => {
            let name = restarter.name.clone()?;
            let launch = restarter.launch;
            reply_with_message(alloc, Message::Join { name, launch })
        }
        Stage::Listing => Ok(reply_with_call(alloc, Call::List)),
        Stage::Up => Ok(nothing(alloc)),
    }
}

/// The kinds of failure that are not left out of account.
fn fatal_set(ignore: Ignore) -> EventSet
    ensures exact { result.0 ≡ fatal_bits ignore }
    ensures events { AreEvents result }
{
    if ignores_core(ignore) {
        if ignores_signal(ignore) {
            EventSet::HWERR
        } else {
            EventSet::SIGNAL.union(EventSet::HWERR)
        }
    } else if ignores_signal(ignore) {
        EventSet::CORE.union(EventSet::HWERR)
    } else {
        EventSet::FAILURES
    }
}

fn fatal_if(duration: Duration, ignore: Ignore) -> EventSet
    ensures exact { result.0 ≡ fatal_if duration ignore }
    ensures events { AreEvents result }
{
    match duration {
        Duration::Contract => fatal_set(ignore),
        Duration::Transient => EventSet::NONE,
        Duration::Child => EventSet::NONE,
    }
}

/// The kinds of failure of one member that end them all: of the start of a contract service, and of no other method.
fn fatal_of(method: Method, row: &Row) -> EventSet
    ensures exact { result.0 ≡ fatal_of method row.now }
    ensures events { AreEvents result }
{
    match method {
        Method::Start => fatal_if(row.duration, row.ignore),
        Method::Stop => EventSet::NONE,
        Method::Refresh => EventSet::NONE,
    }
}

/// The terms of a method's contract. If its holder is gone, it waits to be adopted.
fn terms_of(method: Method, row: &Row) -> Terms
    ensures { result ≡ terms_of method row.now }
{
    Terms {
        informative: EventSet::NONE,
        critical: EventSet::EMPTY.union(EventSet::FAILURES),
        fatal: fatal_of(method, row),
        inherit: true,
        noorphan: false,
    }
}

fn begun_of(known: &KnownInstance, owed: &Owed) -> Result<Begun, AllocError>
    ensures { IfOk result (λ b. b ≡ begun_of known.now owed.now) }
{
    let command = owed.call.command.clone()?;
    Ok(Begun {
        instance: known.instance,
        run: owed.run,
        method: owed.method,
        revision: owed.revision,
        command,
    })
}

/// Begins a method in a contract. A run whose cookie has no form begins nothing.
fn reply_with_spawn(alloc: Global, known: &KnownInstance, owed: &Owed) -> Result<Reply, AllocError>
    ensures exact { IfOk result (λ r. r ≡ reply_with_spawn known.now owed.now) }
    ensures memory { OnErr result (needs_memory (reply_with_spawn known.now owed.now) ≡ true) }
{
    let cookie = Cookie {
        instance: known.instance,
        run: owed.run,
        method: owed.method,
    };
    let Ok(cookie) = cookie.pack() else {
        return Ok(nothing(alloc));
    };
    let terms = terms_of(owed.method, &known.row);
    let begun = begun_of(known, owed)?;
    let call = Call::Spawn { cookie, terms };
    reply_with_method(alloc, begun, call, no_change(alloc))
}

/// The kill of a run's contract, if the run is known and not known empty.
fn kill_of(run: Option<&KnownRun>) -> Call
    ensures { result ≡ kill_of (option_copied run.entry) }
{
    match run {
        None => Call::Nothing,
        Some(run) => {
            if run.empty {
                Call::Nothing
            } else {
                Call::Kill(run.contract)
            }
        }
    }
}

/// Begins a method that is built in, which succeeds at once.
fn built_in(
    alloc: Global,
    known: &KnownInstance,
    owed: &Owed,
    call: Call,
) -> Result<Reply, AllocError>
    ensures exact { IfOk result (λ r. r ≡ built_in known.now owed.now call) }
    ensures memory { OnErr result (needs_memory (built_in known.now owed.now call) ≡ true) }
{
    let begun = begun_of(known, owed)?;
    let course = Course::Ending(end_on_success(&known.row, owed.method));
    reply_with_method(
        alloc,
        begun,
        call,
        change_of_course(alloc, known.instance, course),
    )
}

/// Begins a method that is owed.
fn begun_by(
    alloc: Global,
    restarter: &Restarter,
    known: &KnownInstance,
    owed: &Owed,
) -> Result<Reply, AllocError>
    ensures exact { IfOk result (λ r.
        r ≡ begun_by restarter.now.known known.now owed.now (builtin owed.now.call.command)) }
    ensures memory { OnErr result
        (needs_memory (begun_by restarter.now.known known.now owed.now (builtin owed.now.call.command)) ≡ true) }
{
    match owed.call.command.builtin() {
        None => reply_with_spawn(alloc, known, owed),
        Some(Builtin::True) => built_in(alloc, known, owed, Call::Nothing),
        Some(Builtin::Kill) => {
            let live = known_run(restarter, known.instance, known.row.live);
            built_in(alloc, known, owed, kill_of(live))
        }
    }
}

fn first_call(first: Call, second: Call) -> Call
    ensures { result ≡ first_call first second }
{
    match first {
        Call::Nothing => second,
        _ => first,
    }
}

/// The call on the runs that have to be drained, on the live one first.
fn drain_call(restarter: &Restarter, known: &KnownInstance, drain: Drain) -> Call
    ensures { result ≡ drain_call restarter.now.known known.now drain }
{
    let live = kill_of(known_run(restarter, known.instance, known.row.live));
    let side = kill_of(known_run(restarter, known.instance, known.row.side));
    match drain {
        Drain::Nothing => Call::Nothing,
        Drain::Live => live,
        Drain::Side => side,
        Drain::Both => first_call(live, side),
    }
}

/// True if a start that ends online keeps its run. The contract has to be known and, for a transient service, not
/// empty.
fn keeps_run(duration: Duration, live: Option<&KnownRun>) -> bool
    ensures { result ≡ keeps_run duration (option_copied live.entry) }
{
    match live {
        None => false,
        Some(run) => match duration {
            Duration::Transient => !run.empty,
            Duration::Contract => true,
            Duration::Child => true,
        },
    }
}

fn leads_to(next: Option<State>, to: State) -> bool
    ensures { result ≡ leads_to next to }
{
    match next {
        None => false,
        Some(next) => next == to,
    }
}

/// True if a refresh is under way, and this is its end.
fn is_refresh_end(row: &Row, to: State) -> bool
    ensures { result ≡ is_refresh_end row.now to }
{
    row.state.runs() && to == row.state && leads_to(row.next, row.state)
}

/// True if an end keeps the live run.
fn keeps(row: &Row, to: State, live: Option<&KnownRun>) -> bool
    ensures { result ≡ keeps row.now to (option_copied live.entry) }
{
    if row.state == State::Offline {
        to == State::Online && keeps_run(row.duration, live)
    } else {
        is_refresh_end(row, to)
    }
}

fn end_step(row: &Row, ending: &Ending, live: Option<&KnownRun>) -> Step
    ensures { result ≡ end_step row.now ending.now (option_copied live.entry) }
{
    Step::End {
        to: ending.to,
        keep: keeps(row, ending.to, live),
        failed: ending.failed,
        cause: ending.cause,
    }
}

/// Proposes an end, once nothing is left to be drained.
fn reply_with_end(
    alloc: Global,
    restarter: &Restarter,
    known: &KnownInstance,
    end: &Ending,
) -> Result<Reply, AllocError>
    ensures exact { IfOk result (λ r. r ≡ reply_with_end restarter.now.known known.now end.now) }
    ensures memory { OnErr result (needs_memory (reply_with_end restarter.now.known known.now end.now) ≡ true) }
{
    match drain_call(restarter, known, end.drain) {
        Call::Nothing => {
            let live = known_run(restarter, known.instance, known.row.live);
            let step = end_step(&known.row, end, live);
            reply_with_proposal(
                alloc,
                restarter,
                known,
                step,
                After::Idle,
                Items::new(alloc),
            )
        }
        call => Ok(reply_with_call(alloc, call)),
    }
}

fn is_failed(run: Option<&KnownRun>) -> bool
    ensures { result ≡ is_failed (option_copied run.entry) }
{
    match run {
        None => false,
        Some(run) => run.failed,
    }
}

fn is_ended(run: Option<&KnownRun>) -> bool
    ensures { result ≡ is_ended (option_copied run.entry) }
{
    match run {
        None => false,
        Some(run) => run.ended,
    }
}

/// The bits that note the end of a live run, or of its first process, by the duration of the service.
fn note_bits(duration: Duration, live: Option<&KnownRun>) -> Option<u8>
    ensures { result ≡ note_bits duration (option_copied live.entry) }
{
    match duration {
        Duration::Contract => {
            if is_empty(live) || is_failed(live) {
                Some(Asks::FAILED.number())
            } else {
                None
            }
        }
        Duration::Child => {
            if is_empty(live) || is_ended(live) {
                Some(Asks::EXITED.number())
            } else {
                None
            }
        }
        Duration::Transient => { if is_empty(live) { Some(0) } else { None } }
    }
}

/// A note can be due only if the instance runs with a live run, and nothing is under way.
pub(crate) fn note_due(row: &Row, live: Option<&KnownRun>) -> Option<u8>
    ensures { result ≡ note_due row.now (option_copied live.entry) }
{
    if row.next.is_none() && row.state.runs() && row.live.is_some() {
        note_bits(row.duration, live)
    } else {
        None
    }
}

/// Proposes the note that is due.
fn note(
    alloc: Global,
    restarter: &Restarter,
    known: &KnownInstance,
    live: Option<&KnownRun>,
) -> Result<Reply, AllocError>
    ensures exact { IfOk result (λ r. r ≡ note restarter.now.known known.now (option_copied live.entry)) }
    ensures memory { OnErr result
        (needs_memory (note restarter.now.known known.now (option_copied live.entry)) ≡ true) }
{
    let Some(bits) = note_due(&known.row, live) else {
        return Ok(nothing(alloc));
    };
    let step = Step::Note {
        bits: Asks::from_number(bits),
        keep: !is_empty(live),
    };
    reply_with_proposal(
        alloc,
        restarter,
        known,
        step,
        After::Idle,
        Items::new(alloc),
    )
}

/// Before all else an orphan is adopted, unless a method runs or an answer is awaited.
fn ticked_in(
    alloc: Global,
    restarter: &Restarter,
    known: &KnownInstance,
    phase: &Phase,
) -> Result<Reply, AllocError>
    ensures exact { IfOk result (λ r. r ≡ ticked_in restarter.now.known known.now phase.now) }
    ensures memory { OnErr result (needs_memory (ticked_in restarter.now.known known.now phase.now) ≡ true) }
{
    match phase {
        Phase::Waiting { proposal, .. } => reply_with_message(
            alloc,
            Message::Propose(proposal.clone()?),
        ),
        Phase::Running(_) => Ok(nothing(alloc)),
        Phase::Owes(owed) => match orphan(restarter, known.instance) {
            Some(run) => Ok(reply_with_call(alloc, Call::Adopt(run.contract))),
            None => begun_by(alloc, restarter, known, owed),
        },
        Phase::Ending(end) => match orphan(restarter, known.instance) {
            Some(run) => Ok(reply_with_call(alloc, Call::Adopt(run.contract))),
            None => reply_with_end(alloc, restarter, known, end),
        },
        Phase::Idle => match orphan(restarter, known.instance) {
            Some(run) => Ok(reply_with_call(alloc, Call::Adopt(run.contract))),
            None => {
                let live = known_run(restarter, known.instance, known.row.live);
                note(alloc, restarter, known, live)
            }
        },
    }
}

/// A tick of one instance.
#[tactic(auto, unfolding(crate::specs::Ticks::reply_to_tick))]
pub(crate) fn reply_to_tick(
    alloc: Global,
    restarter: &Restarter,
    instance: u64,
) -> Result<Reply, AllocError>
    ensures exact { IfOk result (λ r. r ≡ reply_to_tick restarter.now.known instance) }
    ensures memory { OnErr result (needs_memory (reply_to_tick restarter.now.known instance) ≡ true) }
{
    if restarter.stage != Stage::Up {
        return Ok(nothing(alloc));
    }
    match restarter.known_instance(instance) {
        None => Ok(nothing(alloc)),
        Some(known) => ticked_in(alloc, restarter, known, &known.phase),
    }
}
