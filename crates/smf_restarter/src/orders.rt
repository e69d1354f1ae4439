//! The proposals of a restarter.

ghost use Rattle.std.specs.Prelude.{◌≡◌, IfOk, OnErr, true};
ghost use Rattle.smf_restarter.specs.Orders.{reply_to_order, owed_by, reply_with_proposal, reply_to_refresh, start_step, reply_to_start, reply_to_stop, waiting_instance};
ghost use Rattle.smf_restarter.specs.Room.{needs_memory};

use crate::changes::{change_of_instance, nothing, reply_with_message};
use crate::ends::{end_of_stop, ended_refresh};
use crate::known::{After, KnownInstance, Owed, Phase};
use crate::reply::Reply;
use crate::restarter::Restarter;
use smf_contract::Method;
use smf_fmri::Items;
use smf_fmri::limits::MAX_RUN;
use smf_method::MethodCall;
use smf_state::{Cause, Duration, Ignore, Proposal, SharedRow, State, Step};
use smf_wire::{Known, Message, Order, What};
use std::alloc::{AllocError, Global};

/// The same instance with another row and in another phase.
pub(crate) fn with(
    known: &KnownInstance,
    row: &SharedRow,
    phase: Phase,
) -> Result<KnownInstance, AllocError>
    ensures { IfOk result (λ i. i ≡ record known.now { row = row.now; phase = phase }) }
{
    let name = known.name.clone()?;
    let row = row.clone()?;
    Ok(KnownInstance {
        instance: known.instance,
        name,
        row,
        phase,
    })
}

/// The same instance, waiting for the answer to a proposal.
fn waiting_instance(
    known: &KnownInstance,
    proposal: Proposal,
    after: After,
) -> Result<KnownInstance, AllocError>
    ensures { IfOk result (λ i. i ≡ waiting_instance known.now proposal after) }
{
    with(known, &known.row, Phase::Waiting { proposal, after })
}

/// Proposes a step under the next serial and the next number. If either has run out, it does nothing.
pub(crate) fn reply_with_proposal(
    alloc: Global,
    restarter: &Restarter,
    known: &KnownInstance,
    step: Step,
    after: After,
    taken: Items<Known>,
) -> Result<Reply, AllocError>
    ensures exact { IfOk result (λ r. r ≡ reply_with_proposal restarter.now.known known.now step after taken) }
    ensures memory { OnErr result
        (needs_memory (reply_with_proposal restarter.now.known known.now step after taken) ≡ true) }
{
    let Some(serial) = restarter.serial.next() else {
        return Ok(nothing(alloc));
    };
    let Some(number) = known.row.number.checked_add(1) else {
        return Ok(nothing(alloc));
    };
    let proposal = Proposal {
        proposer: restarter.name.clone()?,
        launch: restarter.launch,
        serial: serial.get(),
        instance: known.instance,
        number,
        step,
    };
    let mut reply = reply_with_message(alloc, Message::Propose(proposal.clone()?))?;
    reply.change = change_of_instance(alloc, waiting_instance(known, proposal, after)?)?;
    reply.change.serial = Some(serial);
    reply.taken = taken;
    Ok(reply)
}

/// The step by which the start of an order begins, as a run.
fn start_step(order: &Order, run: u64, duration: Duration, ignore: Ignore) -> Step
    ensures { result ≡ start_step order.now run duration ignore }
{
    Step::Start {
        run,
        snapshot: order.row.running.unwrap_or(0),
        duration,
        ignore,
        base: order.revision,
    }
}

/// After the repository grants a step with a run, the restarter owes the method of that run.
fn owed_by(order: &Order, method: Method, run: u64, call: &MethodCall) -> Result<After, AllocError>
    ensures { IfOk result (λ t. t ≡ owed_by order.now method run call.now) }
{
    Ok(After::Owes(Owed {
        method,
        run,
        revision: order.revision,
        call: call.clone()?,
    }))
}

/// Proposes the start of an order. If no run is left, it proposes maintenance.
fn reply_to_start(
    alloc: Global,
    restarter: &Restarter,
    known: &KnownInstance,
    order: &Order,
    taken: Items<Known>,
    call: &MethodCall,
    duration: Duration,
    ignore: Ignore,
) -> Result<Reply, AllocError>
    ensures { IfOk result
        (λ r. r ≡ reply_to_start restarter.now.known known.now order.now taken call.now duration ignore) }
{
    if known.row.last < MAX_RUN {
        let run = known.row.last + 1;
        let step = start_step(order, run, duration, ignore);
        let after = owed_by(order, Method::Start, run, call)?;
        reply_with_proposal(alloc, restarter, known, step, after, taken)
    } else {
        let step = Step::Move(State::Maintenance);
        reply_with_proposal(alloc, restarter, known, step, After::Idle, taken)
    }
}

/// Proposes the stop of an order. The method runs if the order has one and a run is left for it.
fn reply_to_stop(
    alloc: Global,
    restarter: &Restarter,
    known: &KnownInstance,
    order: &Order,
    taken: Items<Known>,
    to: State,
    cause: Cause,
    call: &Option<MethodCall>,
) -> Result<Reply, AllocError>
    ensures { IfOk result (λ r. r ≡ reply_to_stop restarter.now.known known.now order.now taken to cause call.now) }
{
    match call {
        Some(call) if known.row.last < MAX_RUN => {
            let run = known.row.last + 1;
            let after = owed_by(order, Method::Stop, run, call)?;
            let run = Some(run);
            let step = Step::Stop { to, cause, run };
            reply_with_proposal(alloc, restarter, known, step, after, taken)
        }
        _ => {
            let run = None;
            let step = Step::Stop { to, cause, run };
            let after = After::Ending(end_of_stop(to, cause));
            reply_with_proposal(alloc, restarter, known, step, after, taken)
        }
    }
}

/// Proposes the refresh of an order. The method runs if the order has one and a run is left for it.
fn reply_to_refresh(
    alloc: Global,
    restarter: &Restarter,
    known: &KnownInstance,
    order: &Order,
    taken: Items<Known>,
    call: &Option<MethodCall>,
) -> Result<Reply, AllocError>
    ensures { IfOk result (λ r. r ≡ reply_to_refresh restarter.now.known known.now order.now taken call.now) }
{
    match call {
        Some(call) if known.row.last < MAX_RUN => {
            let run = known.row.last + 1;
            let after = owed_by(order, Method::Refresh, run, call)?;
            let step = Step::Refresh { run: Some(run) };
            reply_with_proposal(alloc, restarter, known, step, after, taken)
        }
        _ => {
            let step = Step::Refresh { run: None };
            let after = After::Ending(ended_refresh(&known.row));
            reply_with_proposal(alloc, restarter, known, step, after, taken)
        }
    }
}

/// Proposes what an order tells, for an instance with which nothing is being done.
pub(crate) fn reply_to_order(
    alloc: Global,
    restarter: &Restarter,
    known: &KnownInstance,
    order: &Order,
    taken: Items<Known>,
) -> Result<Reply, AllocError>
    ensures { IfOk result (λ r. r ≡ reply_to_order restarter.now.known known.now order.now taken) }
{
    match &order.what {
        What::To(state) => {
            let step = Step::Move(*state);
            reply_with_proposal(alloc, restarter, known, step, After::Idle, taken)
        }
        What::Start {
            method,
            duration,
            ignore,
        } => reply_to_start(
            alloc, restarter, known, order, taken, method, *duration, *ignore,
        ),
        What::Stop { to, cause, method } => {
            reply_to_stop(alloc, restarter, known, order, taken, *to, *cause, method)
        }
        What::Refresh { method } => {
            reply_to_refresh(alloc, restarter, known, order, taken, method)
        }
    }
}
