//! The replies of a restarter to messages.

ghost use Rattle.std.specs.Option.{option_copied};
ghost use Rattle.std.specs.Prelude.{◌≡◌, map, IfOk};
ghost use Rattle.smf_restarter.specs.Replies.{reply_to_ack, acked_by, awaited_proposal, reply_to_message, heard_order, heard_rows, idle, is_answer, reply_to_nack, nacked_by, ordered_anew, ordered_first, ordered_idle, ordered_in, phase_after, refused_by, taken_row, taking_row, instance_of_order, run_after_note};

use crate::changes::{
    change_of_instance, change_to_forget, no_change, nothing, one, reply_with_rows,
};
use crate::known::{After, KnownInstance, KnownRun, Phase, Stage};
use crate::orders::{reply_to_order, with};
use crate::reply::Reply;
use crate::restarter::Restarter;
use crate::runs::known_run;
use smf_fmri::Items;
use smf_state::{Proposal, SharedRow, Step, Why};
use smf_wire::{Known, Message, Order};
use std::alloc::{AllocError, Global};

/// The instance of an order, as the order tells it.
fn instance_of_order(order: &Order) -> Result<Known, AllocError>
    ensures { IfOk result (λ x. x ≡ instance_of_order order.now) }
{
    let name = order.name.clone()?;
    let row = order.row.clone()?;
    Ok(Known {
        instance: order.instance,
        name,
        row,
    })
}

fn idle(known: Known) -> KnownInstance
    ensures { result ≡ idle known }
{
    KnownInstance {
        instance: known.instance,
        name: known.name,
        row: known.row,
        phase: Phase::Idle,
    }
}

/// An order for an instance whose row it tells anew.
fn ordered_anew(
    alloc: Global,
    restarter: &Restarter,
    known: &KnownInstance,
    order: &Order,
) -> Result<Reply, AllocError>
    ensures { IfOk result (λ r. r ≡ ordered_anew restarter.now.known known.now order.now) }
{
    let taken = one(alloc, instance_of_order(order)?)?;
    let known = with(known, &order.row, Phase::Idle)?;
    reply_to_order(alloc, restarter, &known, order, taken)
}

/// An order for an instance with which nothing is being done.
fn ordered_idle(
    alloc: Global,
    restarter: &Restarter,
    known: &KnownInstance,
    order: &Order,
) -> Result<Reply, AllocError>
    ensures { IfOk result (λ r. r ≡ ordered_idle restarter.now.known known.now order.now) }
{
    if order.row.number == known.row.number {
        reply_to_order(alloc, restarter, known, order, Items::new(alloc))
    } else if known.row.number < order.row.number {
        ordered_anew(alloc, restarter, known, order)
    } else {
        Ok(nothing(alloc))
    }
}

fn ordered_in(
    alloc: Global,
    restarter: &Restarter,
    known: &KnownInstance,
    order: &Order,
    phase: &Phase,
) -> Result<Reply, AllocError>
    ensures { IfOk result (λ r. r ≡ ordered_in restarter.now.known known.now order.now phase.now) }
{
    match phase {
        Phase::Idle => ordered_idle(alloc, restarter, known, order),
        _ => Ok(nothing(alloc)),
    }
}

/// An order for an instance that is not known: its row is taken first.
fn ordered_first(alloc: Global, restarter: &Restarter, order: &Order) -> Result<Reply, AllocError>
    ensures { IfOk result (λ r. r ≡ ordered_first restarter.now.known order.now) }
{
    let taken = one(alloc, instance_of_order(order)?)?;
    let known = idle(instance_of_order(order)?);
    reply_to_order(alloc, restarter, &known, order, taken)
}

fn heard_order(alloc: Global, restarter: &Restarter, order: &Order) -> Result<Reply, AllocError>
    ensures { IfOk result (λ r. r ≡ heard_order restarter.now.known order.now restarter.now.known.stage) }
{
    if restarter.stage != Stage::Up {
        return Ok(nothing(alloc));
    }
    match restarter.known_instance(order.instance) {
        None => ordered_first(alloc, restarter, order),
        Some(known) => ordered_in(alloc, restarter, known, order, &known.phase),
    }
}

/// The rows that were told, of instances with which nothing is done yet.
fn all_idle(alloc: Global, rows: &[Known]) -> Result<Items<KnownInstance>, AllocError>
    ensures { IfOk result (λ is. is ≡ map idle rows.now) }
{
    let mut all = Vec::new(alloc);
    for row in rows {
        all.push(idle(row.clone()?))?;
    }
    Ok(Items::from_vec(all))
}

#[tactic(auto, using(smf_state::proofs::Copies::same_items))]
fn copy_of(rows: &Items<Known>) -> Result<Items<Known>, AllocError>
    ensures { IfOk result (λ copy. copy ≡ rows.now) }
{
    rows.clone()
}

fn heard_rows(
    alloc: Global,
    restarter: &Restarter,
    launch: u64,
    rows: &Items<Known>,
) -> Result<Reply, AllocError>
    ensures { IfOk result (λ r. r ≡ heard_rows restarter.now.known launch rows.now restarter.now.known.stage) }
{
    if restarter.stage != Stage::Joining || launch != restarter.launch {
        return Ok(nothing(alloc));
    }
    let mut change = no_change(alloc);
    change.stage = Some(Stage::Listing);
    change.put = all_idle(alloc, rows.as_slice())?;
    Ok(reply_with_rows(alloc, copy_of(rows)?, change))
}

fn phase_after(after: &After) -> Result<Phase, AllocError>
    ensures { IfOk result (λ p. p ≡ phase_after after.now) }
{
    match after {
        After::Idle => Ok(Phase::Idle),
        After::Owes(owed) => Ok(Phase::Owes(owed.clone()?)),
        After::Ending(ending) => Ok(Phase::Ending(*ending)),
    }
}

/// The row of an instance, as it is taken.
fn taken_row(known: &KnownInstance, row: &SharedRow) -> Result<Known, AllocError>
    ensures { IfOk result (λ x. x ≡ taken_row known.now row.now) }
{
    let name = known.name.clone()?;
    let row = row.clone()?;
    Ok(Known {
        instance: known.instance,
        name,
        row,
    })
}

/// The row is taken, and the instance goes on to a phase. A run may become known otherwise by it.
fn taking_row(
    alloc: Global,
    known: &KnownInstance,
    row: &SharedRow,
    phase: Phase,
    run: Option<KnownRun>,
) -> Result<Reply, AllocError>
    ensures { IfOk result (λ r. r ≡ taking_row known.now row.now phase run) }
{
    let mut change = change_of_instance(alloc, with(known, row, phase)?)?;
    change.run = run;
    let taken = one(alloc, taken_row(known, row)?)?;
    Ok(reply_with_rows(alloc, taken, change))
}

/// True if an answer is to a proposal: it has the same launch and serial.
fn is_answer(launch: u64, serial: u64, proposal: &Proposal) -> bool
    ensures { result ≡ is_answer launch serial proposal.now }
{
    proposal.launch == launch && proposal.serial == serial
}

/// If the granted step is a note, the live run without the mark of its failure.
fn run_after_note(restarter: &Restarter, known: &KnownInstance, step: &Step) -> Option<KnownRun>
    ensures { result ≡ run_after_note restarter.now.known known.now step.now }
{
    let Step::Note { .. } = step else {
        return None;
    };
    let run = known_run(restarter, known.instance, known.row.live)?;
    Some(KnownRun {
        failed: false,
        ..*run
    })
}

fn acked_in(
    alloc: Global,
    restarter: &Restarter,
    known: &KnownInstance,
    launch: u64,
    serial: u64,
    row: &SharedRow,
    phase: &Phase,
) -> Result<Reply, AllocError>
    ensures { IfOk result
        (λ r. r ≡ acked_by restarter.now.known row.now known.now (awaited_proposal launch serial phase.now)) }
{
    let Phase::Waiting { proposal, after } = phase else {
        return Ok(nothing(alloc));
    };
    if !is_answer(launch, serial, proposal) {
        return Ok(nothing(alloc));
    }
    let run = run_after_note(restarter, known, &proposal.step);
    taking_row(alloc, known, row, phase_after(after)?, run)
}

/// A proposal was granted.
fn reply_to_ack(
    alloc: Global,
    restarter: &Restarter,
    launch: u64,
    serial: u64,
    row: &SharedRow,
    known: Option<&KnownInstance>,
) -> Result<Reply, AllocError>
    ensures { IfOk result
        (λ r. r ≡ reply_to_ack restarter.now.known launch serial row.now (option_copied known.entry)) }
{
    match known {
        None => Ok(nothing(alloc)),
        Some(known) => acked_in(alloc, restarter, known, launch, serial, row, &known.phase),
    }
}

/// An instance that is gone, or that another restarter owns, is forgotten.
fn refused_by(
    alloc: Global,
    known: &KnownInstance,
    why: Why,
    row: &Option<SharedRow>,
) -> Result<Reply, AllocError>
    ensures { IfOk result (λ r. r ≡ refused_by known.now why row.now) }
{
    match row {
        Some(row) if why != Why::Owner => taking_row(alloc, known, row, Phase::Idle, None),
        _ => {
            let mut reply = nothing(alloc);
            reply.change = change_to_forget(alloc, known.instance);
            Ok(reply)
        }
    }
}

fn nacked_in(
    alloc: Global,
    known: &KnownInstance,
    launch: u64,
    serial: u64,
    why: Why,
    row: &Option<SharedRow>,
    phase: &Phase,
) -> Result<Reply, AllocError>
    ensures { IfOk result (λ r. r ≡ nacked_by why row.now known.now (awaited_proposal launch serial phase.now)) }
{
    let Phase::Waiting { proposal, .. } = phase else {
        return Ok(nothing(alloc));
    };
    if !is_answer(launch, serial, proposal) {
        return Ok(nothing(alloc));
    }
    refused_by(alloc, known, why, row)
}

/// A proposal was refused.
fn reply_to_nack(
    alloc: Global,
    launch: u64,
    serial: u64,
    why: Why,
    row: &Option<SharedRow>,
    known: Option<&KnownInstance>,
) -> Result<Reply, AllocError>
    ensures { IfOk result (λ r. r ≡ reply_to_nack launch serial why row.now (option_copied known.entry)) }
{
    match known {
        None => Ok(nothing(alloc)),
        Some(known) => nacked_in(alloc, known, launch, serial, why, row, &known.phase),
    }
}

/// The reply of a restarter to a message that names it.
#[tactic(auto, unfolding(crate::specs::Replies::reply_to_message))]
pub(crate) fn reply_to_message(
    alloc: Global,
    restarter: &Restarter,
    message: &Message,
) -> Result<Reply, AllocError>
    ensures { IfOk result (λ r. r ≡ reply_to_message restarter.now.known message.now) }
{
    match message {
        Message::Rows { launch, rows, .. } => heard_rows(alloc, restarter, *launch, rows),
        Message::Order(order) => heard_order(alloc, restarter, order),
        Message::Ack {
            launch,
            serial,
            instance,
            row,
            ..
        } => {
            let known = restarter.known_instance(*instance);
            reply_to_ack(alloc, restarter, *launch, *serial, row, known)
        }
        Message::Nack {
            launch,
            serial,
            instance,
            why,
            row,
            ..
        } => {
            let known = restarter.known_instance(*instance);
            reply_to_nack(alloc, *launch, *serial, *why, row, known)
        }
        _ => Ok(nothing(alloc)),
    }
}
