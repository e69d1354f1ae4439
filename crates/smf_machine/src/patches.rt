ghost use Rattle.std.specs.Option.{option_copied};
ghost use Rattle.std.specs.Prelude.{◌≡◌, [], false, slice_get, true, IfOk, IfSome, None, OnErr, Some};
ghost use Rattle.smf_machine.specs.Done.{IsDone, changes_in, delivered_place};
ghost use Rattle.smf_machine.specs.Install.{HasTaken, HasTakenFrom};
ghost use Rattle.smf_machine.specs.Parts.{history_of, world_of};
ghost use Rattle.smf_model.specs.Contents.{Holdings as AnyHoldings};
ghost use Rattle.smf_wire.specs.Lines.{IsSpelled};
ghost use Rattle.smf_world.specs.declared.event.Event.TheVariants as events;
ghost use Rattle.smf_world.specs.Worked.{sent_at};

use crate::parts::Parts;
use crate::received::{LineReader, Received, receive};
use smf_engine::Engine;
use smf_wire::{Message, ViewChanges};
use smf_world::Event;
use std::alloc::{AllocError, Global};

/// The changes that a message is.
fn changes_in(message: Option<&Message>) -> Option<&ViewChanges>
    ensures { option_copied result ≡ changes_in (option_copied message.entry) }
{
    match message {
        None => None,
        Some(Message::Changes(changes)) => Some(changes),
        Some(Message::Join { .. }) => None,
        Some(Message::Rows { .. }) => None,
        Some(Message::Propose(_)) => None,
        Some(Message::Ack { .. }) => None,
        Some(Message::Nack { .. }) => None,
        Some(Message::AskView) => None,
        Some(Message::View(_)) => None,
        Some(Message::AskChange(_)) => None,
        Some(Message::Order(_)) => None,
    }
}

/// The place of the message that an event delivers.
pub(crate) fn delivered_place(event: &Event) -> Option<u64>
    ensures { result ≡ delivered_place event.now }
{
    match event {
        Event::Deliver(place) => Some(*place),
        Event::Client(_) => None,
        Event::Ask => None,
        Event::Orders => None,
        Event::OwnTick(_) => None,
        Event::Tick { .. } => None,
        Event::Process { .. } => None,
        Event::Report { .. } => None,
        Event::Timeout { .. } => None,
        Event::Crash(_) => None,
        Event::Launch(_) => None,
        Event::Boot => None,
    }
}

/// The graph takes changes, if what was received is such.
fn take_received(
    alloc: Global,
    engine: &mut Engine,
    received: &Received,
) -> Result<bool, AllocError>
    ensures took { IfOk result (λ b. b ≡ true → HasTakenFrom (Some received.now.message) engine.old engine.new) }
    ensures left { IfOk result (λ b. b ≡ false → engine.new ≡ engine.old) }
    ensures none { IfOk result (λ b. b ≡ false → changes_in (Some received.now.message) ≡ None) }
    ensures err { OnErr result (engine.new ≡ engine.old) }
{
    match changes_in(Some(received.message())) {
        None => Ok(false),
        Some(changes) => {
            engine.take_changes(alloc, changes)?;
            Ok(true)
        }
    }
}

/// The graph takes changes, if a message is such: as its line reads.
fn take_one(alloc: Global, engine: &mut Engine, message: &Message) -> Result<bool, AllocError>
    requires { IsSpelled message.now }
    ensures took { IfOk result (λ b. b ≡ true → HasTakenFrom (Some message.now) engine.old engine.new) }
    ensures left { IfOk result (λ b. b ≡ false → engine.new ≡ engine.old) }
    ensures none { IfOk result (λ b. b ≡ false → changes_in (Some message.now) ≡ None) }
    ensures err { OnErr result (engine.new ≡ engine.old) }
{
    match changes_in(Some(message)) {
        None => Ok(false),
        Some(_) => {
            let received = receive(alloc, &LineReader {}, message)?;
            take_received(alloc, engine, &received)
        }
    }
}

/// The graph takes changes, if the message at a place is such.
fn take_from(
    alloc: Global,
    engine: &mut Engine,
    messages: &Vec<Message>,
    place: u64,
) -> Result<bool, AllocError>
    requires { IfSome (slice_get messages.now.items place) IsSpelled }
    ensures took { IfOk result (λ b. b ≡ true → HasTaken messages.now.items place engine.old engine.new) }
    ensures left { IfOk result (λ b. b ≡ false → engine.new ≡ engine.old) }
    ensures none { IfOk result (λ b. b ≡ false → changes_in (slice_get messages.now.items place) ≡ None) }
    ensures err { OnErr result (engine.new ≡ engine.old) }
{
    match messages.get(place as usize) {
        None => Ok(false),
        Some(message) => take_one(alloc, engine, message),
    }
}

/// The graph takes changes, if the message at a place is such. If memory runs out, all is as it was.
pub(crate) fn take_changes_at(
    alloc: Global,
    parts: &mut Parts,
    place: u64,
) -> Result<bool, AllocError>
    requires { IfSome (slice_get parts.old.messages.items place) IsSpelled }
    ensures took { (h : AnyHoldings)
        → IfOk result (λ b. b ≡ true → IsDone (world_of h parts.old) (events.Deliver place) (world_of h parts.new) []) }
    ensures left { (h : AnyHoldings) → IfOk result (λ b. b ≡ false → world_of h parts.new ≡ world_of h parts.old) }
    ensures none { (h : AnyHoldings)
        → IfOk result (λ b. b ≡ false → changes_in (sent_at (world_of h parts.old) place) ≡ None) }
    ensures err { (h : AnyHoldings) → OnErr result (world_of h parts.new ≡ world_of h parts.old) }
    ensures history { history_of parts.new ≡ history_of parts.old }
{
    take_from(alloc, &mut parts.engine, &parts.messages, place)
}
