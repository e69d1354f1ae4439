//! The changes of a restarter's knowledge, and the replies, each by what it does.

ghost use Rattle.std.specs.Prelude.{◌≡◌, ◌∷◌, [], IfOk, OnErr, true};
ghost use Rattle.smf_restarter.specs.Changes.{reply_with_method, reply_with_call, change_to_forget, nothing, change_of_run, change_of_instance, reply_with_message, reply_with_rows, change_of_course, no_change};
ghost use Rattle.smf_restarter.specs.Room.{needs_memory};

use crate::known::{KnownInstance, KnownRun};
use crate::reply::{Begun, Call, Course, CourseChange, KnowledgeChange, Reply};
use smf_fmri::Items;
use smf_wire::{Known, Message};
use std::alloc::{AllocError, Global};

/// A list of one item.
pub(crate) fn one<T: Drop>(alloc: Global, item: T) -> Result<Items<T>, AllocError>
    ensures { IfOk result (λ all. all ≡ item ∷ []) }
{
    let mut all = Vec::new(alloc);
    all.push(item)?;
    Ok(Items::from_vec(all))
}

pub(crate) fn no_change(alloc: Global) -> KnowledgeChange
    ensures { result ≡ no_change }
{
    KnowledgeChange {
        stage: None,
        serial: None,
        put: Items::new(alloc),
        turn: None,
        forget: None,
        listed: Items::new(alloc),
        run: None,
    }
}

/// An instance is known so from now on.
pub(crate) fn change_of_instance(
    alloc: Global,
    known: KnownInstance,
) -> Result<KnowledgeChange, AllocError>
    ensures { IfOk result (λ c. c ≡ change_of_instance known) }
{
    let mut change = no_change(alloc);
    change.put = one(alloc, known)?;
    Ok(change)
}

/// An instance takes another course.
pub(crate) fn change_of_course(alloc: Global, instance: u64, course: Course) -> KnowledgeChange
    ensures { result ≡ change_of_course instance course }
{
    let mut change = no_change(alloc);
    change.turn = Some(CourseChange { instance, course });
    change
}

pub(crate) fn change_to_forget(alloc: Global, instance: u64) -> KnowledgeChange
    ensures { result ≡ change_to_forget instance }
{
    let mut change = no_change(alloc);
    change.forget = Some(instance);
    change
}

/// A run is known so from now on.
pub(crate) fn change_of_run(alloc: Global, run: KnownRun) -> KnowledgeChange
    ensures { result ≡ change_of_run run }
{
    let mut change = no_change(alloc);
    change.run = Some(run);
    change
}

/// Nothing is done.
pub(crate) fn nothing(alloc: Global) -> Reply
    ensures { result ≡ nothing }
{
    Reply {
        change: no_change(alloc),
        messages: Items::new(alloc),
        taken: Items::new(alloc),
        begun: Items::new(alloc),
        call: Call::Nothing,
    }
}

/// A message is sent, and nothing changes.
pub(crate) fn reply_with_message(alloc: Global, message: Message) -> Result<Reply, AllocError>
    ensures exact { IfOk result (λ r. r ≡ reply_with_message message) }
    ensures memory { OnErr result (needs_memory (reply_with_message message) ≡ true) }
{
    let mut reply = nothing(alloc);
    reply.messages = one(alloc, message)?;
    Ok(reply)
}

/// Something is asked of the contracts, and nothing changes.
pub(crate) fn reply_with_call(alloc: Global, call: Call) -> Reply
    ensures { result ≡ reply_with_call call }
{
    let mut reply = nothing(alloc);
    reply.call = call;
    reply
}

/// A method is begun.
pub(crate) fn reply_with_method(
    alloc: Global,
    begun: Begun,
    call: Call,
    change: KnowledgeChange,
) -> Result<Reply, AllocError>
    ensures exact { IfOk result (λ r. r ≡ reply_with_method begun call change) }
    ensures memory { OnErr result (needs_memory (reply_with_method begun call change) ≡ true) }
{
    let mut reply = reply_with_call(alloc, call);
    reply.begun = one(alloc, begun)?;
    reply.change = change;
    Ok(reply)
}

/// Rows are taken.
pub(crate) fn reply_with_rows(alloc: Global, rows: Items<Known>, change: KnowledgeChange) -> Reply
    ensures { result ≡ reply_with_rows rows change }
{
    let mut reply = nothing(alloc);
    reply.change = change;
    reply.taken = rows;
    reply
}
