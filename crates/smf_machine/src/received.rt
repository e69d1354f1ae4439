//! Messages as actors get them: as their lines read.

ghost use Rattle.std.specs.Prelude.{◌≡◌, IfOk};
ghost use Rattle.smf_wire.specs.Grammar.{GivesMessage, read_line};
ghost use Rattle.smf_wire.specs.Lines.{IsSpelled, line_text};

use smf_wire::{Message, WireFault, decode, encode};
use std::alloc::{AllocError, Global};

/// Who reads lines. Only a reader's answer says what was read, so a message that was not read is no such answer.
pub(crate) trait Reader {
    ghost use Rattle.std.specs.Prelude.{List, ℕ};
    ghost use Rattle.smf_wire.specs.declared.message.Message.{Message as AnyMessage};

    ghost has_read: { List ℕ → AnyMessage → Type 0 };

    fn read(&self, alloc: Global, line: &str) -> Result<Message, WireFault>
        ensures read { IfOk result (λ m. has_read line.now m) }
        ensures exact { GivesMessage result (read_line line.now) };
}

/// The reader of the node's actors.
#[derive(Drop)]
pub(crate) struct LineReader {}

impl Reader for LineReader {
    ghost use Rattle.std.specs.Prelude.{◌≡◌, Ok};
    ghost use Rattle.smf_wire.specs.Grammar.{read_line};

    ghost has_read = { λ line m. read_line line ≡ Ok m };

    fn read(&self, alloc: Global, line: &str) -> Result<Message, WireFault> {
        decode(alloc, line)
    }
}

/// A message as its actor gets it. Only `receive` makes one.
#[derive(Drop)]
pub(crate) struct Received {
    message: Message,
}

impl Received {
    pub(crate) fn message(&self) -> &Message
        ensures { result.now ≡ self.now.message }
    {
        &self.message
    }
}

/// A message is written as its line, and its actor gets what the line reads as.
pub(crate) fn receive<R: Reader>(
    alloc: Global,
    reader: &R,
    message: &Message,
) -> Result<Received, AllocError>
    requires { IsSpelled message.now }
    ensures same { IfOk result (λ received. received.message ≡ message.now) }
    ensures read { IfOk result (λ received. R.has_read (line_text message.now) received.message) }
{
    let line = encode(alloc, message)?;
    match reader.read(alloc, line.as_str()) {
        Ok(message) => Ok(Received { message }),
        Err(WireFault::Memory) => Err(AllocError),
        Err(WireFault::NotInGrammar(_)) => unreachable!(),
    }
}
