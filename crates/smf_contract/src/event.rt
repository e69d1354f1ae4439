ghost use Rattle.std.specs.Prelude.{◌≡◌};
ghost use Rattle.smf_contract.specs.Kinds.{process_of, set_of_kind};

use crate::terms::EventSet;
use smf_fmri::Number;

/// How a process ended.
#[derive(Clone, Copy, PartialEq, Eq)]
pub enum Exit {
    Code(u8),
    Killed,
}

/// The kind of an event, with its process.
#[derive(Clone, Copy, PartialEq, Eq)]
pub enum EventKind {
    /// The last member ended.
    Empty,
    /// A member forked this process.
    Fork(Number),
    Exit(Number, Exit),
    /// A member dumped core.
    Core(Number),
    /// A signal that it did not catch ended a member.
    Signal(Number),
    /// An error of the hardware hit a member.
    Hwerr(Number),
}

impl EventKind {
    /// The process that it happened to, or that was forked.
    pub fn process(self) -> Option<Number>
        ensures { result ≡ process_of self }
    {
        match self {
            EventKind::Empty => None,
            EventKind::Fork(process)
            | EventKind::Exit(process, _)
            | EventKind::Core(process)
            | EventKind::Signal(process)
            | EventKind::Hwerr(process) => Some(process),
        }
    }

    /// The set of this kind alone.
    pub fn set(self) -> EventSet
        ensures { result.0 ≡ set_of_kind self }
    {
        match self {
            EventKind::Empty => EventSet::EMPTY,
            EventKind::Fork(_) => EventSet::FORK,
            EventKind::Exit(_, _) => EventSet::EXIT,
            EventKind::Core(_) => EventSet::CORE,
            EventKind::Signal(_) => EventSet::SIGNAL,
            EventKind::Hwerr(_) => EventSet::HWERR,
        }
    }
}

/// An event of a contract. Each contract numbers its own from 1.
#[derive(Clone, Copy, PartialEq, Eq)]
pub struct ContractEvent {
    pub contract: Number,
    pub number: Number,
    pub kind: EventKind,
    /// True if the contract has a member left after it.
    pub left: bool,
}

/// A failure that ends a member from outside.
#[derive(Clone, Copy, PartialEq, Eq)]
pub enum Failure {
    Core,
    Signal,
    Hwerr,
}
