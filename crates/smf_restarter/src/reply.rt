use crate::known::{Ending, KnownInstance, KnownRun, RunningMethod, Stage};
use smf_contract::{Method, Terms};
use smf_fmri::{Items, Number};
use smf_method::CommandText;
use smf_wire::{Known, Message};

/// A method that is begun.
#[derive(Drop)]
pub struct Begun {
    pub instance: u64,
    pub run: u64,
    pub method: Method,
    /// The revision that its order was decided on.
    pub revision: u64,
    pub command: CommandText,
}

/// A call of a restarter on the contracts.
#[derive(Clone, Copy, PartialEq, Eq)]
pub enum Call {
    Nothing,
    /// The list of all contracts.
    List,
    Adopt(Number),
    /// A contract for the method that is begun.
    Spawn { cookie: u64, terms: Terms },
    Kill(Number),
}

/// The answer to a call. The answer to a kill is `Nothing`: an event tells that the contract is empty.
#[derive(Clone, Copy)]
pub enum Answer {
    Nothing,
    Adopted(Number),
    /// The contract that was made.
    Spawned(Number),
    /// No contract was made, and no process was begun.
    Refused,
    /// The children of the service could not be followed.
    NotFollowed,
}

/// The course of an instance from now on, if it needs no new row.
#[derive(Clone, Copy)]
pub enum Course {
    Running(RunningMethod),
    Ending(Ending),
}

/// An instance that takes another course.
#[derive(Clone, Copy)]
pub struct CourseChange {
    pub instance: u64,
    pub course: Course,
}

/// The change of what a restarter knows.
#[derive(Drop)]
pub struct KnowledgeChange {
    pub stage: Option<Stage>,
    /// The serial of the last proposal.
    pub serial: Option<Number>,
    /// Instances that are known, or known otherwise, from now on.
    pub put: Items<KnownInstance>,
    pub turn: Option<CourseChange>,
    pub forget: Option<u64>,
    /// Runs that the list of contracts names.
    pub listed: Items<KnownRun>,
    pub run: Option<KnownRun>,
}

/// The reply of a restarter to an input: the change, a message, the rows that it takes, the method that it begins, and
/// its call. A method whose call is a spawn begins if the spawn is made. Any other method is built in.
#[derive(Drop)]
pub struct Reply {
    pub change: KnowledgeChange,
    /// None or one.
    pub messages: Items<Message>,
    pub taken: Items<Known>,
    /// None or one.
    pub begun: Items<Begun>,
    pub call: Call,
}
