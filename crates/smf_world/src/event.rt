use smf_contract::{Exit, Failure};
use smf_fmri::{InstanceFmri, Number};
use smf_model::Edit;

/// The answer to a spawn that a tick asks for.
#[derive(Clone, Copy, PartialEq, Eq)]
pub enum SpawnAnswer {
    Made,
    Refused,
    /// The children of the service could not be followed.
    NotFollowed,
}

/// An event of a process, as in process(4).
#[derive(Clone, Copy, PartialEq, Eq)]
pub enum ProcessEvent {
    Fork,
    Exit(Exit),
    Fail(Failure),
}

/// An event of the world. A launch of a launched restarter does nothing. Nor does an event of a restarter that is not
/// launched, of a process in no contract, or of a contract that nobody holds.
#[derive(Drop)]
pub enum Event {
    /// The message at a place of all that were ever sent is delivered, for the first time or again.
    Deliver(u64),
    /// A client gives a command.
    Client(Edit),
    /// The graph asks for the view, or for what changed since the one that it holds.
    Ask,
    /// The graph sends the orders of the view that it holds.
    Orders,
    /// A launched restarter has its turn for itself.
    OwnTick(InstanceFmri),
    /// A launched restarter has its turn for an instance.
    Tick {
        restarter: InstanceFmri,
        instance: u64,
        spawn: SpawnAnswer,
    },
    Process {
        process: Number,
        what: ProcessEvent,
    },
    /// An event of a contract is reported to its holder, in time, late or again.
    Report {
        contract: Number,
        number: Number,
    },
    /// The method that runs for an instance has taken too long.
    Timeout {
        restarter: InstanceFmri,
        instance: u64,
    },
    Crash(InstanceFmri),
    Launch(InstanceFmri),
    Boot,
}
