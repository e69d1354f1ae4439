ghost use Rattle.std.specs.Prelude.{◌≡◌};

use crate::flags::{Asks, Ignore};
use crate::state::{Cause, Duration, State};
use smf_fmri::InstanceFmri;
use std::alloc::AllocError;

/// A step that a restarter proposes for an instance.
#[derive(Clone, Copy)]
pub enum Step {
    /// To another state at once.
    Move(State),
    /// A start begins, as this run, by the method of this snapshot, decided on the base revision.
    Start {
        run: u64,
        snapshot: u64,
        duration: Duration,
        ignore: Ignore,
        base: u64,
    },
    /// A stop begins, as a run if it has a method.
    Stop {
        to: State,
        cause: Cause,
        run: Option<u64>,
    },
    /// A refresh begins, as a run if it has a method.
    Refresh {
        run: Option<u64>,
    },
    /// The start, stop or refresh under way ends. The live run is kept or freed.
    End {
        to: State,
        keep: bool,
        failed: u64,
        cause: Cause,
    },
    /// A service failed or exited. The live run is kept or freed.
    Note {
        bits: Asks,
        keep: bool,
    },
}

/// The word that a step begins with in a text.
#[derive(Clone, Copy, PartialEq, Eq)]
pub enum Verb {
    Move,
    Start,
    Stop,
    Refresh,
    End,
    Note,
}

/// A step that a restarter proposes, with what the answer is matched by.
#[derive(Drop)]
pub struct Proposal {
    pub proposer: InstanceFmri,
    /// The launch of the proposer.
    pub launch: u64,
    /// Its place among the proposals of that launch.
    pub serial: u64,
    pub instance: u64,
    /// The number that the row gets.
    pub number: u64,
    pub step: Step,
}

impl Clone for Proposal {
    ghost is_clone = { λ s copy. copy ≡ s };

    fn clone(&self) -> Result<Proposal, AllocError> {
        let proposer = self.proposer.clone()?;
        Ok(Proposal { proposer, ..*self })
    }
}
