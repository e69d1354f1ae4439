ghost use Rattle.std.specs.Prelude.{◌≡◌, refl};

use smf_contract::Method;
use smf_fmri::{HasPart, InstanceFmri, Keyed, Number};
use smf_method::{MethodCall, Timeout};
use smf_state::{Cause, Proposal, SharedRow, State};
use std::alloc::AllocError;

/// How far a restarter has come since its launch.
#[derive(Clone, Copy, PartialEq, Eq)]
pub enum Stage {
    /// It has not been told its rows.
    Joining,
    /// It does not know which contracts there are.
    Listing,
    Up,
}

/// The runs whose contracts have to be empty before an end is proposed.
#[derive(Clone, Copy, PartialEq, Eq)]
pub enum Drain {
    Nothing,
    Live,
    Side,
    Both,
}

/// A method that is to be begun.
#[derive(Drop)]
pub struct Owed {
    pub method: Method,
    pub run: u64,
    /// The revision that the order was decided on.
    pub revision: u64,
    pub call: MethodCall,
}

/// A method that runs in a contract.
#[derive(Clone, Copy)]
pub struct RunningMethod {
    pub method: Method,
    pub run: u64,
    /// The time after which it has failed, if it has not ended by then.
    pub timeout: Option<Timeout>,
}

/// An end that is to be proposed.
#[derive(Clone, Copy)]
pub struct Ending {
    pub to: State,
    /// Starts that failed in a row; 0 unless it leads to offline.
    pub failed: u64,
    pub cause: Cause,
    pub drain: Drain,
}

/// The phase that follows if the repository grants a proposal.
#[derive(Drop)]
pub enum After {
    Idle,
    Owes(Owed),
    Ending(Ending),
}

/// A restarter's work on an instance.
#[derive(Drop)]
pub enum Phase {
    Idle,
    /// It waits for the answer to a proposal.
    Waiting { proposal: Proposal, after: After },
    Owes(Owed),
    Running(RunningMethod),
    Ending(Ending),
}

/// An instance, its row as it was last told, and what is done about it.
#[derive(Drop)]
pub struct KnownInstance {
    pub instance: u64,
    pub name: InstanceFmri,
    pub row: SharedRow,
    pub phase: Phase,
}

/// A run of an instance.
#[derive(Clone, Copy, PartialEq, Eq, PartialOrd, Ord)]
pub struct RunKey {
    pub instance: u64,
    pub run: u64,
}

/// A run that has a contract.
#[derive(Clone, Copy)]
pub struct KnownRun {
    pub key: RunKey,
    pub contract: Number,
    pub held: bool,
    pub empty: bool,
    /// A failure was reported that is not left out of account.
    pub failed: bool,
    /// Its first process has ended.
    pub ended: bool,
}

impl Keyed for KnownInstance {
    ghost use Rattle.smf_restarter.specs.Knowledge.{by_instance};

    type Key = u64;

    ghost by = { by_instance };

    fn key(&self) -> &u64 {
        &self.instance
    }

    ghost same = { refl };
}

impl HasPart for KnownInstance {
    type Part = Phase;

    ghost with_part = { λ i phase. record i { phase = phase } };

    fn set_part(&mut self, part: Phase) {
        self.phase = part;
    }

    ghost keeps_key = { λ i phase. refl };
}

impl Keyed for KnownRun {
    ghost use Rattle.smf_restarter.specs.Knowledge.{by_run};

    type Key = RunKey;

    ghost by = { by_run };

    fn key(&self) -> &RunKey {
        &self.key
    }

    ghost same = { refl };
}

impl Clone for Owed {
    ghost is_clone = { λ s copy. copy ≡ s };

    fn clone(&self) -> Result<Owed, AllocError> {
        let call = self.call.clone()?;
        Ok(Owed {
            method: self.method,
            run: self.run,
            revision: self.revision,
            call,
        })
    }
}
