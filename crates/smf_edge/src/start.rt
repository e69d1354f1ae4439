ghost use Rattle.std.specs.Prelude.{◌≡◌, IfOk};
ghost use Rattle.smf_edge.specs.Ledgers.{run_of};

use crate::note::Run;
use smf_contract::{Method, Terms};
use smf_fmri::{InstanceFmri, Number};
use smf_method::CommandText;
use smf_state::Duration;
use std::alloc::AllocError;

/// A method that a restarter asks to be started in a contract of its own.
#[derive(Drop)]
pub struct Start {
    /// The next contract; a start in any other is refused.
    pub contract: Number,
    /// It is kept with the contract, for whoever finds that later.
    pub cookie: u64,
    /// How long the service of the instance lasts.
    pub style: Duration,
    pub terms: Terms,
    pub command: CommandText,
    pub method: Method,
    pub instance: InstanceFmri,
    pub restarter: InstanceFmri,
}

impl Start {
    /// The run that is noted of the start.
    pub fn run(&self) -> Result<Run, AllocError>
        ensures { IfOk result (λ run. run ≡ run_of self.now) }
    {
        let command = self.command.clone()?;
        Ok(Run {
            contract: self.contract,
            cookie: self.cookie,
            terms: self.terms,
            command,
        })
    }
}
