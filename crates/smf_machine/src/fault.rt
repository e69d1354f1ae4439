ghost use Rattle.std.specs.Prelude.{◌≡◌};
ghost use Rattle.smf_machine.specs.declared.fault.MachineFault.TheVariants.{Memory};
ghost use Rattle.smf_machine.specs.Faults.{fault_of};

use smf_model::RepoFault;
use std::alloc::{AllocError, AllocFailed};

/// Why an event did not happen. The world is as it was before it.
#[derive(Clone, Copy, PartialEq, Eq)]
pub enum MachineFault {
    Memory,
    /// The journal of the repository failed.
    Database,
    /// A number that a boot needs has no next one.
    Limit,
}

impl From<AllocError> for MachineFault {
    ghost from_gives = { λ _ e. e ≡ Memory };

    fn from(_e: AllocError) -> MachineFault {
        MachineFault::Memory
    }
}

impl<T: Drop> From<AllocFailed<T>> for MachineFault {
    ghost from_gives = { λ _ e. e ≡ Memory };

    fn from(_e: AllocFailed<T>) -> MachineFault {
        MachineFault::Memory
    }
}

impl From<RepoFault> for MachineFault {
    ghost from_gives = { λ e f. f ≡ fault_of e };

    fn from(e: RepoFault) -> MachineFault {
        match e {
            RepoFault::Memory => MachineFault::Memory,
            RepoFault::Database => MachineFault::Database,
        }
    }
}
