ghost use Rattle.std.specs.Prelude.{◌≡◌};
ghost use Rattle.smf_contract.specs.declared.fault.ContractFault.TheVariants.{Memory};

use std::alloc::{AllocError, AllocFailed};
use thiserror::Error;

/// Why the table refuses a call.
#[derive(Clone, Copy, Debug, PartialEq, Eq, Error)]
pub enum ContractFault {
    #[error("no memory")]
    Memory,
    /// No contract id or process number is left.
    #[error("no number left")]
    Full,
    #[error("no such process")]
    NoSuchProcess,
    /// Only what is inherited can be adopted.
    #[error("not inherited")]
    NotInherited,
    /// Somebody else holds it, nobody does, or there is no such contract.
    #[error("not held")]
    NotHeld,
}

impl From<AllocError> for ContractFault {
    ghost from_gives = { λ _ e. e ≡ Memory };

    fn from(_e: AllocError) -> ContractFault {
        ContractFault::Memory
    }
}

impl<T: Drop> From<AllocFailed<T>> for ContractFault {
    ghost from_gives = { λ _ e. e ≡ Memory };

    fn from(_e: AllocFailed<T>) -> ContractFault {
        ContractFault::Memory
    }
}
