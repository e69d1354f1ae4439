ghost use Rattle.std.specs.Prelude.{◌≡◌};
ghost use Rattle.smf_dep.specs.declared.fault.DependencyFault.TheVariants.{Memory};

use std::alloc::{AllocError, AllocFailed};
use thiserror::Error;

/// Why a dependency group can't be read.
#[derive(Clone, Copy, Debug, PartialEq, Eq, Error)]
pub enum DependencyFault {
    #[error("no memory")]
    Memory,
    /// `grouping` is missing, or none of the four.
    #[error("bad grouping")]
    BadGrouping,
    /// `restart_on` is missing, or none of the four.
    #[error("bad restart_on")]
    BadRestartOn,
    /// `type` is not `service`.
    #[error("not of type service")]
    PathType,
    /// One of `entities` is no FMRI.
    #[error("bad entity")]
    BadEntity,
}

impl From<AllocError> for DependencyFault {
    ghost from_gives = { λ _ e. e ≡ Memory };

    fn from(_e: AllocError) -> DependencyFault {
        DependencyFault::Memory
    }
}

impl<T: Drop> From<AllocFailed<T>> for DependencyFault {
    ghost from_gives = { λ _ e. e ≡ Memory };

    fn from(_e: AllocFailed<T>) -> DependencyFault {
        DependencyFault::Memory
    }
}
