ghost use Rattle.std.specs.Prelude.{◌≡◌};
ghost use Rattle.smf_method.specs.declared.fault.MethodFault.TheVariants.{Memory};

use std::alloc::{AllocError, AllocFailed};
use thiserror::Error;

/// Why groups define no method.
#[derive(Clone, Copy, Debug, PartialEq, Eq, Error)]
pub enum MethodFault {
    #[error("no memory")]
    Memory,
    /// `exec` is missing, or is not one astring.
    #[error("no exec")]
    NoExec,
    #[error("bad timeout")]
    BadTimeout,
    /// The place of a `%` that begins no token, or 0 if a start would be a kill.
    #[error("bad token at {0}")]
    BadToken(usize),
    #[error("bad duration")]
    BadDuration,
    #[error("bad ignore_error")]
    BadIgnore,
}

impl From<AllocError> for MethodFault {
    ghost from_gives = { λ _ e. e ≡ Memory };

    fn from(_e: AllocError) -> MethodFault {
        MethodFault::Memory
    }
}

impl<T: Drop> From<AllocFailed<T>> for MethodFault {
    ghost from_gives = { λ _ e. e ≡ Memory };

    fn from(_e: AllocFailed<T>) -> MethodFault {
        MethodFault::Memory
    }
}
