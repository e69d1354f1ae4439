ghost use Rattle.std.specs.Prelude.{◌≡◌, ◌⊎◌};
ghost use Rattle.smf_sweep.specs.declared.fault.SweepFault.TheVariants.{Memory};

use std::alloc::{AllocError, AllocFailed};
use std::io;

/// Why a run does not begin.
#[derive(Clone, Copy, PartialEq, Eq)]
pub enum SweepFault {
    /// The list of children cannot be read.
    Unread,
    /// It cannot be written.
    Unwritten,
    /// The system does not say which processes it has, or ends none.
    Unanswered,
    /// A child of an older run does not end.
    Left,
    Memory,
}

impl From<AllocError> for SweepFault {
    ghost from_gives = { λ _ e. e ≡ Memory };

    fn from(_e: AllocError) -> SweepFault {
        SweepFault::Memory
    }
}

impl<T: Drop> From<AllocFailed<T>> for SweepFault {
    ghost from_gives = { λ _ e. e ≡ Memory };

    fn from(_e: AllocFailed<T>) -> SweepFault {
        SweepFault::Memory
    }
}

/// Want of memory is told as that.
pub(crate) fn fault_of(error: &io::Error, otherwise: SweepFault) -> SweepFault
    ensures { (result ≡ Memory) ⊎ (result ≡ otherwise) }
{
    if error.kind() == io::ErrorKind::OutOfMemory {
        return SweepFault::Memory;
    }
    otherwise
}
