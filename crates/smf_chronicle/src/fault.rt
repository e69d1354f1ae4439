ghost use Rattle.smf_chronicle.specs.declared.fault.LineFault.TheVariants as lines;
ghost use Rattle.smf_chronicle.specs.declared.fault.ReadFault.TheVariants.{Memory};
ghost use Rattle.std.specs.Prelude.{◌≡◌};

use std::alloc::{AllocError, AllocFailed};

/// Why a text is not read. Lines are counted from 1.
#[derive(Clone, Copy, Debug, PartialEq, Eq)]
pub enum ReadFault {
    Memory,
    /// This line is no entry, or has no end.
    Unreadable(usize),
    /// The link of this line is not the digest of the line before it.
    Unlinked(usize),
}

impl From<AllocError> for ReadFault {
    ghost from_gives = { λ _ e. e ≡ Memory };

    fn from(_e: AllocError) -> ReadFault {
        ReadFault::Memory
    }
}

impl<T: Drop> From<AllocFailed<T>> for ReadFault {
    ghost from_gives = { λ _ e. e ≡ Memory };

    fn from(_e: AllocFailed<T>) -> ReadFault {
        ReadFault::Memory
    }
}

/// Why a line is not read.
#[derive(Clone, Copy, PartialEq, Eq)]
pub(crate) enum LineFault {
    Memory,
    Unreadable,
    Unlinked,
}

impl From<AllocError> for LineFault {
    ghost from_gives = { λ _ e. e ≡ lines.Memory };

    fn from(_e: AllocError) -> LineFault {
        LineFault::Memory
    }
}
