ghost use Rattle.std.specs.Prelude.{◌≡◌};
ghost use Rattle.smf_lines.specs.declared.fault.ReadFault.TheVariants.{Memory};

use std::alloc::{AllocError, AllocFailed};
use std::io;

/// Why no line was read.
#[derive(Drop)]
pub enum ReadFault {
    Memory,
    Input(io::Error),
    /// The lines, and so many reads that were interrupted, which count as lines.
    TooManyLines(u32),
}

impl From<AllocError> for ReadFault {
    ghost from_gives = { λ _ f. f ≡ Memory };

    fn from(_e: AllocError) -> ReadFault {
        ReadFault::Memory
    }
}

impl<T: Drop> From<AllocFailed<T>> for ReadFault {
    ghost from_gives = { λ _ f. f ≡ Memory };

    fn from(_e: AllocFailed<T>) -> ReadFault {
        ReadFault::Memory
    }
}
