ghost use Rattle.std.specs.Prelude.{◌≡◌};
ghost use Rattle.smf_wire.specs.declared.fault.WireFault.TheVariants.{Memory};

use std::alloc::AllocError;
use thiserror::Error;

/// Why a line is no message.
#[derive(Clone, Copy, Debug, PartialEq, Eq, Error)]
pub enum WireFault {
    #[error("no memory")]
    Memory,
    /// The place of the first wrong field, in bytes, or the line's length if a field is missing with its space.
    #[error("not in the grammar at {0}")]
    NotInGrammar(usize),
}

impl From<AllocError> for WireFault {
    ghost from_gives = { λ _ e. e ≡ Memory };

    fn from(_e: AllocError) -> WireFault {
        WireFault::Memory
    }
}
