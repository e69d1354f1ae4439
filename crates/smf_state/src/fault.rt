ghost use Rattle.std.specs.Prelude.{◌≡◌};
ghost use Rattle.smf_state.specs.declared.fault.FieldFault.TheVariants.{Memory, Left};

use std::alloc::AllocError;
use thiserror::Error;

/// Why a step is not granted.
#[derive(Clone, Copy, Debug, PartialEq, Eq, Error)]
pub enum StepFault {
    /// A run or a row number past the last.
    #[error("exhausted")]
    Exhausted,
    /// A run is live, but the step allows none.
    #[error("live")]
    StillLive,
    /// Nothing is under way that could end.
    #[error("not live")]
    NotLive,
    #[error("no edge")]
    NoEdge,
}

/// A field of a line that is wrong or missing: so many bytes stand from its start to the end.
#[derive(Clone, Copy, Debug, PartialEq, Eq, Error)]
#[error("wrong field {left} bytes before the end")]
pub struct WrongField {
    pub left: usize,
}

/// Why a reader that takes memory does not read a field of a line.
#[derive(Clone, Copy, Debug, PartialEq, Eq, Error)]
pub enum FieldFault {
    #[error("no memory")]
    Memory,
    /// So many bytes stand from the start of the wrong field to the end of the line.
    #[error("wrong field {0} bytes before the end")]
    Left(usize),
}

impl From<AllocError> for FieldFault {
    ghost from_gives = { λ _ e. e ≡ Memory };

    fn from(_e: AllocError) -> FieldFault {
        FieldFault::Memory
    }
}

impl From<WrongField> for FieldFault {
    ghost from_gives = { λ wrong e. e ≡ Left wrong.left };

    fn from(wrong: WrongField) -> FieldFault {
        FieldFault::Left(wrong.left)
    }
}

/// Why a text is no row.
#[derive(Clone, Copy, Debug, PartialEq, Eq, Error)]
pub enum RowFault {
    #[error("no memory")]
    Memory,
    /// The place of the first wrong field, or the text's length if one is missing.
    #[error("bad row at {0}")]
    BadRow(usize),
}

/// Why a text is no step.
#[derive(Clone, Copy, Debug, PartialEq, Eq, Error)]
pub enum StepTextFault {
    /// The place of the first wrong field, or the text's length if one is missing.
    #[error("bad step at {0}")]
    BadStep(usize),
}
