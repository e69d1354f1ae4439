//! Why calls of this crate refuse.

ghost use Rattle.std.specs.Prelude.{◌≡◌};
ghost use Rattle.smf_value.specs.declared.fault.NameFault.TheVariants as names;
ghost use Rattle.smf_value.specs.declared.fault.ValueFault.TheVariants as values;
ghost use Rattle.smf_value.specs.declared.fault.GroupFault.TheVariants as groups;
ghost use Rattle.smf_value.specs.declared.fault.BodyFault.TheVariants as bodies;

use crate::kind::Kind;
use std::alloc::{AllocError, AllocFailed};
use thiserror::Error;

/// Why a text is no name of a group, a type or a property.
#[derive(Clone, Copy, Debug, PartialEq, Eq, Error)]
pub enum NameFault {
    #[error("no memory")]
    Memory,
    /// The first byte that cannot stand there: 0 for the empty text, 255 for a 256th byte.
    #[error("bad name at {0}")]
    Component(usize),
}

/// Why a text is no value of a kind.
#[derive(Clone, Copy, Debug, PartialEq, Eq, Error)]
pub enum ValueFault {
    #[error("no memory")]
    Memory,
    /// Past 4,096 bytes of an astring or a ustring, or 512 of an fmri.
    #[error("too long")]
    TooLong,
    #[error("not a value of {0}")]
    NotA(Kind),
    /// A number of the right form that is too great or too small.
    #[error("out of range")]
    Range,
}

/// Why a group is not changed.
#[derive(Clone, Copy, Debug, PartialEq, Eq, Error)]
pub enum GroupFault {
    #[error("no memory")]
    Memory,
    #[error("no such property")]
    NoSuch,
    /// A new property comes with no kind.
    #[error("type needed")]
    NeedsKind,
    #[error("type differs")]
    KindDiffers,
    #[error("too long")]
    TooLong,
    #[error("not a value of {0}")]
    NotA(Kind),
    #[error("out of range")]
    Range,
    /// More than 1,000 values in the property, or properties in the group.
    #[error("too many")]
    Full,
}

/// Why bytes are no body.
#[derive(Clone, Copy, Debug, PartialEq, Eq, Error)]
pub enum BodyFault {
    #[error("no memory")]
    Memory,
    /// The place at which the first wrong or missing field begins.
    #[error("bad body at {0}")]
    BadBody(usize),
}

impl From<AllocError> for NameFault {
    ghost from_gives = { λ _ e. e ≡ names.Memory };

    fn from(_e: AllocError) -> NameFault {
        NameFault::Memory
    }
}

impl From<AllocError> for ValueFault {
    ghost from_gives = { λ _ e. e ≡ values.Memory };

    fn from(_e: AllocError) -> ValueFault {
        ValueFault::Memory
    }
}

impl<T: Drop> From<AllocFailed<T>> for ValueFault {
    ghost from_gives = { λ _ e. e ≡ values.Memory };

    fn from(_e: AllocFailed<T>) -> ValueFault {
        ValueFault::Memory
    }
}

impl From<AllocError> for GroupFault {
    ghost from_gives = { λ _ e. e ≡ groups.Memory };

    fn from(_e: AllocError) -> GroupFault {
        GroupFault::Memory
    }
}

impl<T: Drop> From<AllocFailed<T>> for GroupFault {
    ghost from_gives = { λ _ e. e ≡ groups.Memory };

    fn from(_e: AllocFailed<T>) -> GroupFault {
        GroupFault::Memory
    }
}

impl From<AllocError> for BodyFault {
    ghost from_gives = { λ _ e. e ≡ bodies.Memory };

    fn from(_e: AllocError) -> BodyFault {
        BodyFault::Memory
    }
}

impl From<ValueFault> for GroupFault {
    ghost use Rattle.smf_value.specs.Edits.{given_by};
    ghost use Rattle.std.specs.Prelude.{◌≡◌};

    ghost from_gives = { λ e f. f ≡ given_by e };

    fn from(e: ValueFault) -> GroupFault {
        match e {
            ValueFault::Memory => GroupFault::Memory,
            ValueFault::TooLong => GroupFault::TooLong,
            ValueFault::NotA(kind) => GroupFault::NotA(kind),
            ValueFault::Range => GroupFault::Range,
        }
    }
}
