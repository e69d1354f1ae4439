ghost use Rattle.std.specs.Prelude.{◌≡◌};
ghost use Rattle.smf_store.specs.declared.refusal.OpenFault.TheVariants.{Memory};
ghost use Rattle.smf_store.specs.Faults.{fault_of, open_fault};

use crate::fault::WriteFault;
use sqlite::{Error, ErrorCode};
use std::alloc::AllocError;

/// The tables of a store, in the order in which they are looked at.
#[derive(Clone, Copy, PartialEq, Eq)]
pub enum StoreTable {
    Meta,
    Service,
    Instance,
    Group,
    Snapshot,
    Restarter,
}

/// Why a database is not opened.
#[derive(Clone, Copy, PartialEq, Eq)]
pub enum OpenFault {
    Memory,
    /// A statement failed.
    Database,
    /// It is a store of another version than the first and the second.
    Version(i64),
    /// The first table that breaks the rules of a store.
    Damaged(StoreTable),
    /// A store of the first version has given more numbers to instances than there are.
    TooManyInstances,
}

impl From<AllocError> for OpenFault {
    ghost from_gives = { λ _ e. e ≡ Memory };

    fn from(_e: AllocError) -> OpenFault {
        OpenFault::Memory
    }
}

impl From<WriteFault> for OpenFault {
    ghost from_gives = { λ fault e. e ≡ open_fault fault };

    fn from(fault: WriteFault) -> OpenFault {
        match fault {
            WriteFault::Memory => OpenFault::Memory,
            WriteFault::Database => OpenFault::Database,
        }
    }
}

impl From<Error> for OpenFault {
    ghost from_gives = { λ e fault. fault ≡ open_fault (fault_of e) };

    fn from(e: Error) -> OpenFault {
        match e {
            Error::SqliteFailure(ErrorCode::OutOfMemory) => OpenFault::Memory,
            _ => OpenFault::Database,
        }
    }
}
