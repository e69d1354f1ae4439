ghost use Rattle.std.specs.Prelude.{◌≡◌};
ghost use Rattle.smf_store.specs.declared.fault.WriteFault.TheVariants.{Memory};
ghost use Rattle.smf_store.specs.Faults.{fault_of, repository_fault};

use smf_model::RepoFault;
use sqlite::{Error, ErrorCode};
use std::alloc::AllocError;

/// Why changes are not written.
#[derive(Clone, Copy, PartialEq, Eq)]
pub(crate) enum WriteFault {
    Memory,
    /// A statement failed, or the store was given a change that no command makes.
    Database,
}

impl From<AllocError> for WriteFault {
    ghost from_gives = { λ _ e. e ≡ Memory };

    fn from(_e: AllocError) -> WriteFault {
        WriteFault::Memory
    }
}

impl From<Error> for WriteFault {
    ghost from_gives = { λ e fault. fault ≡ fault_of e };

    fn from(e: Error) -> WriteFault {
        match e {
            Error::SqliteFailure(ErrorCode::OutOfMemory) => WriteFault::Memory,
            _ => WriteFault::Database,
        }
    }
}

/// The same as the repository says it.
pub(crate) fn repo_fault(fault: WriteFault) -> RepoFault
    ensures { result ≡ repository_fault fault }
{
    match fault {
        WriteFault::Memory => RepoFault::Memory,
        WriteFault::Database => RepoFault::Database,
    }
}
