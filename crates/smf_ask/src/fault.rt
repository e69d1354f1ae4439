//! Why nothing is asked, or no answer comes.

use std::alloc::AllocError;
use std::io;
use std::io::ErrorKind;

/// Why nothing is asked, or no answer comes.
#[derive(Drop)]
pub enum AskFault {
    Memory,
    /// It is told in these words.
    Told(String),
}

impl From<AllocError> for AskFault {
    fn from(_e: AllocError) -> AskFault {
        AskFault::Memory
    }
}

/// What the system gave, if it did. Want of memory is a fault.
pub(crate) fn if_given<T: Drop>(given: io::Result<T>) -> Result<Option<T>, AskFault> {
    match given {
        Ok(given) => Ok(Some(given)),
        Err(fault) if fault.kind() == ErrorKind::OutOfMemory => Err(AskFault::Memory),
        Err(_) => Ok(None),
    }
}

/// Tells in these words why there is no answer.
pub(crate) fn told<T>(words: Result<String, AllocError>) -> Result<T, AskFault> {
    match words {
        Ok(words) => Err(AskFault::Told(words)),
        Err(_) => Err(AskFault::Memory),
    }
}
