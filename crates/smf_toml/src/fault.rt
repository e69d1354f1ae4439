// Why a file makes no lines.
use smf_fmri::FmriFault;
use std::alloc::{AllocError, AllocFailed, Global};

/// Why a file makes no lines.
#[derive(Debug, Drop)]
pub enum SiteFault {
    Memory,
    /// Why, and the line of the file, from 1 on, at which it shows.
    At { line: usize, why: String },
}

impl From<AllocError> for SiteFault {
    fn from(_e: AllocError) -> SiteFault {
        SiteFault::Memory
    }
}

impl<T: Drop> From<AllocFailed<T>> for SiteFault {
    fn from(_e: AllocFailed<T>) -> SiteFault {
        SiteFault::Memory
    }
}

/// What is wrong, before it is known where.
#[derive(Debug, Drop)]
pub(crate) enum Wrong {
    Memory,
    /// It is no TOML from this byte on.
    Syntax { at: usize, why: String },
    /// It is TOML that means no services.
    Meaning(String),
}

impl From<AllocError> for Wrong {
    fn from(_e: AllocError) -> Wrong {
        Wrong::Memory
    }
}

impl<T: Drop> From<AllocFailed<T>> for Wrong {
    fn from(_e: AllocFailed<T>) -> Wrong {
        Wrong::Memory
    }
}

/// What is wrong of a key.
pub(crate) fn bad_key(alloc: Global, key: &str, why: &str) -> Wrong {
    match format!(in alloc; "{key}: {why}") {
        Ok(why) => Wrong::Meaning(why),
        Err(_) => Wrong::Memory,
    }
}

/// A name that names nothing.
pub(crate) fn bad_name(alloc: Global, name: &str, fault: FmriFault) -> Wrong {
    match fault {
        FmriFault::Memory => Wrong::Memory,
        _ => match format!(in alloc; "{name}: {fault}") {
            Ok(why) => Wrong::Meaning(why),
            Err(_) => Wrong::Memory,
        },
    }
}
