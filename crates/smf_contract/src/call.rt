use crate::event::{Exit, Failure};
use crate::terms::Terms;
use smf_fmri::Number;

/// A call on a table that has room for it, or nothing. A call that the table refuses leaves the table as it was.
#[derive(Clone, Copy, PartialEq, Eq)]
pub enum ContractCall {
    Nothing,
    Spawn {
        actor: u64,
        cookie: u64,
        terms: Terms,
    },
    Adopt {
        actor: u64,
        contract: Number,
    },
    Kill {
        actor: u64,
        contract: Number,
    },
    /// An actor is gone.
    Gone {
        actor: u64,
    },
    /// The machine begins anew.
    Reboot,
    /// A process forks.
    Fork(Number),
    Exit(Number, Exit),
    Fail(Number, Failure),
}
