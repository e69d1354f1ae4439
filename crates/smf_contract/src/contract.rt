use crate::event::ContractEvent;
use crate::terms::Terms;
use smf_fmri::{Items, Number};

/// Who holds a contract.
#[derive(Clone, Copy, PartialEq, Eq)]
pub enum Holder {
    /// This actor.
    Held(u64),
    /// Nobody, until somebody adopts it.
    Inherited,
    /// Nobody, for good.
    Abandoned,
}

/// A contract as the table keeps it, its members and events aside.
#[derive(Clone, Copy, PartialEq, Eq)]
pub struct Contract {
    /// From 1, and never used again.
    pub id: Number,
    /// The bits that its maker wrote there, as `Cookie::pack` gives them.
    pub cookie: u64,
    pub holder: Holder,
    pub terms: Terms,
    /// Its first process, which its maker began.
    pub first: Number,
    /// The number of the last event that was acknowledged; 0 if there is none.
    pub acknowledged: Number,
}

/// A process, and the contract that it is in.
#[derive(Clone, Copy, PartialEq, Eq)]
pub struct Member {
    pub process: Number,
    pub contract: Number,
}

/// An event of a contract, and the contract as it is when that is reported.
#[derive(Clone, Copy, PartialEq, Eq)]
pub struct Report {
    pub contract: Contract,
    pub event: ContractEvent,
}

/// A contract with its members, by their numbers, and all its events, the newest last.
#[derive(Drop)]
pub struct Status {
    pub contract: Contract,
    pub members: Items<Number>,
    pub events: Items<ContractEvent>,
}
