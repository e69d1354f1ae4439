use smf_contract::ContractEvent;
use smf_fmri::{InstanceFmri, Number};

/// The end of a number of rounds.
#[derive(Clone, Copy, PartialEq, Eq)]
pub enum Settled {
    /// Nothing is left to do.
    Quiet,
    /// The rounds were used up.
    Busy,
}

/// An event of a contract, by its number there.
#[derive(Clone, Copy)]
pub struct EventKey {
    pub contract: Number,
    pub number: Number,
}

/// One thing that a schedule does: at most one event.
#[derive(Drop)]
pub enum Deed {
    Launch(InstanceFmri),
    /// The next message in the order of sending is delivered, unless it is lost or was delivered before its turn.
    DeliverNext,
    /// The graph asks for the view.
    Ask,
    /// The graph sends its orders.
    Orders,
    /// An event of a contract is reported, if its holder is launched; else it is kept for later.
    Report(ContractEvent),
    OwnTick(InstanceFmri),
    /// The turn of a restarter for an instance. A spawn that it asks for is refused if some are still to be.
    Tick {
        restarter: InstanceFmri,
        instance: u64,
    },
}

/// A part of a round, whose deeds are known when it begins.
#[derive(Drop)]
pub enum Turn {
    /// Each owner of a row is launched that is not.
    Launches,
    /// The messages that wait are delivered.
    Messages,
    Ask,
    Orders,
    /// Children tell what happened to them, and what happened to contracts is reported.
    Reports,
    OwnTick(InstanceFmri),
    /// The turns of a restarter for all instances that it knows.
    Ticks(InstanceFmri),
}
