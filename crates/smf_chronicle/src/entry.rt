use smf_state::State;
use smf_world::Item;

/// An entry of a chronicle, which shows all lives of the manager in the order in which they happened.
#[derive(Drop)]
pub enum Entry {
    /// An item of the trail of a life.
    Happened(Item),
    /// A life began. Items that the life before it did not write are missing here. What it does not find is over.
    Life,
    /// A life found this row of an instance as it began.
    Row {
        instance: u64,
        number: u64,
        state: State,
    },
    /// A life found this start contract of an instance alive as it began.
    Living {
        contract: u64,
        instance: u64,
    },
}
