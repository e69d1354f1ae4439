ghost use Rattle.smf_node.specs.declared.fault.NodeFault.TheVariants.{Memory};
ghost use Rattle.smf_node.specs.Faults.{fault_of};
ghost use Rattle.std.specs.Prelude.{◌≡◌};

use smf_fmri::Number;
use smf_machine::MachineFault;
use std::alloc::{AllocError, AllocFailed};

/// Why an event did not happen. The world is as it was before it.
#[derive(Clone, Copy, Debug, PartialEq, Eq)]
pub enum NodeFault {
    Memory,
    /// The journal of the repository failed.
    Database,
    /// A number that the event needs has no next one.
    Limit,
    /// No message was sent with this number.
    NoSuchMessage,
    /// To be launched, and launched already; or to act or to crash, and not launched.
    NoSuchActor,
}

impl From<AllocError> for NodeFault {
    ghost from_gives = { λ _ e. e ≡ Memory };

    fn from(_e: AllocError) -> NodeFault {
        NodeFault::Memory
    }
}

impl<T: Drop> From<AllocFailed<T>> for NodeFault {
    ghost from_gives = { λ _ e. e ≡ Memory };

    fn from(_e: AllocFailed<T>) -> NodeFault {
        NodeFault::Memory
    }
}

impl From<MachineFault> for NodeFault {
    ghost from_gives = { λ e f. f ≡ fault_of e };

    fn from(e: MachineFault) -> NodeFault {
        match e {
            MachineFault::Memory => NodeFault::Memory,
            MachineFault::Database => NodeFault::Database,
            MachineFault::Limit => NodeFault::Limit,
        }
    }
}

/// Why a node cannot go on with the contracts that are found.
#[derive(Clone, Copy, PartialEq, Eq)]
pub enum ContinueFault {
    /// Memory ran out, or no number of a process is left.
    Memory,
    /// Their numbers do not rise, one is above the last that was given, or one may not be inherited.
    Unfit,
    /// The cookie of this contract names no run that a held row has given. It is to be ended.
    Foreign(Number),
}
