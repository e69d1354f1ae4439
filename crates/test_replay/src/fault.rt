use smf_node::NodeFault;
use std::io;

/// Why a replay ended before its last line.
#[derive(Drop)]
pub(crate) enum ReplayFault {
    Node(NodeFault),
    Io(io::Error),
}

impl From<NodeFault> for ReplayFault {
    fn from(fault: NodeFault) -> ReplayFault {
        ReplayFault::Node(fault)
    }
}

impl From<io::Error> for ReplayFault {
    fn from(fault: io::Error) -> ReplayFault {
        ReplayFault::Io(fault)
    }
}

/// Why an event did not happen.
pub(crate) fn fault_text(fault: NodeFault) -> &'static str {
    match fault {
        NodeFault::Memory => "no memory",
        NodeFault::Database => "database failed",
        NodeFault::Limit => "limit",
        NodeFault::NoSuchMessage => "no such message",
        NodeFault::NoSuchActor => "no such actor",
    }
}

impl ReplayFault {
    pub(crate) fn text(&self) -> &'static str {
        match self {
            ReplayFault::Node(fault) => fault_text(*fault),
            ReplayFault::Io(_) => "input or output failed",
        }
    }
}
