ghost use Rattle.std.specs.Prelude.{◌≡◌};
ghost use Rattle.smf_script.specs.declared.fault.ScriptFault.TheVariants.{Lines, Node};

use smf_lines::ReadFault;
use smf_node::NodeFault;
use std::io;

/// Why a script ended before its last line.
#[derive(Drop)]
pub enum ScriptFault {
    /// The node failed at a line.
    Node(NodeFault),
    /// No line could be read.
    Lines(ReadFault),
    Output(io::Error),
}

impl From<NodeFault> for ScriptFault {
    ghost from_gives = { λ e f. f ≡ Node e };

    fn from(e: NodeFault) -> ScriptFault {
        ScriptFault::Node(e)
    }
}

impl From<ReadFault> for ScriptFault {
    ghost from_gives = { λ e f. f ≡ Lines e };

    fn from(e: ReadFault) -> ScriptFault {
        ScriptFault::Lines(e)
    }
}
