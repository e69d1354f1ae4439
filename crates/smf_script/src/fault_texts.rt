ghost use Rattle.std.specs.Prelude.{◌≡◌};
ghost use Rattle.smf_script.specs.FaultTexts.{fault_text, node_text};

use crate::fault::ScriptFault;
use smf_lines::read_text;
use smf_node::NodeFault;

fn node_text(fault: NodeFault) -> &'static str
    ensures { result.now ≡ node_text fault }
{
    match fault {
        NodeFault::Memory => "smf: no memory",
        NodeFault::Database => "smf: store: database failed",
        NodeFault::Limit => "smf: limit",
        NodeFault::NoSuchMessage => "smf: no such message",
        NodeFault::NoSuchActor => "smf: no such restarter",
    }
}

/// Why a script ended before its last line, without the end of a line.
pub fn fault_text(fault: &ScriptFault) -> &'static str
    ensures { result.now ≡ fault_text fault.now }
{
    match fault {
        ScriptFault::Node(fault) => node_text(*fault),
        ScriptFault::Lines(fault) => read_text(fault),
        ScriptFault::Output(_) => "smf: output failed",
    }
}
