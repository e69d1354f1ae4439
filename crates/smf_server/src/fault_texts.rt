ghost use Rattle.std.specs.Prelude.{◌≡◌, ◌++◌, OnOk};
ghost use Rattle.smf_server.specs.FaultTexts.{fault_line};

use smf_script::{ScriptFault, fault_text};
use std::alloc::AllocError;

/// Adds the text of a fault to the text of a reply, as a line.
pub(crate) fn add_fault(text: &mut Vec<u8>, fault: &ScriptFault) -> Result<(), AllocError>
    ensures { OnOk result (text.new.items ≡ text.old.items ++ fault_line fault.now) }
{
    text.extend_from_slice(fault_text(fault).as_bytes())?;
    text.push(b'\n')?;
    Ok(())
}
