ghost use Rattle.std.specs.Prelude.{◌≡◌};
ghost use Rattle.smf_export.specs.declared.fault.ExportFault.TheVariants.{Memory};

use smf_fmri::Text;
use std::alloc::AllocError;

/// Why no lines are given.
#[derive(Drop)]
pub enum ExportFault {
    Memory,
    /// A line was refused when the lines were tried, with what svccfg says of it. It may delete an instance that is in
    /// use, or add a group where groups that a boot drops have taken the room.
    Refused(Text),
    /// The lines are more than 1,000,000, or lead to something else than was asked for. No case of the latter is known.
    Unwritable,
}

impl From<AllocError> for ExportFault {
    ghost from_gives = { λ _ f. f ≡ Memory };

    fn from(_e: AllocError) -> ExportFault {
        ExportFault::Memory
    }
}
