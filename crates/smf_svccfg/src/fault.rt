ghost use Rattle.std.specs.Fmt.{decimal};
ghost use Rattle.std.specs.Prelude.{◌≡◌, ◌++◌, codes, IfOk};
ghost use Rattle.smf_svccfg.specs.declared.fault.CfgFault.TheVariants as faults;
ghost use Rattle.smf_svccfg.specs.declared.fault.LineFault.TheVariants as line_faults;
ghost use Rattle.smf_svccfg.specs.Judged.{fault_text};
ghost use Rattle.smf_svccfg.specs.Lines.{command_text};

use crate::command::CfgCommand;
use smf_fmri::Text;
use std::alloc::{AllocError, AllocFailed, Global};
use thiserror::Error;

/// Why a text is no line.
#[derive(Clone, Copy, Debug, PartialEq, Eq, Error)]
pub enum LineFault {
    #[error("no memory")]
    Memory,
    /// The byte at this place breaks the rules of quoting, or opens a quoted word that is not closed.
    #[error("bad quoting at {0}")]
    Quote(usize),
    #[error("unknown command")]
    Unknown,
    /// The tokens after the command are not those that it takes.
    #[error("bad use of {0}")]
    Usage(CfgCommand),
}

/// Why a line comes to nothing: what is wrong with the line first, then what is selected.
#[derive(Clone, Copy, Debug, PartialEq, Eq, Error)]
pub enum CfgFault {
    #[error("no memory")]
    Memory,
    #[error("bad quoting at {0}")]
    Quote(usize),
    #[error("unknown command")]
    Unknown,
    #[error("bad use of {0}")]
    Usage(CfgCommand),
    #[error("nothing selected")]
    NotSelected,
    /// A snapshot is selected.
    #[error("snapshot is read only")]
    ReadOnly,
    /// Nothing that could be selected has this name.
    #[error("no such entity")]
    NoSuch,
    /// The name of a new service is past 512 bytes.
    #[error("limit")]
    Limit,
}

impl From<AllocError> for LineFault {
    ghost from_gives = { λ _ e. e ≡ line_faults.Memory };

    fn from(_e: AllocError) -> LineFault {
        LineFault::Memory
    }
}

impl<T: Drop> From<AllocFailed<T>> for LineFault {
    ghost from_gives = { λ _ e. e ≡ line_faults.Memory };

    fn from(_e: AllocFailed<T>) -> LineFault {
        LineFault::Memory
    }
}

impl From<AllocError> for CfgFault {
    ghost from_gives = { λ _ e. e ≡ faults.Memory };

    fn from(_e: AllocError) -> CfgFault {
        CfgFault::Memory
    }
}

impl From<LineFault> for CfgFault {
    ghost use Rattle.smf_svccfg.specs.Judged.{given_by};
    ghost use Rattle.std.specs.Prelude.{◌≡◌};

    ghost from_gives = { λ e f. f ≡ given_by e };

    fn from(e: LineFault) -> CfgFault {
        match e {
            LineFault::Memory => CfgFault::Memory,
            LineFault::Quote(place) => CfgFault::Quote(place),
            LineFault::Unknown => CfgFault::Unknown,
            LineFault::Usage(command) => CfgFault::Usage(command),
        }
    }
}

/// The words for a fault, without the program's name in front and without a line's end.
#[tactic(auto, unfolding(crate::specs::Judged::fault_text))]
pub fn fault_text(alloc: Global, fault: CfgFault) -> Result<Text, AllocError>
    ensures { IfOk result (λ text. text ≡ fault_text fault) }
{
    let words = match fault {
        CfgFault::Usage(command) => return bad_use(alloc, command),
        CfgFault::Quote(place) => return bad_quoting(alloc, place),
        CfgFault::Memory => "no memory",
        CfgFault::Unknown => "unknown command",
        CfgFault::NotSelected => "nothing selected",
        CfgFault::ReadOnly => "snapshot is read only",
        CfgFault::NoSuch => "no such entity",
        CfgFault::Limit => "limit",
    };
    Text::copy_of(alloc, words)
}

fn bad_use(alloc: Global, command: CfgCommand) -> Result<Text, AllocError>
    ensures { IfOk result (λ text. text ≡ codes "bad use of " ++ command_text command) }
{
    let mut text = String::from_str(alloc, "bad use of ")?;
    text.push_str(command.as_str())?;
    Ok(Text::from_string(text))
}

fn bad_quoting(alloc: Global, place: usize) -> Result<Text, AllocError>
    ensures { IfOk result (λ text. text ≡ codes "bad quoting at " ++ decimal place) }
{
    let text = format!(in alloc; "bad quoting at {place}")?;
    Ok(Text::from_string(text))
}
