ghost use Rattle.std.specs.Prelude.{◌≡◌};
ghost use Rattle.smf_script.specs.declared.cfg_fault.SessionFault.TheVariants as line_faults;
ghost use Rattle.smf_script.specs.declared.cfg_fault.RunFault.TheVariants as run_faults;
ghost use Rattle.smf_model.specs.declared.journal.RepoFault.TheVariants.{Memory};

use smf_lines::ReadFault;
use smf_model::{CommandReply, RepoFault};
use smf_svccfg::CfgFault;
use std::alloc::AllocError;
use std::io;

/// Why a line failed. The line left the holdings and the selection as they were.
#[derive(Drop)]
pub enum SessionFault {
    /// It is no line, or it is one that cannot be done with this selection.
    Line(CfgFault),
    /// The repository refused the edit.
    Refused(CommandReply),
    /// There was no reply.
    Repo(RepoFault),
}

/// Why a run ended before its last line.
#[derive(Drop)]
pub enum RunFault {
    Lines(ReadFault),
    Repo(RepoFault),
    /// The output of lines could not be written.
    Output(io::Error),
    /// The messages about lines that failed could not be written.
    Errors(io::Error),
}

impl From<RepoFault> for SessionFault {
    ghost from_gives = { λ e f. f ≡ line_faults.Repo e };

    fn from(e: RepoFault) -> SessionFault {
        SessionFault::Repo(e)
    }
}

impl From<ReadFault> for RunFault {
    ghost from_gives = { λ e f. f ≡ run_faults.Lines e };

    fn from(e: ReadFault) -> RunFault {
        RunFault::Lines(e)
    }
}

impl From<AllocError> for RunFault {
    ghost from_gives = { λ _ f. f ≡ run_faults.Repo Memory };

    fn from(_e: AllocError) -> RunFault {
        RunFault::Repo(RepoFault::Memory)
    }
}
