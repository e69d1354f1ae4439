ghost use Rattle.std.specs.Prelude.{◌≡◌, ◌≢◌, IfSome};
ghost use Rattle.smf_script.specs.CfgRuns.{Ends, HasRun, start_place, run};
ghost use Rattle.smf_script.specs.CfgEnds.{IsFaulted, fault_text, repo_text};
ghost use Rattle.smf_lines.specs.Lines.{lines_of};
ghost use Rattle.smf_model.specs.Clients.{IsEditedAlone};

use crate::cfg_fault::RunFault;
use crate::cfg_run::run_cfg;
use smf_lines::{LineReader, TextWriter, read_text, tell};
use smf_model::{Client, RepoFault};
use std::alloc::Global;

fn repo_text(fault: RepoFault) -> &'static str
    ensures { result.now ≡ repo_text fault }
{
    match fault {
        RepoFault::Memory => "smf: no memory",
        RepoFault::Database => "smf: store: database failed",
    }
}

fn fault_text(fault: &RunFault) -> &'static str
    ensures { result.now ≡ fault_text fault.now }
{
    match fault {
        RunFault::Lines(fault) => read_text(fault),
        RunFault::Repo(fault) => repo_text(*fault),
        RunFault::Output(_) => "smf: output failed",
        RunFault::Errors(_) => "smf: output failed",
    }
}

/// Does lines of svccfg, and says why if a fault ended the run. Gives the status: 0, 1 if a line failed, or 3 for a
/// fault.
pub fn serve_cfg<R: LineReader, W: TextWriter, E: TextWriter, C: Client>(
    alloc: Global,
    reader: &mut R,
    out: &mut W,
    errors: &mut E,
    client: &mut C,
) -> u8
    // If no fault ended it, lines were done one after another. The holdings, the written texts and the status are what
    // these lines give. If the bytes are known, these are all lines of them, up to the end of the session.
    ensures ran { result ≢ 3 → HasRun (start_place (C.held client.old)) (R.remaining reader.old)
        (C.held client.new) (W.contents out.old) (W.contents out.new) (E.contents errors.old) (E.contents errors.new) result }
    // If the bytes are known, all lines give the same: those after the end of the session do nothing.
    ensures ok { result ≢ 3 → IfSome (R.remaining reader.old) (λ input.
        Ends (run (start_place (C.held client.old)) (lines_of input)) (C.held client.new) (W.contents out.old) (W.contents out.new) (E.contents errors.old) (E.contents errors.new) result) }
    ensures fault { result ≡ 3
        → IsFaulted R.read_fails C.edit_fails W.write_fails E.write_fails (C.held client.old) (C.held client.new)
        (R.remaining reader.old) (W.contents out.old) (W.contents out.new) (E.contents errors.old) (E.contents errors.new) }
    // Edits were given to the client, and nothing else was done to it.
    ensures edits { IsEditedAlone C.held C.follows client.old client.new }
{
    match run_cfg(alloc, reader, out, errors, client) {
        Ok(status) => status,
        Err(fault) => tell(errors, fault_text(&fault)),
    }
}
