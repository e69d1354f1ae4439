//! What lines make in memory: of a copy of what is held, or of nothing.

ghost use Rattle.std.specs.Prelude.{◌≡◌, ◌≢◌, IfErr, IfOk};
ghost use Rattle.smf_model.specs.Laws.{IsNumbered};
ghost use Rattle.smf_export.specs.Turns.{IsAsked, IsNotAsked, IsRun};

use crate::fault::ExportFault;
use smf_fmri::Text;
use smf_lines::{LineReader, ReadFault, TextWriter, tell};
use smf_model::{NoJournal, Plain, Tables};
use smf_script::{RunFault, run_cfg, serve_cfg};
use std::alloc::{AllocError, Global};
use std::str;

/// The words of svccfg about lines that it refused.
fn refusal(alloc: Global, errors: &[u8]) -> Result<Text, AllocError> {
    match str::from_utf8(errors) {
        Ok(text) => Text::copy_of(alloc, text),
        Err(_) => Text::copy_of(alloc, ""),
    }
}

/// Why a run in memory was ended: for want of memory, unless it had too many lines.
fn ending(fault: RunFault) -> ExportFault {
    match fault {
        RunFault::Lines(ReadFault::TooManyLines(_)) => ExportFault::Unwritable,
        _ => ExportFault::Memory,
    }
}

/// What is held after lines, none of which is refused.
pub(crate) fn rehearsed(alloc: Global, before: &Tables, lines: &str) -> Result<Tables, ExportFault>
    requires { IsNumbered before.now }
    ensures ran { IfOk result (λ after. IsRun before.now lines.now after) }
    ensures numbered { IfOk result IsNumbered }
{
    let mut repository = Plain::over(alloc, before.clone()?, NoJournal {});
    let mut reader = lines.as_bytes();
    let mut out: Vec<u8> = Vec::new(alloc);
    let mut errors: Vec<u8> = Vec::new(alloc);
    match run_cfg(alloc, &mut reader, &mut out, &mut errors, &mut repository) {
        Ok(status) => {
            if status != 0 {
                return Err(ExportFault::Refused(refusal(alloc, errors.as_slice())?));
            }
            Ok(repository.tables_as_stored()?)
        }
        Err(fault) => Err(ending(fault)),
    }
}

/// What lines make out of nothing. If a line is refused or a fault ends the run, that is told, and the status of the run
/// is given: 1, or 3 for a fault. What the lines print is dropped.
pub fn asked_by<R: LineReader, E: TextWriter>(
    alloc: Global,
    reader: &mut R,
    errors: &mut E,
) -> Result<Tables, u8>
    ensures made { IfOk result (IsAsked (R.remaining reader.old)) }
    ensures numbered { IfOk result IsNumbered }
    ensures refused { IfErr result (λ status. status ≡ 1 → IsNotAsked (R.remaining reader.old)) }
    ensures status { IfErr result (λ status. status ≢ 0) }
{
    let mut repository = Plain::new(alloc, NoJournal {});
    let mut out: Vec<u8> = Vec::new(alloc);
    let status = serve_cfg(alloc, reader, &mut out, errors, &mut repository);
    if status != 0 {
        return Err(status);
    }
    match repository.tables_as_stored() {
        Ok(asked) => Ok(asked),
        Err(_) => Err(tell(errors, "smf: no memory")),
    }
}
