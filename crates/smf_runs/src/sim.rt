ghost use Rattle.std.specs.Prelude.{◌≡◌, ◌≢◌};
ghost use Rattle.smf_edge.specs.Answers.{children_state};
ghost use Rattle.smf_runs.specs.Sims.{IsSimulated, IsSimulationCut};

use crate::script::{Ended, serve_over};
use smf_edge::Kids;
use smf_lines::{LineReader, TextWriter};
use smf_model::{NoJournal, Plain};
use std::alloc::Global;

/// Does a script over a repository in memory and the children of its services. The status of the run is 0, 1 if a line
/// failed, or 3 for a fault. At the end every child that is left is killed.
pub fn serve_sim<R: LineReader, W: TextWriter, E: TextWriter, K: Kids>(
    alloc: Global,
    reader: &mut R,
    writer: &mut W,
    errors: &mut E,
    kids: &mut K,
) -> u8
    ensures ok { result ≢ 3 → IsSimulated K.skills
        (R.remaining reader.old) (children_state (K.ledger kids.old) (K.failures kids.old)) (children_state (K.ledger kids.new) (K.failures kids.new)) (W.contents writer.old) (W.contents writer.new) result }
    ensures fault { result ≡ 3 → IsSimulationCut K.skills R.read_fails W.write_fails E.write_fails
        (R.remaining reader.old) (children_state (K.ledger kids.old) (K.failures kids.old)) (children_state (K.ledger kids.new) (K.failures kids.new)) (W.contents writer.old) (W.contents writer.new) (E.contents errors.old) (E.contents errors.new) }
{
    let repository = Plain::new(alloc, NoJournal {});
    let Ended {
        end,
        journal: _journal,
    } = serve_over(alloc, repository, reader, writer, errors, kids);
    end
}
