ghost use Rattle.std.specs.Prelude.{◌≡◌, ◌≢◌, IfErr, IfOk, OnErr};
ghost use Rattle.smf_edge.specs.Answers.{children_state};
ghost use Rattle.sqlite.specs.Files.{over_files};
ghost use Rattle.smf_runs.specs.Copies.{IsOverCopy, IsUncopied, image_in};
ghost use Rattle.smf_runs.specs.Runs.{HasLeft, IsDone, IsEnded};

use crate::copies::open_copy;
use crate::script::serve;
use crate::served::Served;
use smf_edge::Kids;
use smf_lines::{LineReader, TextWriter};
use smf_store::FileBytes;
use sqlite::{Alter, Connection, Error};
use sqlite_disk::{Disk, Memory};
use std::alloc::Global;

/// Does a script over a database and the children of its services, and lets the database go. The status of the run is 0,
/// 1 if a line failed, or 3 for a fault. It takes any store: a proof over a store in memory takes far longer.
fn serve_out<S: Alter + Drop, R: LineReader, W: TextWriter, E: TextWriter, K: Kids>(
    alloc: Global,
    conn: Connection<S>,
    reader: &mut R,
    writer: &mut W,
    errors: &mut E,
    kids: &mut K,
) -> u8
    ensures ok { result ≢ 3 → HasLeft (λ after. IsDone S.Store conn after K.skills
        (R.remaining reader.old) (children_state (K.ledger kids.old) (K.failures kids.old)) (children_state (K.ledger kids.new) (K.failures kids.new)) (W.contents writer.old) (W.contents writer.new) result) }
    ensures fault { result ≡ 3
        → HasLeft (λ after. IsEnded S.Store conn after K.skills (λ _. Unit {0}) R.read_fails W.write_fails E.write_fails
        (R.remaining reader.old) (children_state (K.ledger kids.old) (K.failures kids.old)) (children_state (K.ledger kids.new) (K.failures kids.new)) (W.contents writer.old) (W.contents writer.new) (E.contents errors.old) (E.contents errors.new)) }
{
    let Served { status, conn } = serve(alloc, conn, reader, writer, errors, kids);
    let _store = conn.into_store();
    status
}

/// Does a script over a copy in memory of the database that these bytes hold, and over the children of its services.
/// The status of the run is 0, 1 if a line failed, or 3 for a fault. At the end every child that is left is killed. If
/// the copy does not open, no line is read.
pub fn serve_copy<R: LineReader, W: TextWriter, E: TextWriter, K: Kids>(
    alloc: Global,
    found: &FileBytes,
    reader: &mut R,
    writer: &mut W,
    errors: &mut E,
    kids: &mut K,
) -> Result<u8, Error>
    ensures ok { IfOk result (λ status. status ≢ 3
        → IsOverCopy ⟦<Memory as Disk>⟧ (image_in found.now) (λ conn after. IsDone over_files conn after K.skills
        (R.remaining reader.old) (children_state (K.ledger kids.old) (K.failures kids.old)) (children_state (K.ledger kids.new) (K.failures kids.new)) (W.contents writer.old) (W.contents writer.new) status)) }
    ensures fault { IfOk result (λ status. status ≡ 3
        → IsOverCopy ⟦<Memory as Disk>⟧ (image_in found.now)
        (λ conn after. IsEnded over_files conn after K.skills (λ _. Unit {0}) R.read_fails W.write_fails E.write_fails
        (R.remaining reader.old) (children_state (K.ledger kids.old) (K.failures kids.old)) (children_state (K.ledger kids.new) (K.failures kids.new)) (W.contents writer.old) (W.contents writer.new) (E.contents errors.old) (E.contents errors.new))) }
    ensures err { IfErr result (λ fault. IsUncopied ⟦<Memory as Disk>⟧ (image_in found.now) fault) }
    ensures unread { OnErr result (R.remaining reader.new ≡ R.remaining reader.old) }
    ensures unasked { OnErr result
        (children_state (K.ledger kids.new) (K.failures kids.new)
        ≡ children_state (K.ledger kids.old) (K.failures kids.old)) }
    ensures silent { OnErr result ((W.contents writer.new ≡ W.contents writer.old)
        × (E.contents errors.new ≡ E.contents errors.old)) }
{
    match open_copy(alloc, found) {
        Ok(conn) => Ok(serve_out(alloc, conn, reader, writer, errors, kids)),
        Err(fault) => Err(fault),
    }
}
