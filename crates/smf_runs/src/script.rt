ghost use Rattle.std.specs.Prelude.{◌≡◌, ◌≢◌, ◌≤◌, IfErr, IfOk};
ghost use Rattle.smf_edge.specs.Answers.{children_state};
ghost use Rattle.sqlite.specs.Files.{over_files};
ghost use Rattle.smf_runs.specs.Closed.{IsClosedAfter, IsEndedAfter};
ghost use Rattle.smf_runs.specs.Runs.{HasRunOver, IsCut, IsCutOff, IsDone, IsEnded, end_of};

use crate::database_close::close;
use crate::fault_texts::tell_open;
use crate::served::{Closed, Served};
use smf_edge::Kids;
use smf_lines::{LineReader, TextWriter, tell};
use smf_model::{Journal, Plain};
use smf_node::{Node, NodeFault};
use smf_script::{Leftover, ScriptFault, end_all, fault_text, run_script};
use smf_store::open_repository;
use sqlite::{Alter, Connection};
use sqlite_disk::Disk;
use sqlite_store::FileStore;
use std::alloc::{AllocError, Global};

/// The end of a run over a journal.
pub(crate) struct Ended<T, J> {
    pub(crate) end: T,
    /// The journal, as the run left it.
    pub(crate) journal: J,
}

/// How a run ends. Want of memory for the end of children is told first; that their device failed changes no status.
fn end_of(
    end: Result<u8, ScriptFault>,
    left: Result<Leftover, AllocError>,
) -> Result<u8, ScriptFault>
    ensures { result ≡ end_of end left }
{
    match left {
        Ok(_) => end,
        Err(_) => Err(ScriptFault::Node(NodeFault::Memory)),
    }
}

/// Does a script over a repository and the children of its services. At the end every child that is left is killed and
/// waited for. The journal is handed back.
fn run_over<J: Journal + Drop, R: LineReader, W: TextWriter, K: Kids>(
    alloc: Global,
    repository: Plain<J>,
    reader: &mut R,
    writer: &mut W,
    kids: &mut K,
) -> Ended<Result<u8, ScriptFault>, J>
    ensures ran { IfOk result.end (λ status.
        HasRunOver K.skills (J.stands result.journal) repository.held (R.remaining reader.old) (children_state (K.ledger kids.old) (K.failures kids.old)) (children_state (K.ledger kids.new) (K.failures kids.new)) (W.contents writer.old) (W.contents writer.new) status) }
    ensures exit { IfOk result.end (λ status. status ≤ 1) }
    ensures cut { IfErr result.end (λ fault.
        IsCutOff K.skills J.write_fails (J.stands result.journal) R.read_fails W.write_fails repository.held (R.remaining reader.old) (children_state (K.ledger kids.old) (K.failures kids.old)) (children_state (K.ledger kids.new) (K.failures kids.new)) (W.contents writer.old) (W.contents writer.new) fault) }
{
    let mut node = match Node::new(alloc, repository) {
        Ok(node) => node,
        Err((fault, repository)) => {
            return Ended {
                end: Err(ScriptFault::Node(fault)),
                journal: repository.into_journal(),
            };
        }
    };
    let end = run_script(alloc, reader, writer, &mut node, kids);
    let left = end_all(kids);
    let journal = node.into_repository().into_journal();
    Ended {
        end: end_of(end, left),
        journal,
    }
}

/// Does a script over a repository and the children of its services, gives the status of the run, and hands the journal
/// back.
pub(crate) fn serve_over<J: Journal + Drop, R: LineReader, W: TextWriter, E: TextWriter, K: Kids>(
    alloc: Global,
    repository: Plain<J>,
    reader: &mut R,
    writer: &mut W,
    errors: &mut E,
    kids: &mut K,
) -> Ended<u8, J>
    ensures ok { result.end ≢ 3 → HasRunOver K.skills (J.stands result.journal) repository.held
        (R.remaining reader.old) (children_state (K.ledger kids.old) (K.failures kids.old)) (children_state (K.ledger kids.new) (K.failures kids.new)) (W.contents writer.old) (W.contents writer.new) result.end }
    ensures fault { result.end ≡ 3
        → IsCut K.skills J.write_fails (J.stands result.journal) R.read_fails W.write_fails E.write_fails
        repository.held
        (R.remaining reader.old) (children_state (K.ledger kids.old) (K.failures kids.old)) (children_state (K.ledger kids.new) (K.failures kids.new)) (W.contents writer.old) (W.contents writer.new) (E.contents errors.old) (E.contents errors.new) }
{
    let Ended { end, journal } = run_over(alloc, repository, reader, writer, kids);
    match end {
        Ok(status) => Ended {
            end: status,
            journal,
        },
        Err(fault) => {
            let status = tell(errors, fault_text(&fault));
            Ended {
                end: status,
                journal,
            }
        }
    }
}

/// Does a script over a database and the children of its services. The status of the run is 0, 1 if a line failed, or 3
/// for a fault. At the end every child that is left is killed and waited for. The database is handed back.
pub fn serve<S: Alter + Drop, R: LineReader, W: TextWriter, E: TextWriter, K: Kids>(
    alloc: Global,
    conn: Connection<S>,
    reader: &mut R,
    writer: &mut W,
    errors: &mut E,
    kids: &mut K,
) -> Served<S>
    ensures ok { result.status ≢ 3 → IsDone S.Store conn result.conn K.skills
        (R.remaining reader.old) (children_state (K.ledger kids.old) (K.failures kids.old)) (children_state (K.ledger kids.new) (K.failures kids.new)) (W.contents writer.old) (W.contents writer.new) result.status }
    ensures fault { result.status ≡ 3
        → IsEnded S.Store conn result.conn K.skills (λ _. Unit {0}) R.read_fails W.write_fails E.write_fails
        (R.remaining reader.old) (children_state (K.ledger kids.old) (K.failures kids.old)) (children_state (K.ledger kids.new) (K.failures kids.new)) (W.contents writer.old) (W.contents writer.new) (E.contents errors.old) (E.contents errors.new) }
{
    match open_repository(alloc, conn) {
        Ok(repository) => {
            let Ended { end, journal } = serve_over(
                alloc, repository, reader, writer, errors, kids,
            );
            Served {
                status: end,
                conn: journal.release(),
            }
        }
        Err((fault, conn)) => {
            let status = tell_open(alloc, errors, &fault);
            Served { status, conn }
        }
    }
}

/// Does a script over the database in two files and the children of its services, and closes the database. The status
/// of the run is 0, 1 if a line failed, or 3 for a fault, also one of the close.
pub fn serve_file<D: Disk + Drop, R: LineReader, W: TextWriter, E: TextWriter, K: Kids>(
    alloc: Global,
    conn: Connection<FileStore<D>>,
    reader: &mut R,
    writer: &mut W,
    errors: &mut E,
    kids: &mut K,
) -> Closed<D>
    ensures ok { result.status ≢ 3 → IsClosedAfter (λ after. IsDone over_files conn after K.skills
        (R.remaining reader.old) (children_state (K.ledger kids.old) (K.failures kids.old)) (children_state (K.ledger kids.new) (K.failures kids.new)) (W.contents writer.old) (W.contents writer.new) result.status) result.files }
    ensures fault { result.status ≡ 3 → IsEndedAfter
        (λ after status. IsDone over_files conn after K.skills
        (R.remaining reader.old) (children_state (K.ledger kids.old) (K.failures kids.old)) (children_state (K.ledger kids.new) (K.failures kids.new)) (W.contents writer.old) (W.contents writer.new) status)
        (λ after told. IsEnded over_files conn after K.skills (λ _. Unit {0}) R.read_fails W.write_fails E.write_fails
        (R.remaining reader.old) (children_state (K.ledger kids.old) (K.failures kids.old)) (children_state (K.ledger kids.new) (K.failures kids.new)) (W.contents writer.old) (W.contents writer.new) (E.contents errors.old) told)
        E.write_fails result.files (E.contents errors.new) }
{
    let served = serve(alloc, conn, reader, writer, errors, kids);
    close(served, errors)
}
