// Scripts behind which it is asked on what evidence instances were started and stopped last.
use crate::exports::{REFUSED, write_out};
use smf_admin::{is_named, patterns_of, unmatched_words};
use smf_edge::{Kids, TableKids};
use smf_fmri::Text;
use smf_host::{Provenance, read_files};
use smf_lines::{NotedReader, TextWriter, tell};
use smf_model::{Journal, NoJournal, Plain};
use smf_node::{Node, NodeFault};
use smf_program::{tell_no_database, tell_no_memory};
use smf_runs::{Served, missed_text, open_copy, tell_open, texts_of};
use smf_script::{ScriptFault, end_all, fault_text, run_script};
use smf_state::View;
use smf_store::open_repository;
use sqlite::{Alter, Connection};
use std::alloc::AllocError;
use std::io;
use std::io::BufReader;

/// A script that is done: the status of the run, and the journal.
struct Done<J: Journal> {
    status: u8,
    journal: J,
}

/// Tells a fault that ended a script. Gives the status of such a run.
fn tell_fault(rt: &HostRuntime, fault: &ScriptFault) -> u8 {
    tell(&mut rt.stderr(), fault_text(fault))
}

/// Prints the blocks of the instances that words mean.
fn print_blocks(
    rt: &HostRuntime,
    told: &Provenance,
    view: &View,
    words: &[Text],
) -> Result<u8, AllocError> {
    let alloc = rt.alloc();
    let patterns = patterns_of(alloc, words)?;
    let mut text = String::new(alloc);
    for item in view.items.as_slice() {
        if is_named(patterns.as_slice(), &item.name) {
            told.put_block(&mut text, &item.name)?;
        }
    }
    Ok(write_out(rt, text.as_bytes()))
}

/// Prints on what evidence the instances that a word means were started and stopped last. Gives the status: 1 if it means
/// none, which is told.
fn answer<J: Journal>(rt: &HostRuntime, node: &Node<J>, question: &str) -> Result<u8, AllocError> {
    let alloc = rt.alloc();
    let mut told = Provenance::new(alloc);
    told.follow_whole(node)?;
    let view = node.repository().view()?;
    let words = texts_of(alloc, &[question])?;
    let missed = unmatched_words(alloc, view.items.as_slice(), words.as_slice())?;
    if !missed.as_slice().is_empty() {
        let text = missed_text(alloc, missed.as_slice())?;
        let _told = rt.stderr().write_text(text.as_str().as_bytes());
        return Ok(REFUSED);
    }
    print_blocks(rt, &told, &view, words.as_slice())
}

/// Does the script of standard input over a node and the children of its services, which are ended then.
fn do_script<J: Journal, K: Kids>(
    rt: &HostRuntime,
    node: &mut Node<J>,
    kids: &mut K,
) -> Result<u8, ScriptFault> {
    let alloc = rt.alloc();
    let Ok(buffered) = BufReader::new(alloc, rt.reader()) else {
        return Err(ScriptFault::Node(NodeFault::Memory));
    };
    let mut reader = NotedReader::new(buffered);
    let ran = run_script(alloc, &mut reader, &mut io::writer(rt), node, kids);
    match end_all(kids) {
        Ok(_left) => ran,
        Err(_) => Err(ScriptFault::Node(NodeFault::Memory)),
    }
}

/// Does a script, and then answers the question. Gives the status of the run.
fn do_asked<J: Journal, K: Kids>(
    rt: &HostRuntime,
    node: &mut Node<J>,
    kids: &mut K,
    question: &str,
) -> u8 {
    match do_script(rt, node, kids) {
        Err(fault) => tell_fault(rt, &fault),
        Ok(status) => match answer(rt, node, question) {
            Ok(answered) => status.max(answered),
            Err(_) => tell_no_memory(&mut rt.stderr()),
        },
    }
}

/// Does a script over a repository, and then answers the question.
fn ask_over<J: Journal + Drop, K: Kids>(
    rt: &HostRuntime,
    repository: Plain<J>,
    kids: &mut K,
    question: &str,
) -> Done<J> {
    match Node::new(rt.alloc(), repository) {
        Ok(node) => {
            let mut node = node;
            let status = do_asked(rt, &mut node, kids, question);
            Done {
                status,
                journal: node.into_repository().into_journal(),
            }
        }
        Err((fault, repository)) => Done {
            status: tell_fault(rt, &ScriptFault::Node(fault)),
            journal: repository.into_journal(),
        },
    }
}

/// Does a script over an open database and the children of its services, and then answers the question. It takes any store:
/// a proof over a store in files takes far longer.
pub(crate) fn ask_behind<S: Alter + Drop, K: Kids>(
    rt: &HostRuntime,
    conn: Connection<S>,
    kids: &mut K,
    question: &str,
) -> Served<S> {
    match open_repository(rt.alloc(), conn) {
        Ok(repository) => {
            let Done { status, journal } = ask_over(rt, repository, kids, question);
            Served {
                status,
                conn: journal.release(),
            }
        }
        Err((fault, conn)) => Served {
            status: tell_open(rt.alloc(), &mut rt.stderr(), &fault),
            conn,
        },
    }
}

/// Does a script in memory over nothing, and then answers the question.
fn ask_of_nothing(rt: &HostRuntime, question: &str) -> u8 {
    let repository = Plain::new(rt.alloc(), NoJournal {});
    let mut kids = TableKids::new(rt.alloc());
    let Done {
        status,
        journal: _journal,
    } = ask_over(rt, repository, &mut kids, question);
    status
}

/// Does a script over a copy in memory of the database in a file, and then answers the question. No file is written.
fn ask_of_copy(rt: &HostRuntime, question: &str, database: &str) -> u8 {
    let mut errors = rt.stderr();
    let found = match read_files(rt, database) {
        Ok(found) => found,
        Err(fault) => return tell_no_database(&mut errors, &fault),
    };
    match open_copy(rt.alloc(), &found) {
        Ok(conn) => {
            let mut kids = TableKids::new(rt.alloc());
            let Served { status, conn } = ask_behind(rt, conn, &mut kids, question);
            let _store = conn.into_store();
            status
        }
        Err(fault) => tell_no_database(&mut errors, &fault),
    }
}

/// Does a script in memory, with processes that a contract table simulates, over nothing or over what a database holds, and
/// then answers the question.
pub(crate) fn ask_behind_sim(rt: &HostRuntime, question: &str, database: Option<&str>) -> u8 {
    match database {
        None => ask_of_nothing(rt, question),
        Some(database) => ask_of_copy(rt, question, database),
    }
}
