// Scripts over a database, with contracts that are followed through forks.
use crate::questions::ask_behind;
use smf_edge::{Contracts, FollowedKids};
use smf_host::{
    Database, RoomHold, close_room, end_listed, form_text, note_run, room_text, take_room,
};
use smf_keeper::{BeginFault, Manner, boot};
use smf_lines::{NotedReader, tell};
use smf_program::tell_no_database;
use smf_runs::{Closed, close, serve_file};
use std::io;
use std::io::BufReader;

/// The text that tells why no life begins in a room.
pub(crate) fn begin_text(fault: &BeginFault) -> &'static str {
    match fault {
        BeginFault::Left => "smf: contracts: what an older server left does not end",
        BeginFault::Io(_) => "smf: contracts: they cannot be followed",
    }
}

/// Does a script over an open database, with contracts that are followed. It takes any contracts: a proof that names those
/// of the system together with the children takes far longer.
fn serve<C: Contracts + Drop>(
    rt: &HostRuntime,
    question: Option<&str>,
    database: Database,
    contracts: C,
) -> io::Result<u8> {
    let alloc = rt.alloc();
    let mut kids = FollowedKids::new(alloc, contracts);
    if let Some(question) = question {
        let served = ask_behind(rt, database.into_connection(), &mut kids, question);
        let Closed { status, files: _ } = close(served, &mut rt.stderr());
        return Ok(status);
    }
    let mut reader = NotedReader::new(BufReader::new(alloc, rt.reader())?);
    let Closed { status, files: _ } = serve_file(
        alloc,
        database.into_connection(),
        &mut reader,
        &mut io::writer(rt),
        &mut rt.stderr(),
        &mut kids,
    );
    Ok(status)
}

/// Does a script with the contracts of a room. What an older life left there is ended first.
fn follow(
    rt: &HostRuntime,
    question: Option<&str>,
    database: Database,
    hold: RoomHold<'_>,
) -> io::Result<u8> {
    let RoomHold {
        folder,
        path,
        groups,
    } = hold;
    note_run(rt, path.as_str())?;
    match boot(rt.alloc(), folder, Manner::AtOnce) {
        Ok(contracts) => {
            eprintln!(rt; "{}", form_text(&groups))?;
            let status = serve(rt, question, database, contracts)?;
            close_room(rt, path.as_str(), &groups);
            Ok(status)
        }
        Err(fault) => Ok(tell(&mut rt.stderr(), begin_text(&fault))),
    }
}

/// Does a script over the database in a file, with contracts that are followed.
pub(crate) fn follow_over(rt: &HostRuntime, question: Option<&str>, path: &str) -> io::Result<u8> {
    let mut errors = rt.stderr();
    let database = match Database::open(rt, path) {
        Ok(database) => database,
        Err(fault) => return Ok(tell_no_database(&mut errors, &fault)),
    };
    if let Some(status) = end_listed(rt, path)? {
        return Ok(status);
    }
    match take_room(rt, path) {
        Ok(hold) => follow(rt, question, database, hold),
        Err(fault) => Ok(tell(&mut errors, room_text(&fault))),
    }
}
