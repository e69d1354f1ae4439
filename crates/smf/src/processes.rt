// Scripts over a database and processes of the system, whose children are listed beside it.
use crate::questions::ask_behind;
use smf_edge::OsKids;
use smf_host::{Database, list_of, path_beside, place_of, tell_sweep};
use smf_lines::NotedReader;
use smf_program::tell_no_database;
use smf_runs::{Closed, close, serve_file};
use smf_sweep::Lister;
use std::io;
use std::io::BufReader;

/// Does a script over an open database, with children that are listed: an older run has ended. A question may be answered
/// behind it.
fn run_listed(
    rt: &HostRuntime,
    question: Option<&str>,
    database: Database,
    lister: &Lister<&HostRuntime>,
) -> io::Result<u8> {
    let alloc = rt.alloc();
    let mut kids = OsKids::new(alloc, lister, rt.stderr());
    if let Some(question) = question {
        let served = ask_behind(rt, database.into_connection(), &mut kids, question);
        let Closed { status, files: _ } = close(served, &mut rt.stderr());
        return Ok(status);
    }
    let mut reader = NotedReader::new(BufReader::new(alloc, rt.reader())?);
    let Closed { status, files: _ } = serve_file(
        alloc,
        database.into_connection(),
        &mut reader,
        &mut io::writer(rt),
        &mut rt.stderr(),
        &mut kids,
    );
    Ok(status)
}

/// Does a script over the database in a file, with processes of the system. It first ends what an older run left.
pub(crate) fn run_over(rt: &HostRuntime, question: Option<&str>, path: &str) -> io::Result<u8> {
    let lock = path_beside(rt, path, "lock")?;
    let database = match Database::open(rt, path) {
        Ok(database) => database,
        Err(fault) => return Ok(tell_no_database(&mut rt.stderr(), &fault)),
    };
    let list = list_of(rt, path)?;
    let place = place_of(rt, path, lock)?;
    match Lister::take(rt.alloc(), rt, place) {
        Ok(mut lister) => {
            let status = run_listed(rt, question, database, &lister)?;
            let _closed = lister.close();
            Ok(status)
        }
        Err(fault) => tell_sweep(rt, list.as_str(), fault),
    }
}
