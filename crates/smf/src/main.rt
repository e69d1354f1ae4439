//! `smf`: does scripts of a service manager on standard input, and lines of svccfg over a database. A script runs over
//! a repository in memory, a copy in memory of a database, or a database and the processes of its services. This crate
//! joins what the system has with what the crates below decide.
//! Modules: `files` (databases in files), `sites` (files of tables), `exports` (what databases hold, as lines), `backups` (whole copies of databases), `shows` (what they hold, for people and for programs), `pasts` (what their chronicles tell), `plans` (in which order their services would stop), `audits` (whether trails are safe), `contracts` (contracts that are followed through forks), `processes`
//! (processes of the system), `questions` (what is asked behind scripts), `server` (a service manager that stays), `boot` (boots that fail), `beginnings` (how lives begin, as records have it),
//! `records` (what stands in them), `replays` (records that are run again), `times` (times as people write them).
#![tactic(auto)]

mod audits;
mod backups;
mod beginnings;
mod boot;
mod contracts;
mod exports;
mod files;
mod pasts;
mod plans;
mod processes;
mod questions;
mod records;
mod replays;
mod server;
mod shows;
mod sites;
mod times;

use crate::audits::audit_file;
use crate::backups::{SHARED, copy_database};
use crate::contracts::follow_over;
use crate::exports::{diff_over, export_over};
use crate::files::{cfg_over, check_over, sim_over, why_over};
use crate::plans::plan_stop_over;
use crate::processes::run_over;
use crate::questions::ask_behind_sim;
use crate::replays::replay_over;
use crate::server::serve_over;
use crate::shows::{prop_over, show_over};
use crate::sites::compile;
use sha2::{Digest, Sha256};
use smf_ask::Client;
use smf_edge::TableKids;
use smf_host::{Hold, take_alone};
use smf_lines::NotedReader;
use smf_program::{
    AskForm, Refusal, Task, read_task, refusal_of_words, refuse, show_version, tell_no_memory,
};
use smf_runs::serve_sim;
use std::io::BufReader;
use std::path::PathBuf;
use std::process::ExitCode;
use std::{env, fs, io};

/// Does a script in memory, over processes that a contract table simulates.
fn sim(rt: &HostRuntime) -> io::Result<u8> {
    let alloc = rt.alloc();
    let mut reader = NotedReader::new(BufReader::new(alloc, rt.reader())?);
    Ok(serve_sim(
        alloc,
        &mut reader,
        &mut io::writer(rt),
        &mut rt.stderr(),
        &mut TableKids::new(alloc),
    ))
}

/// Does a script in memory, over nothing or over what a database holds, and answers a question behind it, if there is one.
fn sim_or_ask(rt: &HostRuntime, question: Option<&str>, database: Option<&str>) -> io::Result<u8> {
    match (question, database) {
        (Some(question), _) => Ok(ask_behind_sim(rt, question, database)),
        (None, None) => sim(rt),
        (None, Some(database)) => sim_over(rt, database),
    }
}

fn do_task(rt: &HostRuntime, task: &Task<'_>) -> io::Result<u8> {
    match task {
        Task::Sim { question, database } => sim_or_ask(rt, *question, *database),
        Task::Why { database, words } => Ok(why_over(rt, database, words.as_slice())),
        Task::Check { database } => Ok(check_over(rt, database)),
        Task::Compile { site } => Ok(compile(rt, site)),
        Task::Export { database, words } => Ok(export_over(rt, database, words.as_slice())),
        Task::Diff {
            lead,
            database,
            lines,
        } => diff_over(rt, database, lines, *lead),
        Task::Show {
            listing,
            database,
            words,
        } => Ok(show_over(rt, database, words.as_slice(), listing)),
        Task::Prop {
            configured,
            name,
            database,
            words,
        } => Ok(prop_over(rt, database, words.as_slice(), *configured, *name)),
        Task::PlanStop {
            patience,
            timeout,
            database,
        } => Ok(plan_stop_over(rt, database, *patience, *timeout)),
        Task::Audit { trail } => Ok(audit_file(rt, trail)),
        Task::Backup { database, copy } => Ok(copy_database(rt, database, copy, SHARED)),
        Task::Run { database, .. } => do_alone(rt, database, task),
        Task::Cfg { database, .. } => do_alone(rt, database, task),
        Task::Serve {
            recording,
            folder,
            database,
        } => serve_over(rt, *recording, folder, database),
        Task::Replay {
            until,
            lines,
            request,
            recorded,
        } => replay_over(rt, recorded, *until, *lines, *request),
        Task::Ask {
            form,
            first,
            folder,
            program,
            words,
        } => {
            let client = Client {
                folder,
                program,
                whole: form.whole,
            };
            Ok(ask(rt, *form, *first, client, words.as_slice()))
        }
    }
}

/// Asks the server of a folder: by a line of words, by a script, or by lines of svccfg, which may be typed. Or it tells where the
/// server is.
fn ask(
    rt: &HostRuntime,
    form: AskForm,
    first: Option<&str>,
    client: Client<'_>,
    words: &[&str],
) -> u8 {
    if form.place {
        client.print_place(rt)
    } else if form.talk {
        client.talk(rt)
    } else if form.cfg {
        client.ask_lines(rt, first)
    } else if form.script {
        client.ask_script(rt)
    } else {
        client.ask_line(rt, words)
    }
}

/// Does a task over a database that no other program has.
fn do_alone(rt: &HostRuntime, database: &str, task: &Task<'_>) -> io::Result<u8> {
    match take_alone(rt, database)? {
        Hold::Ours(_lock) => do_held(rt, task),
        Hold::Refused(status) => Ok(status),
    }
}

/// Does a task over a database that is held.
fn do_held(rt: &HostRuntime, task: &Task<'_>) -> io::Result<u8> {
    match task {
        Task::Run {
            follow: false,
            question,
            database,
        } => run_over(rt, *question, database),
        Task::Run {
            follow: true,
            question,
            database,
        } => follow_over(rt, *question, database),
        Task::Cfg { lines, database } => cfg_over(rt, *lines, database),
        _ => Ok(0),
    }
}

/// The system's words.
fn words(rt: &HostRuntime) -> io::Result<Vec<String>> {
    let words: Vec<String> = env::args(rt)?.collect(rt.alloc())?;
    Ok(words)
}

/// What the file `smf_version` beside the helpers says.
fn facts(rt: &HostRuntime) -> io::Result<String> {
    let alloc = rt.alloc();
    let path = match env::var(rt, "SMF_LIBEXEC") {
        Ok(folder) => format!(in alloc; "{folder}/smf_version")?,
        Err(_) => {
            let program: PathBuf = env::current_exe(rt)?;
            let folder = match program.parent() {
                Some(folder) => folder.as_str(),
                None => ".",
            };
            format!(in alloc; "{folder}/../libexec/smf_version")?
        }
    };
    fs::read_to_string(rt, path.as_str())
}

/// The line of this program's own sum, with the end of the line before it.
fn sum_line(rt: &HostRuntime) -> io::Result<String> {
    let program: Vec<u8> = fs::read(rt, "/proc/self/exe")?;
    let mut line = format!(in rt.alloc(); "\nsha256 ")?;
    for byte in &Sha256::digest(program.as_slice()) {
        write!(line, "{byte:02x}")?;
    }
    line.push('\n')?;
    Ok(line)
}

/// Shows the version, as far as the file says it of this program.
fn version(rt: &HostRuntime) -> u8 {
    let facts = facts(rt).unwrap_or(String::new(rt.alloc()));
    let mut errors = rt.stderr();
    match sum_line(rt) {
        Ok(sum) => show_version(
            &mut io::writer(rt),
            &mut errors,
            facts.as_str(),
            Some(sum.as_str()),
        ),
        Err(_) => show_version(&mut io::writer(rt), &mut errors, facts.as_str(), None),
    }
}

/// Reads the words, and does what they ask for.
fn run(rt: &HostRuntime) -> io::Result<u8> {
    let words = match words(rt) {
        Ok(words) => words,
        Err(e) => {
            let refusal = refusal_of_words(&e);
            return Ok(refuse(&mut io::writer(rt), &mut rt.stderr(), &refusal));
        }
    };
    match read_task(rt.alloc(), words.as_slice()) {
        Ok(task) => do_task(rt, &task),
        Err(Refusal::Version) => Ok(version(rt)),
        Err(refusal) => Ok(refuse(&mut io::writer(rt), &mut rt.stderr(), &refusal)),
    }
}

fn main(rt: HostRuntime) -> ExitCode {
    let status = match run(&rt) {
        Ok(status) => status,
        Err(_) => tell_no_memory(&mut rt.stderr()),
    };
    ExitCode::from(status)
}
