// Scripts, questions and lines of svccfg over the database in a file.
use crate::sites::lines_of_site;
use smf_edge::TableKids;
use smf_fmri::{Items, Text};
use smf_host::{Database, read_files};
use smf_lines::{LineReader, NotedReader};
use smf_program::{tell_no_database, tell_no_input, tell_no_memory};
use smf_runs::{Closed, check_copy, programs_copy, serve_cfg_file, serve_copy, why_copy};
use std::alloc::AllocError;
use std::fs::File;
use std::io::BufReader;
use std::{fs, io};

/// Does a script over a copy in memory of the database in a file, with processes that a contract table simulates. No
/// file is written.
pub(crate) fn sim_over(rt: &HostRuntime, database: &str) -> io::Result<u8> {
    let alloc = rt.alloc();
    let mut reader = NotedReader::new(BufReader::new(alloc, rt.reader())?);
    let mut errors = rt.stderr();
    let found = match read_files(rt, database) {
        Ok(found) => found,
        Err(fault) => return Ok(tell_no_database(&mut errors, &fault)),
    };
    let ran = serve_copy(
        alloc,
        &found,
        &mut reader,
        &mut io::writer(rt),
        &mut errors,
        &mut TableKids::new(alloc),
    );
    Ok(match ran {
        Ok(status) => status,
        Err(fault) => tell_no_database(&mut errors, &fault),
    })
}

/// Tells why instances that the database in a file has do not run: those that words mean, or all without words. No file
/// is written.
pub(crate) fn why_over(rt: &HostRuntime, database: &str, words: &[&str]) -> u8 {
    let mut errors = rt.stderr();
    let found = match read_files(rt, database) {
        Ok(found) => found,
        Err(fault) => return tell_no_database(&mut errors, &fault),
    };
    let told = why_copy(rt.alloc(), &found, words, &mut io::writer(rt), &mut errors);
    match told {
        Ok(status) => status,
        Err(fault) => tell_no_database(&mut errors, &fault),
    }
}

/// False only if the system says that a file is not there.
fn may_be_there(rt: &HostRuntime, path: &str) -> bool {
    fs::exists(rt, path).unwrap_or(true)
}

/// Those of some programs that are not there.
fn missing_of(rt: &HostRuntime, programs: &[Text]) -> Result<Items<Text>, AllocError> {
    let mut missing = Items::new(rt.alloc());
    for program in programs {
        if !may_be_there(rt, program.as_str()) {
            missing.push(program.clone()?)?;
        }
    }
    Ok(missing)
}

/// Tells what is wrong of the instances that the database in a file has, and what is likely a mistake. No file is
/// written.
pub(crate) fn check_over(rt: &HostRuntime, database: &str) -> u8 {
    let alloc = rt.alloc();
    let mut errors = rt.stderr();
    let found = match read_files(rt, database) {
        Ok(found) => found,
        Err(fault) => return tell_no_database(&mut errors, &fault),
    };
    let programs = match programs_copy(alloc, &found, &mut errors) {
        Ok(Some(programs)) => programs,
        Ok(None) => return 3,
        Err(fault) => return tell_no_database(&mut errors, &fault),
    };
    let Ok(missing) = missing_of(rt, programs.as_slice()) else {
        return tell_no_memory(&mut errors);
    };
    let missing = missing.as_slice();
    match check_copy(alloc, &found, missing, &mut io::writer(rt), &mut errors) {
        Ok(status) => status,
        Err(fault) => tell_no_database(&mut errors, &fault),
    }
}

/// True for the name of a file of tables.
pub(crate) fn is_site(path: &str) -> bool {
    path.ends_with(".toml")
}

/// Does the lines that make the services of a file of tables.
fn site_over(rt: &HostRuntime, site: &str, database: &str) -> u8 {
    match lines_of_site(rt, site) {
        Ok(lines) => cfg_of(rt, &mut lines.as_slice(), database),
        Err(status) => status,
    }
}

/// Does lines of svccfg over the database in a file: those of another file, those that make the services of a file of
/// tables, or those of standard input.
pub(crate) fn cfg_over(rt: &HostRuntime, lines: Option<&str>, database: &str) -> io::Result<u8> {
    let alloc = rt.alloc();
    match lines {
        Some(path) if is_site(path) => Ok(site_over(rt, path, database)),
        Some(path) => {
            let Ok(file) = File::open(rt, path) else {
                return Ok(tell_no_input(&mut rt.stderr()));
            };
            let mut reader = NotedReader::new(BufReader::new(alloc, file)?);
            Ok(cfg_of(rt, &mut reader, database))
        }
        None => {
            let mut reader = NotedReader::new(BufReader::new(alloc, rt.reader())?);
            Ok(cfg_of(rt, &mut reader, database))
        }
    }
}

/// Does lines of svccfg over the database in a file.
fn cfg_of<R: LineReader>(rt: &HostRuntime, reader: &mut R, path: &str) -> u8 {
    let mut errors = rt.stderr();
    match Database::open(rt, path) {
        Ok(database) => {
            let Closed { status, files: _ } = serve_cfg_file(
                rt.alloc(),
                database.into_connection(),
                reader,
                &mut io::writer(rt),
                &mut errors,
            );
            status
        }
        Err(fault) => tell_no_database(&mut errors, &fault),
    }
}
