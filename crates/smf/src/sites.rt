// Files of tables that are services.
use smf_lines::{TextWriter, tell};
use smf_program::{tell_no_input, tell_no_memory};
use smf_toml::{SiteFault, entries_of, lines_of};
use std::{fs, io};

/// The status if a file does not say services.
const REFUSED: u8 = 1;

fn lines_in(rt: &HostRuntime, text: &str) -> Result<Vec<u8>, SiteFault> {
    let alloc = rt.alloc();
    let entries = entries_of(alloc, text)?;
    Ok(lines_of(alloc, entries.as_slice())?)
}

/// Tells why a file makes no lines. Gives the status of such a run.
fn tell_fault(rt: &HostRuntime, site: &str, fault: &SiteFault) -> u8 {
    let mut errors = rt.stderr();
    match fault {
        SiteFault::Memory => tell_no_memory(&mut errors),
        SiteFault::At { line, why } => {
            match format!(in rt.alloc(); "smf: {site}:{line}: {why}\n") {
                Ok(text) => {
                    let _told = errors.write_text(text.as_bytes());
                    REFUSED
                }
                Err(_) => tell_no_memory(&mut errors),
            }
        }
    }
}

/// The lines of svccfg that make the services of a file. If it makes none, that was told, and this is the status.
pub(crate) fn lines_of_site(rt: &HostRuntime, site: &str) -> Result<Vec<u8>, u8> {
    let Ok(text) = fs::read_to_string(rt, site) else {
        return Err(tell_no_input(&mut rt.stderr()));
    };
    match lines_in(rt, text.as_str()) {
        Ok(lines) => Ok(lines),
        Err(fault) => Err(tell_fault(rt, site, &fault)),
    }
}

/// Prints the lines that make the services of a file.
pub(crate) fn compile(rt: &HostRuntime, site: &str) -> u8 {
    let lines = match lines_of_site(rt, site) {
        Ok(lines) => lines,
        Err(status) => return status,
    };
    match io::writer(rt).write_text(lines.as_slice()) {
        Ok(()) => 0,
        Err(_) => tell(&mut rt.stderr(), "smf: output failed"),
    }
}
