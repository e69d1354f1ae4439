//! What a client does: it asks by a line or by a script, and prints the answer.

use crate::answer::lines_if;
use crate::fault::AskFault;
use crate::place::find;
use crate::request::{Reply, ask};
use crate::script::{ends_session, script_of};
use std::io::{BufRead, BufReader, Read, Write};
use std::rt::HostRuntime;
use std::{io, str};

/// The status if something was refused.
pub(crate) const REFUSED: u8 = 1;

/// The status if the words are not taken.
const USAGE: u8 = 2;

/// The status of a fault.
const FAULT: u8 = 3;

/// The status if no answer has come.
pub(crate) const UNANSWERED: u8 = 4;

/// The most bytes of a request.
const MOST: usize = 4_194_304;

/// So many bytes at most are read at once that nobody needs.
const DRAINED: usize = 4_096;

/// The most bytes of one of its lines.
const LONGEST: usize = 65_536;

/// Reads what is left of standard input, so that whoever writes it is not cut off.
fn drain(rt: &HostRuntime) {
    let mut bytes = [0; DRAINED];
    for _ in 0..u64::MAX {
        match rt.reader().read(&mut bytes) {
            Ok(0) | Err(_) => return,
            Ok(_) => {}
        }
    }
}

/// Reads standard input up to and with the line that ends the session, and at most one byte more than a request has.
fn read_session(rt: &HostRuntime) -> io::Result<Vec<u8>> {
    let alloc = rt.alloc();
    let more = (MOST as u64).saturating_add(1);
    let mut reader = BufReader::new(alloc, rt.reader().take(more))?;
    let mut text: Vec<u8> = Vec::new(alloc);
    for _ in 0..u64::MAX {
        let begun = text.len();
        if reader.read_until(b'\n', &mut text)? == 0 || ends_session(&text[begun..]) {
            break;
        }
    }
    Ok(text)
}

/// Who asks, and where.
#[derive(Clone, Copy)]
pub struct Client<'a> {
    /// The folder of the server.
    pub folder: &'a str,
    /// The program for which it is asked: svcs, svcadm, svccfg or smf.
    pub program: &'a str,
    /// Whether an answer is printed as it is. Else what is refused goes to standard error.
    pub whole: bool,
}

/// True if each of these can stand as a word in a line of a script.
fn are_words(words: &[&str]) -> bool {
    words.iter().all(|word| !word.is_empty()
        && !word.contains(|c: char| c.is_ascii_whitespace() || c == '\u{b}'))
}

/// The line of a program and its words.
fn line_of(rt: &HostRuntime, program: &str, words: &[&str]) -> Result<String, AskFault> {
    let mut line = format!(in rt.alloc(); "{program}")?;
    for word in words {
        line.push_str(" ")?;
        line.push_str(word)?;
    }
    line.push_str("\n")?;
    Ok(line)
}

fn print(rt: &HostRuntime, text: &[u8]) -> bool {
    io::writer(rt).write_all(text).is_ok()
}

impl<'a> Client<'a> {
    fn say(&self, rt: &HostRuntime, words: &str) {
        let _told = eprintln!(rt; "{}: {words}", self.program);
    }

    fn bad_usage(&self, rt: &HostRuntime) -> u8 {
        self.say(rt, "bad usage");
        USAGE
    }

    /// True if the words of a request were not taken.
    fn is_refused_whole(&self, rt: &HostRuntime, reply: &Reply) -> Result<bool, AskFault> {
        let first = match str::from_utf8(&reply.text) {
            Ok(text) => text.lines().next().unwrap_or(""),
            Err(_) => "",
        };
        let usage = format!(in rt.alloc(); "{}: bad usage", self.program)?;
        Ok(reply.status == REFUSED && (first == "smf: bad line" || first == usage.as_str()))
    }

    /// Prints an answer: what is refused on standard error, the rest on standard output. Gives the status of both.
    fn show(&self, rt: &HostRuntime, reply: &Reply) -> Result<u8, AskFault> {
        let is_whole = reply.status == 0 || self.whole;
        let is_printed = match str::from_utf8(&reply.text) {
            Ok(text) if !is_whole => {
                let refused = lines_if(rt.alloc(), true, text)?;
                let rest = lines_if(rt.alloc(), false, text)?;
                let _told = rt.stderr().write_all(refused.as_str().as_bytes());
                print(rt, rest.as_str().as_bytes())
            }
            _ => print(rt, &reply.text),
        };
        if is_printed {
            return Ok(reply.status);
        }
        self.say(rt, "output failed");
        Ok(FAULT)
    }

    fn by_line(&self, rt: &HostRuntime, words: &[&str]) -> Result<u8, AskFault> {
        if !are_words(words) {
            return Ok(self.bad_usage(rt));
        }
        let line = line_of(rt, self.program, words)?;
        if line.len() > LONGEST {
            self.say(rt, "the words have more than 64 KiB");
            return Ok(REFUSED);
        }
        let place = find(rt, self.folder)?;
        let reply = ask(
            rt,
            self.folder,
            &place,
            self.program,
            line.as_str().as_bytes(),
        )?;
        if self.is_refused_whole(rt, &reply)? {
            return Ok(self.bad_usage(rt));
        }
        self.show(rt, &reply)
    }

    pub(crate) fn by_script(&self, rt: &HostRuntime, script: &[u8]) -> Result<u8, AskFault> {
        let place = find(rt, self.folder)?;
        if script.len() > MOST {
            self.say(rt, "the lines have more than 4 MiB");
            return Ok(REFUSED);
        }
        let reply = ask(rt, self.folder, &place, self.program, script)?;
        self.show(rt, &reply)
    }

    fn by_lines(&self, rt: &HostRuntime, first: Option<&str>, text: &[u8]) -> Result<u8, AskFault> {
        let script = script_of(rt.alloc(), first.map(|name| name.as_bytes()), text)?;
        if script.len() > MOST {
            drain(rt);
        }
        self.by_script(rt, &script)
    }

    fn place(&self, rt: &HostRuntime) -> Result<u8, AskFault> {
        let place = find(rt, self.folder)?;
        let _printed = print(rt, place.run.as_str().as_bytes());
        Ok(0)
    }

    /// The status of what was done. A fault is told.
    pub(crate) fn status(&self, rt: &HostRuntime, done: Result<u8, AskFault>) -> u8 {
        match done {
            Ok(status) => status,
            Err(AskFault::Told(words)) => {
                self.say(rt, words.as_str());
                UNANSWERED
            }
            Err(AskFault::Memory) => {
                self.say(rt, "no memory");
                FAULT
            }
        }
    }

    /// Asks by a line of the program with these words, and prints the answer.
    pub fn ask_line(&self, rt: &HostRuntime, words: &[&str]) -> u8 {
        self.status(rt, self.by_line(rt, words))
    }

    /// Asks by the script of standard input, and prints the answer.
    pub fn ask_script(&self, rt: &HostRuntime) -> u8 {
        let mut script: Vec<u8> = Vec::new(rt.alloc());
        let more = (MOST as u64).saturating_add(1);
        let read = rt.reader().take(more).read_to_end(&mut script);
        if script.len() > MOST {
            drain(rt);
        }
        match read {
            Ok(_) => self.status(rt, self.by_script(rt, &script)),
            Err(_) => {
                self.say(rt, "input failed");
                FAULT
            }
        }
    }

    /// Asks by the lines of svccfg of standard input, up to the one that ends the session, and prints the answer. The first name is
    /// selected before, if there is one.
    pub fn ask_lines(&self, rt: &HostRuntime, first: Option<&str>) -> u8 {
        if let Some(name) = first {
            if !are_words(&[name]) {
                return self.bad_usage(rt);
            }
        }
        match read_session(rt) {
            Ok(text) => self.status(rt, self.by_lines(rt, first, &text)),
            Err(_) => {
                self.say(rt, "input failed");
                FAULT
            }
        }
    }

    /// Prints the folder of the server that is there, whose name stays the same as long as it lives.
    pub fn print_place(&self, rt: &HostRuntime) -> u8 {
        self.status(rt, self.place(rt))
    }
}
