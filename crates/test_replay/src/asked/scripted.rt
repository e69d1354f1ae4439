// Contracts whose answers are written down.
use smf_edge::{Contracts, FirstEnd, Stand, Start};
use std::alloc::Global;
use std::io;

/// Contracts that answer what their commands say: how they stand, in turn, and after `|` whether nothing is left when
/// they are asked to end. The last answer is given again and again.
#[derive(Drop)]
pub(crate) struct Scripted {
    alloc: Global,
}

/// The answers of a contract. None is no answer.
#[derive(Drop)]
pub(crate) struct Script {
    stands: Vec<Option<Stand>>,
    stood: usize,
    ends: Vec<Option<bool>>,
    ended: usize,
}

impl Scripted {
    pub(crate) fn new(alloc: Global) -> Scripted {
        Scripted { alloc }
    }
}

fn read_end(text: &str) -> Option<FirstEnd> {
    match text {
        "signal" => Some(FirstEnd::Signal),
        "core" => Some(FirstEnd::Core),
        digits => digits.parse::<u8>().ok().map(FirstEnd::Code),
    }
}

/// How a contract stands, by a word: `runs`, `left:END` or `gone:END`.
fn read_stand(word: &str) -> Option<Stand> {
    if word == "runs" {
        return Some(Stand::Runs);
    }
    let (how, end) = word.split_once(':')?;
    match how {
        "left" => read_end(end).map(Stand::Left),
        "gone" => read_end(end).map(Stand::Gone),
        _ => None,
    }
}

/// True if nothing is left, by a word: `done` or `living`.
fn read_done(word: &str) -> Option<bool> {
    match word {
        "done" => Some(true),
        "living" => Some(false),
        _ => None,
    }
}

/// The answer that is next, and the place of the one after it.
fn next<T: Copy>(answers: &[Option<T>], at: usize) -> (Option<T>, usize) {
    let answer = match answers.get(at) {
        Some(answer) => *answer,
        None => None,
    };
    if at.saturating_add(1) < answers.len() {
        (answer, at.saturating_add(1))
    } else {
        (answer, at)
    }
}

fn no_answer() -> io::Error {
    io::Error::from(io::ErrorKind::Other)
}

impl Contracts for Scripted {
    ghost use Rattle.std.specs.Prelude.{None};

    type Held = Script;

    ghost facts = { record {
      is_of = λ _ _. Unit {0};
      start_fails = λ _. Unit {0};
      stands = λ _ _. Unit {0};
      is_lost = λ _. Unit {0};
      is_ended = λ _. Unit {0};
      may_live = λ _. Unit {0};
    } };

    ghost made = { λ _. None };

    fn start(&mut self, start: &Start) -> io::Result<Script> {
        let text = start.command.as_str();
        if text == "refused" {
            return Err(no_answer());
        }
        let (before, after) = text.split_once(" | ").unwrap_or((text, "done"));
        let mut stands = Vec::new(self.alloc);
        for word in before.split(' ') {
            stands.push(read_stand(word))?;
        }
        let mut ends = Vec::new(self.alloc);
        for word in after.split(' ') {
            ends.push(read_done(word))?;
        }
        Ok(Script {
            stands,
            stood: 0,
            ends,
            ended: 0,
        })
    }

    fn stand(&mut self, script: &mut Script) -> io::Result<Stand> {
        let (answer, at) = next(script.stands.as_slice(), script.stood);
        script.stood = at;
        answer.ok_or_else(no_answer)
    }

    fn end(&mut self, script: &mut Script) -> io::Result<bool> {
        let (answer, at) = next(script.ends.as_slice(), script.ended);
        script.ended = at;
        answer.ok_or_else(no_answer)
    }
}
