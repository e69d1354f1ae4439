// The record of a server: what was given to it, in a file.
use crate::chronicles::FileChronicle;
use crate::desk::FileDesk;
use crate::trail::milliseconds;
use smf_model::{Journal, Plain};
use smf_node::Node;
use smf_record::{Answer, AnswerText, Moment, Sink, TimeSink};
use smf_watch::{Chronicle, Desk, Retry, ServerInput};
use smf_world::{Item, trail_text};
use std::alloc::AllocError;
use std::cell::RefCell;
use std::fs::File;
use std::io::Write;
use std::os::unix::fs::OpenOptionsExt;
use std::rt::HostRuntime;
use std::time::Duration;
use std::{fs, io};

/// The file in which it is recorded what was given to a server. What was given in a turn is written when the turn is over,
/// with what it added to the trail.
#[derive(Drop)]
pub struct RecordFile {
    /// None if nothing is recorded, or nothing more.
    file: Option<File>,
    answers: AnswerText,
}

/// Lets a file have another name, if it is there.
fn rename(rt: &HostRuntime, path: &str, other: &str) -> io::Result<()> {
    match fs::rename(rt, path, other) {
        Err(fault) if fault.kind() == io::ErrorKind::NotFound => Ok(()),
        renamed => renamed,
    }
}

/// The path of the database that goes with a record: what was held when it began.
pub fn record_database(rt: &HostRuntime, path: &str) -> Result<String, AllocError> {
    format!(in rt.alloc(); "{path}.db")
}

/// Lets an older record and its database be the older ones.
pub fn put_record_aside(rt: &HostRuntime, path: &str) -> io::Result<()> {
    let older = format!(in rt.alloc(); "{path}.0")?;
    let database = record_database(rt, path)?;
    let older_database = record_database(rt, older.as_str())?;
    rename(rt, database.as_str(), older_database.as_str())?;
    rename(rt, path, older.as_str())
}

impl RecordFile {
    /// Nothing is recorded.
    pub fn none(rt: &HostRuntime) -> RecordFile {
        RecordFile {
            file: None,
            answers: AnswerText::new(rt.alloc()),
        }
    }

    /// A new record, for its owner alone.
    pub fn create(rt: &HostRuntime, path: &str) -> io::Result<RecordFile> {
        let file = File::options()
            .write(true)
            .create_new(true)
            .mode(0o600)
            .open(rt, path)?;
        Ok(RecordFile {
            file: Some(file),
            answers: AnswerText::new(rt.alloc()),
        })
    }

    /// Records nothing more, and says so.
    fn stop(&mut self, rt: &HostRuntime) {
        self.file = None;
        let _told = eprintln!(rt; "smf: serve: nothing more is recorded");
    }

    fn write(&mut self, text: &str) -> io::Result<()> {
        match &mut self.file {
            Some(file) => file.write_all(text.as_bytes()),
            None => Ok(()),
        }
    }

    fn begin(&mut self, rt: &HostRuntime, text: &str) {
        if self.write(text).is_err() {
            self.stop(rt);
        }
    }

    fn add(&mut self, rt: &HostRuntime, answer: Answer<&[u8]>) {
        if self.file.is_some() && self.answers.add(answer).is_err() {
            self.stop(rt);
        }
    }

    /// What was given in a turn, when it was over, and what it added to the trail.
    fn turn_text(&mut self, rt: &HostRuntime, items: &[Item]) -> io::Result<String> {
        let alloc = rt.alloc();
        let mut text = self.answers.take()?;
        let time = milliseconds(rt)?;
        let count = items.len();
        let line = format!(in alloc; "turn {time} {count}\n")?;
        text.push_str(line.as_str())?;
        text.push_str(trail_text(alloc, items)?.as_str())?;
        Ok(text)
    }

    fn write_turn(&mut self, rt: &HostRuntime, items: &[Item]) -> io::Result<()> {
        let text = self.turn_text(rt, items)?;
        self.write(text.as_str())
    }

    fn end_turn(&mut self, rt: &HostRuntime, items: &[Item]) {
        if self.file.is_some() && self.write_turn(rt, items).is_err() {
            self.stop(rt);
        }
    }

    fn close(&mut self, rt: &HostRuntime) {
        if self.file.is_none() {
            return;
        }
        let written = match self.answers.take() {
            Ok(text) => self.write(text.as_str()),
            Err(fault) => Err(io::Error::from(fault)),
        };
        if written.is_err() {
            self.stop(rt);
        }
    }
}

/// Who adds to the record of a server. One that is in use just now takes nothing, and no call is made while it is.
#[derive(Clone, Copy)]
pub struct Recorder<'r> {
    pub rt: &'r HostRuntime,
    pub shared: &'r RefCell<RecordFile>,
}

impl<'r> Recorder<'r> {
    fn note(&self, answer: Answer<&[u8]>) {
        if let Ok(mut record) = self.shared.try_borrow_mut() {
            record.add(self.rt, answer);
        }
    }

    fn end_turn(&self, items: &[Item]) {
        if let Ok(mut record) = self.shared.try_borrow_mut() {
            record.end_turn(self.rt, items);
        }
    }

    /// Writes how the life begins.
    pub fn begin(&self, text: &str) {
        if let Ok(mut record) = self.shared.try_borrow_mut() {
            record.begin(self.rt, text);
        }
    }

    /// Writes what was given since the last turn: the server ends.
    pub fn close(&self) {
        if let Ok(mut record) = self.shared.try_borrow_mut() {
            record.close(self.rt);
        }
    }
}

impl<'r> Sink for Recorder<'r> {
    ghost use Rattle.std.specs.Prelude.{None};

    ghost log = { λ _. None };

    fn add(&mut self, answer: Answer<&[u8]>) {
        self.note(answer);
    }
}

impl<'r> TimeSink for Recorder<'r> {
    fn add_time(&self, time: Duration) {
        self.note(Answer::Time(Moment {
            seconds: time.as_secs(),
            nanoseconds: time.subsec_nanos(),
        }));
    }
}

/// The desk that another one has.
#[derive(Drop)]
pub struct LentDesk<'d, 'a> {
    pub desk: &'d mut FileDesk<'a>,
}

impl<'d, 'a> Desk for LentDesk<'d, 'a> {
    ghost use Rattle.std.specs.Prelude.{None};

    ghost passed = { λ _. None };

    ghost leaves = { λ _ _ _. ⊥ };

    fn next(&mut self) -> ServerInput {
        self.desk.next()
    }

    fn reply<J: Journal>(&mut self, repository: &Plain<J>, text: &[u8], status: u8) -> bool {
        self.desk.reply(repository, text, status)
    }

    fn tell(&mut self, line: &str) {
        self.desk.tell(line);
    }

    fn pause(&mut self) {
        self.desk.pause();
    }
}

/// A chronicle, and the record in which each turn ends with what the chronicle is told.
#[derive(Drop)]
pub struct RecordedChronicle<'c, 'f, 'r> {
    pub chronicle: &'c mut FileChronicle<'f>,
    pub recorder: Recorder<'r>,
}

impl<'c, 'f, 'r> Chronicle for RecordedChronicle<'c, 'f, 'r> {
    ghost use Rattle.std.specs.Prelude.{None};

    ghost told = { λ _. None };

    fn tell<J: Journal>(&mut self, items: &[Item], node: &Node<J>, retries: &[Retry]) {
        let recorder = self.recorder;
        recorder.end_turn(items);
        self.chronicle.tell(items, node, retries);
    }
}
