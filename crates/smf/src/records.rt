// What stands in the record of a server.
use crate::beginnings::{found_in, retry_in};
use smf_contract::Found;
use smf_fmri::read_count;
use smf_record::{Answer, Gathered, read_answer};
use smf_state::FieldFault;
use smf_watch::Retry;
use std::alloc::{AllocError, AllocFailed, Global};
use std::mem;

/// Why a record is not read. Lines are counted from 1.
#[derive(Clone, Copy)]
pub(crate) enum RecordFault {
    Memory,
    /// This line is none of a record.
    Unreadable(usize),
    /// The record ends before the life has begun.
    TooShort,
}

impl From<AllocError> for RecordFault {
    fn from(_e: AllocError) -> RecordFault {
        RecordFault::Memory
    }
}

/// Why a line is not read.
#[derive(Clone, Copy)]
enum LineFault {
    Memory,
    Unreadable,
}

impl From<AllocError> for LineFault {
    fn from(_e: AllocError) -> LineFault {
        LineFault::Memory
    }
}

impl<T: Drop> From<AllocFailed<T>> for LineFault {
    fn from(_e: AllocFailed<T>) -> LineFault {
        LineFault::Memory
    }
}

impl From<FieldFault> for LineFault {
    fn from(fault: FieldFault) -> LineFault {
        match fault {
            FieldFault::Memory => LineFault::Memory,
            FieldFault::Left(_) => LineFault::Unreadable,
        }
    }
}

/// What was given to a life.
#[derive(Drop)]
pub(crate) struct RecordedLife {
    /// True if it went on with contracts of an older one.
    pub(crate) goes_on: bool,
    pub(crate) found: Vec<Found>,
    pub(crate) retries: Vec<Retry>,
    pub(crate) answers: Gathered,
}

/// A record, as far as it is run again.
#[derive(Drop)]
struct Record {
    life: RecordedLife,
    /// What was added to the trail by the beginning, and then by each turn.
    turns: Vec<String>,
    requests: u64,
    items: u64,
    /// The answers of the turn that is read.
    pending: Vec<Answer<Vec<u8>>>,
    /// So many lines of the trail are still to come for the last turn.
    left: u64,
    /// Turns that are later are left out, in milliseconds since 1970.
    until: Option<u64>,
    /// True if a turn was left out.
    is_over: bool,
}

impl Record {
    fn new(alloc: Global, until: Option<u64>) -> Record {
        Record {
            life: RecordedLife {
                goes_on: false,
                found: Vec::new(alloc),
                retries: Vec::new(alloc),
                answers: Gathered::new(alloc),
            },
            turns: Vec::new(alloc),
            requests: 0,
            items: 0,
            pending: Vec::new(alloc),
            left: 0,
            until,
            is_over: false,
        }
    }

    /// Takes the answers of the turn that was read.
    fn settle(&mut self, alloc: Global) -> Result<(), AllocError> {
        let answers = mem::replace(&mut self.pending, Vec::new(alloc));
        for answer in answers {
            if matches!(&answer, Answer::Request(_)) {
                self.requests = self.requests.saturating_add(1);
            }
            self.life.answers.put(answer)?;
        }
        Ok(())
    }

    /// A line of the trail of the last turn.
    fn add_item(&mut self, line: &str) -> Result<(), AllocError> {
        self.items = self.items.saturating_add(1);
        if let Some(turn) = self.turns.last_mut() {
            turn.push_str(line)?;
            turn.push('\n')?;
        }
        Ok(())
    }

    /// A turn is over, at a time, and added so many items to the trail.
    fn add_turn(&mut self, alloc: Global, rest: &str) -> Result<(), LineFault> {
        let Some((time, count)) = rest.split_once(' ') else {
            return Err(LineFault::Unreadable);
        };
        let (Some(time), Some(count)) = (read_count(time), read_count(count)) else {
            return Err(LineFault::Unreadable);
        };
        if let Some(until) = self.until {
            if until < time {
                self.is_over = true;
                return Ok(());
            }
        }
        self.settle(alloc)?;
        self.turns.push(String::new(alloc))?;
        self.left = count;
        Ok(())
    }

    fn add_line(&mut self, alloc: Global, line: &str) -> Result<(), LineFault> {
        if self.left > 0 {
            self.left -= 1;
            self.add_item(line)?;
            return Ok(());
        }
        let (word, rest) = line.split_once(' ').unwrap_or((line, ""));
        match word {
            "turn" => self.add_turn(alloc, rest),
            "found" => match found_in(rest) {
                Some(found) => {
                    self.life.found.push(found)?;
                    Ok(())
                }
                None => Err(LineFault::Unreadable),
            },
            "retry" => match retry_in(rest) {
                Some(retry) => {
                    self.life.retries.push(retry)?;
                    Ok(())
                }
                None => Err(LineFault::Unreadable),
            },
            _ => {
                let answer = read_answer(alloc, line)?;
                self.pending.push(answer)?;
                Ok(())
            }
        }
    }
}

/// What a record has: the life, what the beginning and then each turn added to the trail, and how many requests and items there are.
#[derive(Drop)]
pub(crate) struct RecordedRun {
    pub(crate) life: RecordedLife,
    pub(crate) turns: Vec<String>,
    pub(crate) requests: u64,
    pub(crate) items: u64,
}

impl Record {
    fn into_run(self) -> RecordedRun {
        let Record {
            life,
            turns,
            requests,
            items,
            pending: _pending,
            left: _,
            until: _,
            is_over: _,
        } = self;
        RecordedRun {
            life,
            turns,
            requests,
            items,
        }
    }
}

/// Reads a record up to the first turn that is later than a time.
pub(crate) fn read_record(
    alloc: Global,
    text: &str,
    until: Option<u64>,
) -> Result<RecordedRun, RecordFault> {
    let mut record = Record::new(alloc, until);
    let mut place: usize = 0;
    for line in text.lines() {
        place = place.saturating_add(1);
        let taken = match place {
            1 if line == "smf record 1" => Ok(()),
            2 if line == "boots" => Ok(()),
            2 if line == "goes on" => {
                record.life.goes_on = true;
                Ok(())
            }
            1 | 2 => Err(LineFault::Unreadable),
            _ => record.add_line(alloc, line),
        };
        match taken {
            Ok(()) => {}
            Err(LineFault::Memory) => return Err(RecordFault::Memory),
            Err(LineFault::Unreadable) => return Err(RecordFault::Unreadable(place)),
        }
        if record.is_over {
            return Ok(record.into_run());
        }
    }
    if place < 2 {
        return Err(RecordFault::TooShort);
    }
    record.settle(alloc)?;
    Ok(record.into_run())
}
