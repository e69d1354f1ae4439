use crate::disks::{Calls, Image, endless, images_left, is_stopped, load};
use crate::session::{Fault, Ran, picture_behind, pictures_of, run};
use std::alloc::Global;
use std::fmt;

/// The most calls of a disk that are stopped.
const MOST: u64 = 1_000_000;

/// The value that stands after a stop: that before the line, that after it, or another.
#[derive(Clone, Copy)]
enum Standing {
    Before,
    After,
    Another,
}

/// The disk that stops.
#[derive(Clone, Copy)]
enum Part {
    Log,
    Database,
}

/// A stop after which neither value stands.
#[derive(Clone, Copy)]
pub(crate) struct Stop {
    part: Part,
    call: u64,
    replies: usize,
}

/// The values that crashes left after a stop ended a line.
#[derive(Clone, Copy)]
struct Left {
    before: bool,
    after: bool,
}

/// The effect of a line, as the stops show it.
#[derive(Clone, Copy)]
pub(crate) enum Seen {
    /// It changes nothing.
    NoChange,
    /// A crash left the value before it, and another the value after it.
    BothSides,
    /// No crash left the one or the other.
    OneSide,
}

impl Seen {
    pub(crate) fn as_str(self) -> &'static str {
        match self {
            Seen::NoChange => "no change",
            Seen::BothSides => "before or after",
            Seen::OneSide => "one of both",
        }
    }
}

impl Part {
    fn as_str(self) -> &'static str {
        match self {
            Part::Log => "the log",
            Part::Database => "the database",
        }
    }

    /// So many calls of this disk, and all of the other.
    fn calls(self, count: u64) -> Calls {
        let all = endless();
        match self {
            Part::Log => Calls {
                log: count,
                db: all.db,
            },
            Part::Database => Calls {
                log: all.log,
                db: count,
            },
        }
    }
}

impl fmt::Display for Stop {
    fn fmt<W: fmt::Write>(&self, f: &mut fmt::Formatter<W>) -> fmt::Result {
        let part = self.part.as_str();
        let call = self.call;
        let replies = self.replies;
        write!(
            f,
            "{part} stopped behind {call} calls and {replies} replies: neither before nor after"
        )
    }
}

/// The values before the store is opened, after that, and after each line.
fn values(alloc: Global, image: &Image, lines: &[&str]) -> Result<Vec<Vec<u8>>, Fault> {
    let Some(first) = pictures_of(alloc, image)? else {
        return Err(Fault::Undone);
    };
    let mut values = vec![in alloc; first.found]?;
    for count in 0..=lines.len() {
        values.push(picture_behind(alloc, image, &lines[..count])?)?;
    }
    Ok(values)
}

fn is_value(values: &[Vec<u8>], at: usize, found: &[u8]) -> bool {
    match values.get(at) {
        Some(value) => value.as_slice() == found,
        None => false,
    }
}

/// Which value was found after so many replies.
fn standing_of(values: &[Vec<u8>], replies: usize, found: &[u8]) -> Standing {
    if is_value(values, replies, found) {
        return Standing::Before;
    }
    if is_value(values, replies.saturating_add(1), found) {
        return Standing::After;
    }
    Standing::Another
}

/// Which value stands in an image. Its store has to open again with the same value.
fn standing_in(
    alloc: Global,
    image: &Image,
    values: &[Vec<u8>],
    replies: usize,
) -> Result<Standing, Fault> {
    let Some(pictures) = pictures_of(alloc, image)? else {
        return Ok(Standing::Another);
    };
    let standing = standing_of(values, replies, &pictures.found);
    let at = match standing {
        Standing::Before => replies,
        Standing::After => replies.saturating_add(1),
        Standing::Another => return Ok(standing),
    };
    if is_value(values, at.max(1), &pictures.opened) {
        Ok(standing)
    } else {
        Ok(Standing::Another)
    }
}

/// The run that each stop cuts off: lines over an image, and the values that may stand.
#[derive(Clone, Copy)]
pub(crate) struct Trial<'a> {
    alloc: Global,
    image: &'a Image,
    lines: &'a [&'a str],
    values: &'a [Vec<u8>],
}

/// Notes which value a crash left after so many replies.
fn note(left: &mut [Left], replies: usize, standing: Standing) {
    if let Some(left) = left.get_mut(replies) {
        match standing {
            Standing::Before => left.before = true,
            Standing::After => left.after = true,
            Standing::Another => (),
        }
    }
}

/// Stops a disk at one call, and notes what crashes leave; whether something was stopped.
fn stop_at(trial: &Trial<'_>, part: Part, call: u64, left: &mut [Left]) -> Result<bool, Fault> {
    let alloc = trial.alloc;
    let Ran { replies, mut files } = run(
        alloc,
        load(alloc, trial.image, part.calls(call))?,
        trial.lines,
    );
    if !is_stopped(&mut files) {
        return Ok(false);
    }
    for image in &images_left(alloc, files)? {
        match standing_in(alloc, image, trial.values, replies)? {
            Standing::Another => return Err(Fault::Found(Stop {
                part,
                call,
                replies,
            })),
            standing => note(left, replies, standing),
        }
    }
    Ok(true)
}

/// Stops a disk at each of its calls.
fn stop_part(trial: &Trial<'_>, part: Part, left: &mut [Left]) -> Result<(), Fault> {
    for call in 0..MOST {
        if !stop_at(trial, part, call, left)? {
            return Ok(());
        }
    }
    Err(Fault::Undone)
}

/// The effect of the line before which this value stood.
fn seen_of(values: &[Vec<u8>], at: usize, left: Left) -> Seen {
    let Some(before) = values.get(at) else {
        return Seen::OneSide;
    };
    if is_value(values, at.saturating_add(1), before) {
        Seen::NoChange
    } else if left.before && left.after {
        Seen::BothSides
    } else {
        Seen::OneSide
    }
}

/// Stops each disk at each of its calls, and says what was seen of the open and of each line.
pub(crate) fn stop_all(alloc: Global, image: &Image, lines: &[&str]) -> Result<Vec<Seen>, Fault> {
    let values = values(alloc, image, lines)?;
    let trial = Trial {
        alloc,
        image,
        lines,
        values: &values,
    };
    let mut left = Vec::new(alloc);
    for _ in 0..=lines.len() {
        left.push(Left {
            before: false,
            after: false,
        })?;
    }
    stop_part(&trial, Part::Log, &mut left)?;
    stop_part(&trial, Part::Database, &mut left)?;
    let mut seen = Vec::new(alloc);
    for (at, left) in left.iter().enumerate() {
        seen.push(seen_of(&values, at, *left))?;
    }
    Ok(seen)
}
