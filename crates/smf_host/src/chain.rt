// Why an instance stopped, below the line of the group by which that stopped another one.
use std::alloc::{AllocError, Global};

/// How the part of a block begins that tells of an order to stop.
pub(crate) const STOPPED: &str = "Stopped";

/// The lines of a stop stand so far to the right of those of the stop that it led to.
const INDENT: &str = "    ";

/// A stop stands below at most eight others: below them a line begins with so many spaces before it is indented.
const DEEPEST: usize = 32;

/// The revision that the first line of a part names.
pub(crate) fn decided_on(lines: &str) -> Option<u64> {
    let (_, rest) = lines.split_once("decided on revision ")?;
    let (word, _) = rest.split_once(' ')?;
    let number = word.strip_suffix(',').unwrap_or(word);
    number.parse().ok()
}

/// So many spaces stand before a line.
fn depth_of(line: &str) -> usize {
    line.len().saturating_sub(line.trim_start().len())
}

/// The instance that the line of a group names, or the first of them.
fn named_by(line: &str) -> Option<&str> {
    let (_, events) = line.split_once("): ")?;
    let (name, _) = events.split_once(' ')?;
    Some(name)
}

/// The instance of whose stop a line begins to tell. It stands there, or else the line above has named it.
fn stopped_in<'t>(line: &'t str, named: &'t str) -> Option<&'t str> {
    let rest = line.trim_start().strip_prefix(STOPPED)?;
    match rest.strip_prefix(" (") {
        None => Some(named),
        Some(text) => {
            let (name, _) = text.split_once("): ")?;
            Some(name)
        }
    }
}

fn put_line(text: &mut String, line: &str) -> Result<(), AllocError> {
    text.push_str(INDENT)?;
    text.push_str(line)?;
    text.push('\n')
}

/// The line by which a stop begins, with the name of its instance.
fn put_named(text: &mut String, name: &str, line: &str) -> Result<(), AllocError> {
    text.push_str(INDENT)?;
    text.push_str(STOPPED)?;
    text.push_str(" (")?;
    text.push_str(name)?;
    text.push_str(")")?;
    text.push_str(line.strip_prefix(STOPPED).unwrap_or(line))?;
    text.push('\n')
}

/// The instances of whose stops a part tells already, by their names.
#[derive(Drop)]
pub(crate) struct Told {
    alloc: Global,
    names: Vec<String>,
    /// The instance that the line before names.
    named: String,
}

impl Told {
    /// A part of this instance.
    pub(crate) fn of(alloc: Global, name: &str) -> Result<Told, AllocError> {
        let mut told = Told {
            alloc,
            names: Vec::new(alloc),
            named: String::new(alloc),
        };
        told.put(name)?;
        Ok(told)
    }

    fn has(&self, name: &str) -> bool {
        self.names.iter().any(|other| other.as_str() == name)
    }

    fn put(&mut self, name: &str) -> Result<(), AllocError> {
        let name = String::from_str(self.alloc, name)?;
        self.names.push(name)?;
        Ok(())
    }

    /// Notes which instance a line names, for the line below it.
    fn note_named(&mut self, line: &str) -> Result<(), AllocError> {
        let name = named_by(line).unwrap_or("");
        self.named = String::from_str(self.alloc, name)?;
        Ok(())
    }

    /// Whether a line is to be left out, with all below it: it begins to tell of a stop that is told already, or too deep.
    fn is_left_out(&self, line: &str) -> bool {
        match stopped_in(line, self.named.as_str()) {
            None => false,
            Some(name) => self.has(name) || depth_of(line) >= DEEPEST,
        }
    }

    /// Puts a line, and notes of whose stop it begins to tell.
    fn put_line(&mut self, text: &mut String, line: &str) -> Result<(), AllocError> {
        if let Some(name) = stopped_in(line, self.named.as_str()) {
            let name = String::from_str(self.alloc, name)?;
            self.names.push(name)?;
        }
        self.note_named(line)?;
        put_line(text, line)
    }

    /// Puts the lines below the first one, as far as the stops of which they tell are not told already.
    fn put_rest(&mut self, text: &mut String, rest: &str) -> Result<(), AllocError> {
        let mut left_out = usize::MAX;
        for line in rest.lines() {
            if depth_of(line) >= left_out {
                continue;
            }
            left_out = usize::MAX;
            if self.is_left_out(line) {
                left_out = depth_of(line);
            } else {
                self.put_line(text, line)?;
            }
        }
        Ok(())
    }

    /// Puts the lines that tell of the stop of an instance, unless that is told already. The first line has its name if
    /// `is_named`.
    pub(crate) fn put_stop(
        &mut self,
        text: &mut String,
        name: &str,
        lines: &str,
        is_named: bool,
    ) -> Result<(), AllocError> {
        if self.has(name) {
            return Ok(());
        }
        self.put(name)?;
        let (first, rest) = lines.split_once('\n').unwrap_or((lines, ""));
        if is_named {
            put_named(text, name, first)?;
        } else {
            put_line(text, first)?;
        }
        self.put_rest(text, rest)
    }
}
