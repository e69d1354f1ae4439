// What is told of instances: the parts of a block, the last that happened first.
use crate::chain::{STOPPED, decided_on};
use smf_fmri::{Fmri, InstanceFmri};
use std::alloc::{AllocError, Global};

/// How the part of a block begins that tells of a start.
pub(crate) const STARTED: &str = "Started";

/// What a part of a block tells of. It is no text: the types of whoever keeps blocks would name its lifetime.
#[derive(Clone, Copy, PartialEq, Eq)]
pub(crate) enum Kind {
    /// A start.
    Started,
    /// An order to stop.
    Stopped,
}

/// What is told of an instance: its name, and its parts, the last that happened first.
#[derive(Drop)]
pub(crate) struct Block {
    pub(crate) name: InstanceFmri,
    parts: Vec<Part>,
}

/// Lines that tell of a start or of an order to stop.
#[derive(Drop)]
struct Part {
    kind: Kind,
    lines: String,
}

/// The kind of the part that a line begins.
fn kind_of(line: &str) -> Option<Kind> {
    if line.starts_with(STARTED) {
        Some(Kind::Started)
    } else if line.starts_with(STOPPED) {
        Some(Kind::Stopped)
    } else {
        None
    }
}

/// Whether lines tell of what was decided between two revisions.
fn is_between(lines: &str, after: u64, before: u64) -> bool {
    match decided_on(lines) {
        None => false,
        Some(revision) => after < revision && revision < before,
    }
}

impl Block {
    /// Puts a part before the others, in place of that of its kind.
    fn put(&mut self, kind: Kind, lines: String) -> Result<(), AllocError> {
        self.parts.retain(|part| part.kind != kind);
        self.parts.insert(0, Part { kind, lines })?;
        Ok(())
    }

    fn lines_of(&self, kind: Kind) -> Option<&str> {
        for part in &self.parts {
            if part.kind == kind {
                return Some(part.lines.as_str());
            }
        }
        None
    }

    /// The lines of the order that led to a stop on a revision: it was decided by then, and no start lies between.
    pub(crate) fn stop_before(&self, revision: u64) -> Option<&str> {
        let lines = self.lines_of(Kind::Stopped)?;
        let ordered = decided_on(lines)?;
        let is_older = match self.lines_of(Kind::Started) {
            None => false,
            Some(start) => is_between(start, ordered, revision),
        };
        if ordered > revision || is_older {
            return None;
        }
        Some(lines)
    }

    /// Puts a line with the name of the instance, then its parts, and an empty line.
    pub(crate) fn put_to(&self, text: &mut String) -> Result<(), AllocError> {
        text.push_str(self.name.print())?;
        text.push('\n')?;
        for part in &self.parts {
            text.push_str(part.lines.as_str())?;
        }
        text.push('\n')
    }

    /// Puts a line behind the others.
    fn put_line(&mut self, alloc: Global, line: &str) -> Result<(), AllocError> {
        if let Some(kind) = kind_of(line) {
            let lines = String::new(alloc);
            self.parts.push(Part { kind, lines })?;
        }
        match self.parts.last_mut() {
            None => Ok(()),
            Some(part) => {
                part.lines.push_str(line)?;
                part.lines.push('\n')
            }
        }
    }
}

/// Puts a part of an instance before its others, in place of that of its kind.
pub(crate) fn put_part(
    blocks: &mut Vec<Block>,
    alloc: Global,
    name: &InstanceFmri,
    kind: Kind,
    lines: String,
) -> Result<(), AllocError> {
    for block in blocks.iter_mut() {
        if block.name == *name {
            return block.put(kind, lines);
        }
    }
    let mut parts = Vec::new(alloc);
    parts.push(Part { kind, lines })?;
    let name = name.clone()?;
    blocks.push(Block { name, parts })?;
    Ok(())
}

/// Each block, with an empty line behind it.
pub(crate) fn text_of(alloc: Global, blocks: &[Block]) -> Result<String, AllocError> {
    let mut text = String::new(alloc);
    for block in blocks {
        block.put_to(&mut text)?;
    }
    Ok(text)
}

fn name_in(alloc: Global, line: &str) -> Option<InstanceFmri> {
    match Fmri::parse(alloc, line) {
        Ok(name) => InstanceFmri::of(name),
        Err(_) => None,
    }
}

fn put_line(blocks: &mut Vec<Block>, alloc: Global, line: &str) -> Result<(), AllocError> {
    if line.is_empty() {
        return Ok(());
    }
    if let Some(name) = name_in(alloc, line) {
        let parts = Vec::new(alloc);
        blocks.push(Block { name, parts })?;
        return Ok(());
    }
    match blocks.last_mut() {
        None => Ok(()),
        Some(block) => block.put_line(alloc, line),
    }
}

/// The blocks of a text.
pub(crate) fn blocks_in(alloc: Global, text: &str) -> Result<Vec<Block>, AllocError> {
    let mut blocks = Vec::new(alloc);
    for line in text.lines() {
        put_line(&mut blocks, alloc, line)?;
    }
    Ok(blocks)
}
