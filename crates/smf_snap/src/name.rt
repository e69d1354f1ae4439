ghost use Rattle.smf_snap.specs.Names.{name_from, name_text, names};
ghost use Rattle.std.specs.Prelude.{◌≡◌, IfOk};

use smf_fmri::Items;
use std::alloc::{AllocError, Global};
use std::fmt;

/// The name of a snapshot that an instance has.
#[derive(Clone, Copy, PartialEq, Eq)]
pub enum SnapshotName {
    /// The groups before the last revert.
    Previous,
    /// The groups that methods and dependencies are read from.
    Running,
    /// The groups that the last successful start ran under.
    Start,
}

impl SnapshotName {
    pub fn as_str(self) -> &'static str
        ensures { result.now ≡ name_text self }
    {
        match self {
            SnapshotName::Previous => "previous",
            SnapshotName::Running => "running",
            SnapshotName::Start => "start",
        }
    }

    /// The name that a text is.
    pub fn parse(text: &str) -> Option<SnapshotName>
        ensures { result ≡ name_from text.now }
    {
        if text == "previous" {
            Some(SnapshotName::Previous)
        } else if text == "running" {
            Some(SnapshotName::Running)
        } else if text == "start" {
            Some(SnapshotName::Start)
        } else {
            None
        }
    }
}

impl fmt::Display for SnapshotName {
    ghost use Rattle.smf_snap.specs.Names.{name_text};
    ghost use Rattle.std.specs.Prelude.{Some};

    ghost output = { λ n. Some (name_text n) };

    fn fmt<W: fmt::Write>(&self, f: &mut fmt::Formatter<W>) -> fmt::Result {
        fmt::Display::fmt(self.as_str(), f)
    }
}

/// The names of the snapshots that an instance has, by their numbers, in the order of the names' bytes.
pub fn names(
    alloc: Global,
    previous: Option<u64>,
    running: Option<u64>,
    start: Option<u64>,
) -> Result<Items<SnapshotName>, AllocError>
    ensures { IfOk result (λ all. all ≡ names previous running start) }
{
    let mut all = Items::new(alloc);
    if previous.is_some() {
        all.push(SnapshotName::Previous)?;
    }
    if running.is_some() {
        all.push(SnapshotName::Running)?;
    }
    if start.is_some() {
        all.push(SnapshotName::Start)?;
    }
    Ok(all)
}
