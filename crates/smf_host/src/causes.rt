// Why instances are in maintenance, as a file in the folder of contracts has it.
use crate::boots::note_boot;
use crate::retries::RetryFile;
use crate::room_file::RoomFile;
use crate::why_file::WhyFile;
use smf_fmri::{InstanceFmri, Items};
use smf_model::Journal;
use smf_node::Node;
use smf_reasons::{Reason, Told, check};
use smf_watch::{
    Causes, KnownRow, MaintenanceCause, MaintenanceReason, Retry, plans_of, push_reason, reason_of,
};
use smf_world::Item;
use std::alloc::{AllocError, Global};
use std::rt::HostRuntime;
use std::{fs, io};

/// Its name.
const CAUSES: &str = "causes";

/// A file in the folder of contracts, by which `svcs -x` knows why instances are in maintenance. It has the files beside it
/// written that tell of retries, and of starts and stops.
#[derive(Drop)]
pub struct CauseFile<'a> {
    rt: &'a HostRuntime,
    /// The path of the folder.
    room: &'a str,
    /// The lines of an older life of the server, one for each instance that they name.
    older: String,
    file: RoomFile<'a>,
    /// Whether it is still to be noted that the system has booted.
    boots: bool,
    causes: Causes,
    retries: RetryFile<'a>,
    why: WhyFile<'a>,
}

/// What tells why instances are in maintenance: a node, the instances that are tried again, and the flaws of the node's
/// instances, once they were looked for.
#[derive(Drop)]
struct Sight<'b, J: Journal> {
    node: &'b Node<J>,
    retries: &'b [Retry],
    flaws: Option<Items<Told>>,
}

/// Whether an instance with this flaw cannot be run.
fn is_fault(reason: &Reason) -> bool {
    matches!(
        reason,
        Reason::UnreadableRestarter
            | Reason::UnreadableSnapshot
            | Reason::UnreadableGroup { .. }
            | Reason::NoStartMethod
            | Reason::UnreadableMethod { .. }
            | Reason::OnCycle(_)
    )
}

fn has_fault(flaws: &[Told], name: &InstanceFmri) -> bool {
    flaws.iter().any(|told| told.name == *name && told.reasons.as_slice().iter().any(is_fault))
}

impl<'b, J: Journal> Sight<'b, J> {
    /// Whether the configuration of an instance has a fault. The flaws of all are looked for at most once.
    fn is_faulty(&mut self, alloc: Global, instance: u64) -> Result<bool, AllocError> {
        let repository = self.node.repository();
        if self.flaws.is_none() {
            let view = repository.view()?;
            self.flaws = Some(check(alloc, &view)?);
        }
        let entry = repository
            .entries()
            .iter()
            .find(|entry| entry.instance.number.get() == instance);
        match (&self.flaws, entry) {
            (Some(flaws), Some(entry)) => Ok(has_fault(flaws.as_slice(), &entry.instance.name)),
            _ => Ok(false),
        }
    }

    /// Why an instance is in maintenance by a row.
    fn reason(
        &mut self,
        alloc: Global,
        known: &KnownRow,
    ) -> Result<Option<MaintenanceReason>, AllocError> {
        let is_faulty = match known.cause {
            Some(MaintenanceCause::Moved) => self.is_faulty(alloc, known.instance)?,
            _ => false,
        };
        Ok(reason_of(
            self.node.repository(),
            self.node.table(),
            self.retries,
            is_faulty,
            known,
        ))
    }
}

/// The words with which a line begins: the number of an instance, and that of its row.
fn head_of(alloc: Global, known: &KnownRow) -> Result<String, AllocError> {
    format!(in alloc; "{} {} ", known.instance, known.row.number)
}

/// The line that begins so, in what was written before.
fn line_in<'b>(written: &'b Option<String>, head: &str) -> Option<&'b str> {
    match written {
        Some(text) => text.lines().find(|line| line.starts_with(head)),
        None => None,
    }
}

/// Puts a line of an instance that is in maintenance, if it is known why: its number, that of its row, and the reason. What
/// was written of the row stays, since what tells the reason may be forgotten.
fn put_line<J: Journal>(
    text: &mut String,
    alloc: Global,
    known: &KnownRow,
    written: &Option<String>,
    sight: &mut Sight<'_, J>,
) -> Result<(), AllocError> {
    if known.cause.is_none() {
        return Ok(());
    }
    let head = head_of(alloc, known)?;
    if let Some(line) = line_in(written, head.as_str()) {
        text.push_str(line)?;
        return text.push('\n');
    }
    let Some(reason) = sight.reason(alloc, known)? else {
        return Ok(());
    };
    text.push_str(head.as_str())?;
    push_reason(text, reason)?;
    text.push('\n')
}

impl<'a> CauseFile<'a> {
    fn new(
        rt: &'a HostRuntime,
        room: &'a str,
        older: String,
        why: WhyFile<'a>,
        boots: bool,
    ) -> CauseFile<'a> {
        CauseFile {
            rt,
            room,
            older,
            file: RoomFile::new(rt, room, CAUSES),
            boots,
            causes: Causes::new(rt.alloc()),
            retries: RetryFile::new(rt, room),
            why,
        }
    }

    /// A line for each instance that is in maintenance, and those of an older life.
    fn lines<J: Journal>(&self, sight: &mut Sight<'_, J>) -> Result<String, AllocError> {
        let alloc = self.rt.alloc();
        let mut text = String::new(alloc);
        for known in self.causes.known() {
            put_line(&mut text, alloc, known, self.file.text(), sight)?;
        }
        text.push_str(self.older.as_str())?;
        Ok(text)
    }

    /// Adds items, and writes the reasons that are known then, unless they are the same as before.
    fn add<J: Journal>(&mut self, items: &[Item], sight: &mut Sight<'_, J>) -> io::Result<()> {
        if items.is_empty() {
            return Ok(());
        }
        self.causes.add(self.rt.alloc(), items)?;
        let text = self.lines(sight)?;
        self.file.write(text)
    }

    /// Notes that the system has booted, when the first is told: what is held then has booted.
    fn note_boot(&mut self) {
        if self.boots && note_boot(self.rt, self.room).is_ok() {
            self.boots = false;
        }
    }

    /// If the causes cannot be written, the file stays as it is. Its lines name rows, so those of an older row tell nothing.
    pub(crate) fn tell<J: Journal>(&mut self, items: &[Item], node: &Node<J>, retries: &[Retry]) {
        self.note_boot();
        let mut sight = Sight {
            node,
            retries,
            flaws: None,
        };
        let _written = self.add(items, &mut sight);
        if let Ok(plans) = plans_of(self.rt.alloc(), node.repository(), retries) {
            let _written = self.retries.write(&plans);
        }
        let _written = self.why.tell(items, node);
    }
}

fn path_in(rt: &HostRuntime, room: &str) -> io::Result<String> {
    Ok(format!(in rt.alloc(); "{room}/{CAUSES}")?)
}

/// The first word of a line: the number of its instance.
fn instance_in(line: &str) -> &str {
    match line.split_once(' ') {
        Some((instance, _)) => instance,
        None => line,
    }
}

/// The first line of each instance: those behind it are of older rows.
fn first_lines(alloc: Global, text: &str) -> Result<String, AllocError> {
    let mut kept = String::new(alloc);
    for line in text.lines() {
        let is_known = kept
            .lines()
            .any(|other| instance_in(other) == instance_in(line));
        if !is_known {
            kept.push_str(line)?;
            kept.push('\n')?;
        }
    }
    Ok(kept)
}

/// The file in a room, for a server that boots.
pub fn new_causes<'a>(rt: &'a HostRuntime, room: &'a str) -> CauseFile<'a> {
    CauseFile::new(
        rt,
        room,
        String::new(rt.alloc()),
        WhyFile::new(rt, room),
        true,
    )
}

/// The file in a room, for a server that goes on: the causes that an older life has written stay.
pub fn older_causes<'a>(rt: &'a HostRuntime, room: &'a str) -> io::Result<CauseFile<'a>> {
    let path = path_in(rt, room)?;
    let older = match fs::read_to_string(rt, path.as_str()) {
        Ok(text) => first_lines(rt.alloc(), text.as_str())?,
        Err(fault) if fault.kind() == io::ErrorKind::NotFound => String::new(rt.alloc()),
        Err(fault) => return Err(fault),
    };
    let why = WhyFile::older(rt, room)?;
    Ok(CauseFile::new(rt, room, older, why, false))
}
