// What the chronicle beside a database tells of the past of its instances.
use smf_chronicle::{Entry, ReadFault, first_link, read_lines};
use smf_fmri::Items;
use smf_host::{milliseconds, path_beside};
use smf_show::{Dated, DatedChronicle};
use std::alloc::{AllocError, Global};
use std::{fs, io};

/// The text of a file. One that cannot be read has none.
fn text_in(rt: &HostRuntime, path: &str) -> io::Result<String> {
    match fs::read_to_string(rt, path) {
        Err(fault) if fault.kind() != io::ErrorKind::OutOfMemory => Ok(String::new(rt.alloc())),
        read => read,
    }
}

/// The whole lines of a text, of which a server may just write the last one.
fn whole_lines(text: &str) -> &str {
    match text.rfind('\n') {
        Some(end) => text.get(..end.saturating_add(1)).unwrap_or(""),
        None => "",
    }
}

/// The lines of a text before one, which are counted from 1.
fn lines_before(text: &str, line: usize) -> &str {
    let mut size: usize = 0;
    let mut number: usize = 1;
    for text in text.split_inclusive('\n') {
        if number >= line {
            break;
        }
        number = number.saturating_add(1);
        size = size.saturating_add(text.len());
    }
    text.get(..size).unwrap_or("")
}

/// The entries of a chronicle. A printed trail is none: its lines have no times.
fn entries_in(alloc: Global, text: &str) -> Result<Vec<Entry>, ReadFault> {
    let Some(link) = first_link(text) else {
        return Ok(Vec::new(alloc));
    };
    let link = String::from_str(alloc, link)?;
    Ok(read_lines(alloc, Some(link), text)?.entries)
}

/// The milliseconds from 1970 to the time that a line has behind its link.
fn time_of(line: &str) -> u64 {
    let clock = line.splitn(3, ' ').nth(1).unwrap_or("");
    let Some((seconds, thousandths)) = clock.split_once('.') else {
        return 0;
    };
    let seconds = seconds.parse::<u64>().unwrap_or(0);
    let thousandths = thousandths.parse::<u64>().unwrap_or(0);
    seconds.saturating_mul(1000).saturating_add(thousandths)
}

/// Puts entries with the times of their lines.
fn put_entries(
    lines: &mut Items<Dated>,
    entries: Vec<Entry>,
    text: &str,
) -> Result<(), AllocError> {
    let mut texts = text.lines();
    for entry in entries {
        let time = time_of(texts.next().unwrap_or(""));
        lines.push(Dated { time, entry })?;
    }
    Ok(())
}

/// Puts the lines of a text, up to the first that cannot be read or does not have the link of the line before it.
fn put_lines(alloc: Global, lines: &mut Items<Dated>, text: &str) -> Result<(), ReadFault> {
    let line = match entries_in(alloc, text) {
        Ok(entries) => return Ok(put_entries(lines, entries, text)?),
        Err(ReadFault::Memory) => return Err(ReadFault::Memory),
        Err(ReadFault::Unreadable(line)) => line,
        Err(ReadFault::Unlinked(line)) => line,
    };
    let front = lines_before(text, line);
    let entries = entries_in(alloc, front)?;
    Ok(put_entries(lines, entries, front)?)
}

fn put_file(rt: &HostRuntime, lines: &mut Items<Dated>, path: &str) -> io::Result<()> {
    let text = text_in(rt, path)?;
    match put_lines(rt.alloc(), lines, whole_lines(text.as_str())) {
        Err(ReadFault::Memory) => Err(io::Error::from(io::ErrorKind::OutOfMemory)),
        _ => Ok(()),
    }
}

/// The chronicle of a database, with the file before it, as far as both can be read. An error is want of memory.
pub(crate) fn chronicle_beside(rt: &HostRuntime, database: &str) -> io::Result<DatedChronicle> {
    let alloc = rt.alloc();
    let path = path_beside(rt, database, "trail")?;
    let older = format!(in alloc; "{}.0", path.as_str())?;
    let mut lines = Items::new(alloc);
    put_file(rt, &mut lines, older.as_str())?;
    put_file(rt, &mut lines, path.as_str())?;
    Ok(DatedChronicle {
        lines,
        read_at: milliseconds(rt).unwrap_or(0),
    })
}

/// A chronicle that tells nothing.
pub(crate) fn no_chronicle(alloc: Global) -> DatedChronicle {
    DatedChronicle {
        lines: Items::new(alloc),
        read_at: 0,
    }
}
