use smf_fmri::strip;
use std::alloc::{AllocError, Global};

/// What a server wrote of a contract: the instance that it runs, and all other fields `name=value` as they stand in the
/// file, each with a byte 0 behind it.
#[derive(Drop)]
pub struct Note {
    pub instance: String,
    pub rest: String,
}

/// The last field of a note: without it the note is not whole.
const END: &str = "end";

fn put(text: &mut String, name: &str, value: &str) -> Result<(), AllocError> {
    text.push_str(name)?;
    text.push_str(value)?;
    text.push('\0')?;
    Ok(())
}

/// The text of the file of a contract's note. It has the contract's mark in the environment, and its control group.
pub(crate) fn note_text(
    alloc: Global,
    note: &Note,
    mark: &str,
    group: Option<&str>,
) -> Result<String, AllocError> {
    let mut text = String::new(alloc);
    put(&mut text, "instance=", note.instance.as_str())?;
    put(&mut text, "env=SMF_CONTRACT=", mark)?;
    if let Some(group) = group {
        put(&mut text, "group=", group)?;
    }
    text.push_str(note.rest.as_str())?;
    put(&mut text, END, "")?;
    Ok(text)
}

/// The value of the first field that begins with this name, as `group=`, in a text of fields with a byte 0 behind each.
pub fn field_in<'a>(text: &'a str, name: &str) -> Option<&'a str> {
    for field in text.split('\0') {
        if let Some(value) = strip(name, field) {
            return Some(value);
        }
    }
    None
}

/// The note that a file has. None if it is not whole, or names no instance.
pub(crate) fn read_note(alloc: Global, text: &str) -> Result<Option<Note>, AllocError> {
    let Some(fields) = text.strip_suffix("\0end\0") else {
        return Ok(None);
    };
    let Some(instance) = field_in(fields, "instance=") else {
        return Ok(None);
    };
    let mut rest = String::new(alloc);
    for field in fields.split('\0') {
        if strip("instance=", field).is_none() {
            put(&mut rest, field, "")?;
        }
    }
    Ok(Some(Note {
        instance: format!(in alloc; "{instance}")?,
        rest,
    }))
}
