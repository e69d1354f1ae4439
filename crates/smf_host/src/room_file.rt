// A file in the folder of contracts that is written whole.
use crate::contracts::write_whole;
use std::io;
use std::rt::HostRuntime;

/// A file in the folder of contracts. A text takes the place of the whole file, unless it is the one that was written last.
#[derive(Drop)]
pub(crate) struct RoomFile<'a> {
    rt: &'a HostRuntime,
    /// The path of the folder.
    room: &'a str,
    name: &'a str,
    /// The text that was written last. None was written for what an older server left.
    text: Option<String>,
}

impl<'a> RoomFile<'a> {
    pub(crate) fn new(rt: &'a HostRuntime, room: &'a str, name: &'a str) -> RoomFile<'a> {
        RoomFile {
            rt,
            room,
            name,
            text: None,
        }
    }

    /// The text that was written last.
    pub(crate) fn text(&self) -> &Option<String> {
        &self.text
    }

    fn is_written(&self, text: &str) -> bool {
        match &self.text {
            None => false,
            Some(written) => written.as_str() == text,
        }
    }

    /// Writes a text, unless it is the same as before.
    pub(crate) fn write(&mut self, text: String) -> io::Result<()> {
        if self.is_written(text.as_str()) {
            return Ok(());
        }
        let (room, name) = (self.room, self.name);
        let path = format!(in self.rt.alloc(); "{room}/{name}")?;
        write_whole(self.rt, path.as_str(), text.as_str())?;
        self.text = Some(text);
        Ok(())
    }
}
