// A file in the folder of contracts that tells on what evidence instances were started and stopped last.
use crate::contracts::write_whole;
use crate::why::Provenance;
use smf_model::Journal;
use smf_node::Node;
use smf_world::Item;
use std::rt::HostRuntime;
use std::{fs, io};

/// A file of more blocks is not written while something happens in each turn.
const MANY: usize = 256;

/// But it is after so many turns.
const PATIENCE: usize = 32;

/// A file in the folder of contracts, by which `svcs --why` tells on what evidence instances were started and stopped.
#[derive(Drop)]
pub(crate) struct WhyFile<'a> {
    rt: &'a HostRuntime,
    /// The path of the folder.
    room: &'a str,
    told: Provenance,
    /// In so many turns something happened since the file was written last.
    turns: usize,
}

impl<'a> WhyFile<'a> {
    /// The file in a room, for a server that boots.
    pub(crate) fn new(rt: &'a HostRuntime, room: &'a str) -> WhyFile<'a> {
        WhyFile {
            rt,
            room,
            told: Provenance::new(rt.alloc()),
            turns: 0,
        }
    }

    /// The file in a room, for a server that goes on: what an older life has told stays.
    pub(crate) fn older(rt: &'a HostRuntime, room: &'a str) -> io::Result<WhyFile<'a>> {
        let path = path_in(rt, room)?;
        match fs::read_to_string(rt, path.as_str()) {
            Ok(text) => Ok(WhyFile {
                rt,
                room,
                told: Provenance::older(rt.alloc(), text.as_str())?,
                turns: 0,
            }),
            Err(fault) if fault.kind() == io::ErrorKind::NotFound => Ok(WhyFile::new(rt, room)),
            Err(fault) => Err(fault),
        }
    }

    fn write<J: Journal>(&mut self, node: &Node<J>) -> io::Result<()> {
        let text = self.told.take_text(node)?;
        let path = path_in(self.rt, self.room)?;
        self.turns = 0;
        write_whole(self.rt, path.as_str(), text.as_str())
    }

    /// Tells what happened in a turn.
    pub(crate) fn tell<J: Journal>(&mut self, items: &[Item], node: &Node<J>) -> io::Result<()> {
        if !items.is_empty() {
            self.turns = self.turns.saturating_add(1);
            self.told.follow(items, node)?;
        }
        let is_due = items.is_empty() || self.turns > PATIENCE || self.told.count() <= MANY;
        if self.told.is_new() && is_due {
            self.write(node)?;
        }
        Ok(())
    }
}

fn path_in(rt: &HostRuntime, room: &str) -> io::Result<String> {
    Ok(format!(in rt.alloc(); "{room}/why")?)
}
