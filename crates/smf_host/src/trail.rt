// What all servers of a database told, in a file beside it.
use smf_chronicle::{Entry, entry_line, item_line, link_to};
use smf_contract::{Contract, Cookie, Method};
use smf_model::Journal;
use smf_node::Node;
use smf_world::Item;
use std::alloc::{AllocError, Global};
use std::fs::File;
use std::io::Write;
use std::os::unix::fs::OpenOptionsExt;
use std::rt::HostRuntime;
use std::time::{SystemTime, UNIX_EPOCH};
use std::{env, fs, io, str};

/// The bytes of a file from which on the next file is begun, unless SMF_TRAIL_MAX says otherwise.
const MOST: u64 = 16 * 1024 * 1024;

/// The link of the first line of all.
const NO_LINE: &str = "0000000000000000000000000000000000000000000000000000000000000000";

/// The chronicle of a database. What was told last is lost if the system stops: nothing is synced.
#[derive(Drop)]
pub struct TrailFile<'a> {
    rt: &'a HostRuntime,
    path: String,
    /// The file goes on in the next one from so many bytes on. With 0 none is kept.
    most: u64,
    /// The digest of the last line. None if the next line has to begin a life.
    link: Option<String>,
    /// The bytes of the file.
    size: u64,
    /// Whether it was told that the file cannot be written.
    is_told: bool,
}

/// Lines that are added to a file, and the digest of the last of them.
#[derive(Drop)]
struct Lines {
    text: String,
    link: String,
    /// When they are written, in milliseconds since 1970.
    time: u64,
}

impl Lines {
    fn new(alloc: Global, link: &str, time: u64) -> Result<Lines, AllocError> {
        Ok(Lines {
            text: String::new(alloc),
            link: String::from_str(alloc, link)?,
            time,
        })
    }

    fn add(&mut self, alloc: Global, line: &str) -> Result<(), AllocError> {
        self.link = link_to(alloc, line)?;
        self.text.push_str(line)?;
        self.text.push('\n')
    }

    fn add_items(&mut self, alloc: Global, items: &[Item]) -> Result<(), AllocError> {
        for item in items {
            let line = item_line(alloc, self.link.as_str(), self.time, item)?;
            self.add(alloc, line.as_str())?;
        }
        Ok(())
    }

    fn add_entry(&mut self, alloc: Global, entry: &Entry) -> Result<(), AllocError> {
        let line = entry_line(alloc, self.link.as_str(), self.time, entry)?;
        self.add(alloc, line.as_str())
    }

    /// Adds the rows of a node, and the start contracts that live.
    fn add_found<J: Journal>(&mut self, alloc: Global, node: &Node<J>) -> Result<(), AllocError> {
        for entry in node.repository().entries() {
            let instance = &entry.instance;
            self.add_entry(
                alloc,
                &Entry::Row {
                    instance: instance.number.get(),
                    number: instance.row.number,
                    state: instance.row.state,
                },
            )?;
        }
        for contract in node.table().contracts() {
            if node.table().has_members(contract.id) {
                self.add_living(alloc, contract)?;
            }
        }
        Ok(())
    }

    fn add_living(&mut self, alloc: Global, contract: &Contract) -> Result<(), AllocError> {
        match Cookie::unpack(contract.cookie) {
            Some(
                Cookie {
                    instance,
                    run: _,
                    method: Method::Start,
                },
            ) => self.add_entry(
                alloc,
                &Entry::Living {
                    contract: contract.id.get(),
                    instance,
                },
            ),
            _ => Ok(()),
        }
    }
}

/// The milliseconds since 1970.
pub fn milliseconds(rt: &HostRuntime) -> io::Result<u64> {
    match SystemTime::now(rt)?.duration_since(UNIX_EPOCH) {
        Ok(since) => Ok(
            since
                .as_secs()
                .saturating_mul(1000)
                .saturating_add(u64::from(since.subsec_millis())),
        ),
        Err(_) => Ok(0),
    }
}

/// The bytes of a file that SMF_TRAIL_MAX names.
fn most_bytes(rt: &HostRuntime) -> u64 {
    match env::var(rt, "SMF_TRAIL_MAX") {
        Ok(named) => named.parse::<u64>().unwrap_or(MOST),
        Err(_) => MOST,
    }
}

/// The bytes of a file, none if it is not there.
fn bytes_in(rt: &HostRuntime, path: &str) -> io::Result<Vec<u8>> {
    match fs::read(rt, path) {
        Err(fault) if fault.kind() == io::ErrorKind::NotFound => Ok(Vec::new(rt.alloc())),
        read => read,
    }
}

/// How many bytes stand up to the end of the last whole line.
fn whole_lines(bytes: &[u8]) -> usize {
    match bytes.iter().rposition(|b| *b == b'\n') {
        Some(place) => place.saturating_add(1),
        None => 0,
    }
}

/// The last of whole lines, without its end.
fn last_line(bytes: &[u8]) -> &[u8] {
    match bytes {
        [] => bytes,
        [lines @ .., _] => &lines[whole_lines(lines).min(lines.len())..],
    }
}

/// The digest of the last whole line of a file, if it has one.
fn link_in(alloc: Global, bytes: &[u8]) -> io::Result<Option<String>> {
    let whole = &bytes[..whole_lines(bytes).min(bytes.len())];
    if whole.is_empty() {
        return Ok(None);
    }
    match str::from_utf8(last_line(whole)) {
        Ok(line) => Ok(Some(link_to(alloc, line)?)),
        Err(_) => Err(io::Error::from(io::ErrorKind::InvalidData)),
    }
}

impl<'a> TrailFile<'a> {
    /// The file at a path.
    pub fn new(rt: &'a HostRuntime, path: String) -> TrailFile<'a> {
        TrailFile {
            rt,
            path,
            most: most_bytes(rt),
            link: None,
            size: 0,
            is_told: false,
        }
    }

    /// The path of the file before this one.
    fn older_path(&self) -> Result<String, AllocError> {
        format!(in self.rt.alloc(); "{}.0", self.path.as_str())
    }

    /// Adds a text to the file, which it makes if it is not there.
    fn append(&mut self, text: &str) -> io::Result<()> {
        let mut file = File::options()
            .append(true)
            .create(true)
            .mode(0o600)
            .open(self.rt, self.path.as_str())?;
        file.write_all(text.as_bytes())?;
        self.size = self.size.saturating_add(text.len() as u64);
        Ok(())
    }

    /// Cuts off what stands behind the last whole line. Gives the link of the next line.
    fn take_up(&mut self) -> io::Result<String> {
        let alloc = self.rt.alloc();
        let bytes = bytes_in(self.rt, self.path.as_str())?;
        let whole = whole_lines(bytes.as_slice());
        if whole < bytes.len() {
            let file = File::options()
                .write(true)
                .open(self.rt, self.path.as_str())?;
            file.set_len(whole as u64)?;
        }
        self.size = whole as u64;
        if let Some(link) = link_in(alloc, bytes.as_slice())? {
            return Ok(link);
        }
        let older = self.older_path()?;
        let older = bytes_in(self.rt, older.as_str())?;
        match link_in(alloc, older.as_slice())? {
            Some(link) => Ok(link),
            None => Ok(String::from_str(alloc, NO_LINE)?),
        }
    }

    /// Begins a life behind a line. A life that boots tells so in what has happened. Any other tells what the node holds: what
    /// has happened is told by that.
    fn begin<J: Journal>(&mut self, link: &str, items: &[Item], node: &Node<J>) -> io::Result<()> {
        let alloc = self.rt.alloc();
        let mut lines = Lines::new(alloc, link, milliseconds(self.rt)?)?;
        lines.add_entry(alloc, &Entry::Life)?;
        match items {
            [Item::Boot, ..] => lines.add_items(alloc, items)?,
            _ => lines.add_found(alloc, node)?,
        }
        self.append(lines.text.as_str())?;
        self.link = Some(lines.link);
        Ok(())
    }

    fn add_items(&mut self, link: &str, items: &[Item]) -> io::Result<()> {
        let alloc = self.rt.alloc();
        let mut lines = Lines::new(alloc, link, milliseconds(self.rt)?)?;
        lines.add_items(alloc, items)?;
        self.append(lines.text.as_str())?;
        self.link = Some(lines.link);
        Ok(())
    }

    /// Whether the next file has to be begun. If it can wait, that is when nothing happens.
    fn is_full(&self, items: &[Item]) -> bool {
        let late = self.most.saturating_add(self.most / 4);
        self.size >= late || (self.size >= self.most && items.is_empty())
    }

    /// Lets the file be the older one, and begins the next.
    fn turn_over<J: Journal>(&mut self, link: &str, node: &Node<J>) -> io::Result<()> {
        let older = self.older_path()?;
        fs::rename(self.rt, self.path.as_str(), older.as_str())?;
        self.size = 0;
        self.begin(link, &[], node)
    }

    /// Whether nobody else has changed the file.
    fn is_ours(&self) -> bool {
        match fs::metadata(self.rt, self.path.as_str()) {
            Ok(known) => known.len() == self.size,
            Err(_) => false,
        }
    }

    /// Adds what has happened. If it fails, a later call begins a life.
    fn add<J: Journal>(&mut self, items: &[Item], node: &Node<J>) -> io::Result<()> {
        let link = match self.link.take() {
            Some(link) if self.is_ours() => link,
            _ => {
                let link = self.take_up()?;
                return self.begin(link.as_str(), items, node);
            }
        };
        if items.is_empty() {
            self.link = Some(link);
        } else {
            self.add_items(link.as_str(), items)?;
        }
        if self.is_full(items) {
            if let Some(link) = self.link.take() {
                self.turn_over(link.as_str(), node)?;
            }
        }
        Ok(())
    }

    /// Tells what has happened to a node. That the file cannot be written is told once, until it can. It is tried again when
    /// more has happened.
    pub(crate) fn tell<J: Journal>(&mut self, items: &[Item], node: &Node<J>) {
        if self.most == 0 {
            return;
        }
        if self.is_told && items.is_empty() {
            return;
        }
        match self.add(items, node) {
            Ok(()) => self.is_told = false,
            Err(_) if self.is_told => {}
            Err(_) => {
                self.is_told = true;
                let _told = eprintln!(self.rt; "smf: serve: the trail cannot be written");
            }
        }
    }
}
