// The stop of all services, which the server asks of itself by scripts.
use crate::contracts::write_whole;
use smf_fmri::Text;
use smf_model::{Journal, Plain};
use smf_stops::{StopLimits, StopStep, stop_plan, stop_step};
use std::alloc::AllocError;
use std::rt::HostRuntime;
use std::{env, fs, io};

/// The seconds between a signal and KILL, as smf_hold has them.
const PATIENCE: u64 = 10;

/// The most digits of seconds that a variable names.
const MOST_DIGITS: usize = 12;

/// What the server does next.
#[derive(Drop)]
enum Next {
    /// It looks how far the stop has come, by a script without lines.
    Looks,
    /// It does a script.
    Asks(Text),
    /// It waits until it has ticked.
    Waits,
    /// None goes any more.
    Ends,
}

/// A stop that is under way.
#[derive(Drop)]
pub(crate) struct OrderedStop<'a> {
    rt: &'a HostRuntime,
    folder: &'a str,
    next: Next,
    /// True if the script that was given has not been done yet.
    asks: bool,
    /// True if it was noted for how many seconds the stop may take.
    is_noted: bool,
}

/// The seconds that a variable names; none if it names no count.
fn named_seconds(rt: &HostRuntime, name: &str) -> Option<u64> {
    let named = env::var(rt, name).ok()?;
    let text = named.as_str();
    if text.len() > MOST_DIGITS || !text.bytes().all(|byte| byte.is_ascii_digit()) {
        return None;
    }
    text.parse::<u64>().ok()
}

/// For how long methods run that have no time-out.
fn limits(rt: &HostRuntime) -> StopLimits {
    StopLimits {
        patience: named_seconds(rt, "SMF_PATIENCE").unwrap_or(PATIENCE),
        untimed: match named_seconds(rt, "SMF_METHOD_TIMEOUT") {
            Some(0) | None => None,
            named => named,
        },
    }
}

impl<'a> OrderedStop<'a> {
    /// A stop that begins now, and writes into a folder how far it has come.
    pub(crate) fn new(rt: &'a HostRuntime, folder: &'a str) -> OrderedStop<'a> {
        OrderedStop {
            rt,
            folder,
            next: Next::Looks,
            asks: false,
            is_noted: false,
        }
    }

    /// The server has ticked.
    pub(crate) fn tick(&mut self) {
        if matches!(self.next, Next::Waits) {
            self.next = Next::Looks;
        }
    }

    /// True if a script was given that is not done yet.
    pub(crate) fn is_asking(&self) -> bool {
        self.asks
    }

    /// The script that the server does now, if it does one. If the one before was not done, since no server has booted,
    /// nothing is left to stop.
    pub(crate) fn script(&mut self) -> Result<Option<Vec<u8>>, AllocError> {
        if self.asks {
            self.asks = false;
            self.end();
            return Ok(None);
        }
        let script = match &self.next {
            Next::Looks => Vec::new(self.rt.alloc()),
            Next::Asks(script) => Vec::from_slice(self.rt.alloc(), script.as_str().as_bytes())?,
            Next::Waits | Next::Ends => return Ok(None),
        };
        self.asks = true;
        Ok(Some(script))
    }

    /// A script was done, and this is held. What was asked is looked at when the server has ticked.
    pub(crate) fn hear<J: Journal>(&mut self, repository: &Plain<J>) {
        self.asks = false;
        if !matches!(self.next, Next::Looks) {
            self.next = Next::Waits;
            return;
        }
        match self.look(repository) {
            Ok(StopStep::Asks(script)) => self.next = Next::Asks(script),
            Ok(StopStep::Over) => self.end(),
            Ok(StopStep::Waits) | Err(_) => self.next = Next::Waits,
        }
    }

    /// What is to be done by what is held. It is noted for how long the stop may take, once that can be written.
    fn look<J: Journal>(&mut self, repository: &Plain<J>) -> Result<StopStep, AllocError> {
        let alloc = self.rt.alloc();
        let view = repository.view()?;
        if !self.is_noted {
            let plan = stop_plan(alloc, &view, &limits(self.rt))?;
            self.is_noted = self.note(plan.seconds).is_ok();
        }
        stop_step(alloc, &view)
    }

    /// Writes for how many seconds the stop may take, or `none`.
    fn note(&self, seconds: Option<u64>) -> io::Result<()> {
        let alloc = self.rt.alloc();
        let path = format!(in alloc; "{}/limit", self.folder)?;
        let text = match seconds {
            Some(seconds) => format!(in alloc; "{seconds}\n")?,
            None => format!(in alloc; "none\n")?,
        };
        write_whole(self.rt, path.as_str(), text.as_str())
    }

    /// Writes that all have stopped.
    fn tell_end(&self) -> io::Result<()> {
        let path = format!(in self.rt.alloc(); "{}/stopped", self.folder)?;
        fs::write(self.rt, path.as_str(), "")
    }

    /// All have stopped. If that cannot be written, as on a full disk, it is tried again after the next tick.
    fn end(&mut self) {
        self.next = if self.tell_end().is_ok() {
            Next::Ends
        } else {
            Next::Waits
        };
    }
}
