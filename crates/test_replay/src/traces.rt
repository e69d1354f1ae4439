use log::{Log, trace};
use smf_contract::{Exit, Failure};
use smf_world::{Event, ProcessEvent, SpawnAnswer};
use std::fmt;

/// Shows an event as the line that gives it.
#[derive(Clone, Copy)]
struct Line<'a>(&'a Event);

fn failure_word(failure: Failure) -> &'static str {
    match failure {
        Failure::Core => "core",
        Failure::Signal => "signal",
        Failure::Hwerr => "hwerr",
    }
}

fn put_process<W: fmt::Write>(
    f: &mut fmt::Formatter<W>,
    process: u64,
    what: ProcessEvent,
) -> fmt::Result {
    match what {
        ProcessEvent::Fork => write!(f, "process {process} fork"),
        ProcessEvent::Exit(Exit::Killed) => write!(f, "process {process} exit killed"),
        ProcessEvent::Exit(Exit::Code(code)) => write!(f, "process {process} exit {code}"),
        ProcessEvent::Fail(failure) => {
            let word = failure_word(failure);
            write!(f, "process {process} {word}")
        }
    }
}

/// The answer that stands at the end of a tick's line: none if the spawn is made.
fn answer_word(spawn: SpawnAnswer) -> &'static str {
    match spawn {
        SpawnAnswer::Made => "",
        SpawnAnswer::Refused => " refused",
        SpawnAnswer::NotFollowed => " notfollowed",
    }
}

impl<'a> fmt::Display for Line<'a> {
    fn fmt<W: fmt::Write>(&self, f: &mut fmt::Formatter<W>) -> fmt::Result {
        match self.0 {
            Event::Deliver(place) => write!(f, "deliver {place}"),
            Event::Client(_) => write!(f, "client"),
            Event::Ask => write!(f, "ask"),
            Event::Orders => write!(f, "orders"),
            Event::Boot => write!(f, "boot"),
            Event::OwnTick(name) => write!(f, "tick {name} 0"),
            Event::Tick {
                restarter,
                instance,
                spawn,
            } => {
                let answer = answer_word(*spawn);
                write!(f, "tick {restarter} {instance}{answer}")
            }
            Event::Process { process, what } => put_process(f, process.get(), *what),
            Event::Report { contract, number } => {
                let (contract, number) = (contract.get(), number.get());
                write!(f, "report {contract} {number}")
            }
            Event::Timeout {
                restarter,
                instance,
            } => write!(f, "timeout {restarter} {instance}"),
            Event::Crash(name) => write!(f, "crash {name}"),
            Event::Launch(name) => write!(f, "launch {name}"),
        }
    }
}

/// Traces an event that is given to the node.
pub(crate) fn trace_event<L: Log>(log: &L, event: &Event) {
    trace!(log; target: "event", "{}", Line(event));
}

/// Traces a line of a script that is done.
pub(crate) fn trace_line<L: Log>(log: &L, text: &str) {
    trace!(log; target: "line", "{}", text);
}
