// When a server ticks: often while it is called, and seldom after that or while its turns fail.
use std::env;
use std::rt::HostRuntime;
use std::time::Duration;

/// The milliseconds between two ticks while the server was called lately.
const SHORT: u64 = 100;

/// The milliseconds between two ticks after that.
const LONG: u64 = 1_000;

/// For so many milliseconds after a call it was lately.
const LATELY: u64 = 5_000;

/// The milliseconds between a ring and its tick. Others ring too meanwhile, and while a tick is done.
const GATHERING: u64 = 1;

/// The milliseconds after a turn that failed, while few have failed one after another.
const RETRY: u64 = 1_000;

/// So many are few.
const FEW: u32 = 10;

/// The milliseconds after a turn that failed, if more have.
const LATE_RETRY: u64 = 10_000;

/// When ticks are due. Each time is of the clock, and none if that could not be read.
#[derive(Drop)]
pub(crate) struct Pace {
    /// The time between two ticks that SMF_TICK names.
    named: Option<Duration>,
    /// When the last tick was done.
    ticked: Option<Duration>,
    /// When it was called last, or was begun.
    called: Option<Duration>,
    /// When somebody rang first since the last tick.
    rang: Option<Duration>,
    /// How many turns have failed one after another.
    failures: u32,
    /// True if the last turn failed.
    has_failed: bool,
}

/// The time between two ticks that SMF_TICK names; none if that is no count from 1 on.
fn named_pause(rt: &HostRuntime) -> Option<Duration> {
    let named = env::var(rt, "SMF_TICK").ok()?;
    match named.as_str().parse::<u64>() {
        Ok(0) => None,
        Ok(pause) => Some(Duration::from_millis(pause)),
        Err(_) => None,
    }
}

/// What has passed of a time; nothing if the clock cannot be read.
fn passed(since: Option<Duration>, now: Option<Duration>) -> Duration {
    match (since, now) {
        (Some(since), Some(now)) => now.saturating_sub(since),
        _ => Duration::from_millis(0),
    }
}

/// What is left of so many milliseconds.
fn left_of(pause: Duration, since: Option<Duration>, now: Option<Duration>) -> Duration {
    pause.saturating_sub(passed(since, now))
}

impl Pace {
    /// The pace of a server that begins now. Its first tick comes soon.
    pub(crate) fn new(rt: &HostRuntime, now: Option<Duration>) -> Pace {
        Pace {
            named: named_pause(rt),
            ticked: None,
            called: now,
            rang: now,
            failures: 0,
            has_failed: false,
        }
    }

    /// The time between two ticks.
    fn pause(&self, now: Option<Duration>) -> Duration {
        match self.named {
            Some(named) => named,
            None if passed(self.called, now) < Duration::from_millis(LATELY) => {
                Duration::from_millis(SHORT)
            }
            None => Duration::from_millis(LONG),
        }
    }

    /// The time after a turn that failed; none if the last one did not.
    fn retry_pause(&self) -> Option<Duration> {
        match self.failures {
            0 => None,
            1..=FEW => Some(Duration::from_millis(RETRY)),
            _ => Some(Duration::from_millis(LATE_RETRY)),
        }
    }

    /// The time until the next tick is due. Nobody who rings hastens it while turns fail.
    pub(crate) fn left(&mut self, now: Option<Duration>) -> Duration {
        self.ticked = self.ticked.or(now);
        if let Some(pause) = self.retry_pause() {
            return left_of(pause, self.ticked, now);
        }
        match self.rang {
            Some(rang) => left_of(Duration::from_millis(GATHERING), Some(rang), now),
            None => left_of(self.pause(now), self.ticked, now),
        }
    }

    /// The server ticks. The time to the next tick begins when that is done, so that calls come between ticks that take
    /// long.
    pub(crate) fn tick(&mut self) {
        self.ticked = None;
        self.rang = None;
    }

    /// A turn failed.
    pub(crate) fn fail(&mut self) {
        self.failures = self.failures.saturating_add(1);
        self.has_failed = true;
    }

    /// The last turn is over.
    pub(crate) fn end_turn(&mut self) {
        if !self.has_failed {
            self.failures = 0;
        }
        self.has_failed = false;
    }

    /// Somebody asks something.
    pub(crate) fn ask(&mut self, now: Option<Duration>) {
        self.called = now;
    }

    /// Somebody rings, so that a tick comes soon.
    pub(crate) fn ring(&mut self, now: Option<Duration>) {
        self.called = now;
        self.rang = self.rang.or(now);
    }
}
