//! A desk, a clock and contracts that give what was recorded again, each kind of answer in its order.

ghost use Rattle.std.specs.Prelude.{◌≡◌, ◌+◌, ◌-◌, ◌<◌, ◌∷◌, ◌||◌, length, min, not, slice_get, true};
ghost use Rattle.std.specs.Duration.{as_nanos};
ghost use Rattle.std.specs.Option.{option_copied};
ghost use Rattle.std.specs.VecDeque.{deque_len};
ghost use Rattle.smf_record.specs.Answers.{IsStartEnd};
ghost use Rattle.smf_record.specs.Replays.{end_for, ended, is_start, stands_left, stood, time_of, time_or};
ghost use Rattle.smf_record.specs.declared.answer.EndAnswer.TheVariants.{Failed};
ghost use Rattle.smf_record.specs.declared.answer.StandAnswer.TheVariants.{Lost};
ghost use Rattle.smf_record.specs.declared.answer.StartAnswer.{StartAnswer};
ghost use Rattle.smf_record.specs.declared.answer.StartEnd.TheVariants.{Refused};
ghost use Rattle.smf_watch.specs.declared.ask.ServerInput.TheVariants as asks;

use crate::answer::{EndAnswer, Moment, StandAnswer, StartAnswer, StartEnd};
use crate::gathered::StandRun;
use smf_edge::{Contracts, Stand, Start};
use smf_model::{Journal, Plain};
use smf_watch::{Desk, ServerInput, Timer};
use std::alloc::{AllocError, Global};
use std::cell::Cell;
use std::collections::VecDeque;
use std::io;
use std::io::ErrorKind;
use std::time::Duration;

/// The answer that was recorded next, or another one if none is left.
fn take_or<T: Drop>(answers: &mut VecDeque<T>, other: T) -> T
    ensures given { 0 < deque_len answers.old → answers.old.items ≡ result ∷ answers.new.items }
    ensures over { deque_len answers.old ≡ 0 → result ≡ other }
{
    match answers.pop_front() {
        Some(answer) => answer,
        None => other,
    }
}

/// A reply, and its status.
#[derive(Drop)]
pub struct Said {
    pub text: Vec<u8>,
    pub status: u8,
}

fn copy_reply(alloc: Global, text: &[u8], status: u8) -> Result<Said, AllocError> {
    let text = text.to_vec(alloc)?;
    Ok(Said { text, status })
}

/// A desk that asks again what was asked, and leaves when no more was.
#[derive(Drop)]
pub struct ReplayedDesk {
    alloc: Global,
    inputs: VecDeque<ServerInput>,
    replies: VecDeque<bool>,
    said: Option<Said>,
}

impl ReplayedDesk {
    pub fn new(
        alloc: Global,
        inputs: VecDeque<ServerInput>,
        replies: VecDeque<bool>,
    ) -> ReplayedDesk
        ensures inputs { result.inputs ≡ inputs }
        ensures replies { result.replies ≡ replies }
    {
        ReplayedDesk {
            alloc,
            inputs,
            replies,
            said: None,
        }
    }

    /// The last reply. None if there was none, or memory ran out for it.
    pub fn into_said(self) -> Option<Said> {
        let ReplayedDesk {
            alloc: _,
            inputs: _inputs,
            replies: _replies,
            said,
        } = self;
        said
    }
}

impl Desk for ReplayedDesk {
    ghost use Rattle.std.specs.Prelude.{None};

    ghost passed = { λ _. None };

    ghost leaves = { λ _ _ _. ⊥ };

    fn next(&mut self) -> ServerInput
        ensures given { 0 < deque_len self.old.inputs → self.old.inputs.items ≡ result ∷ self.new.inputs.items }
        ensures over { deque_len self.old.inputs ≡ 0 → result ≡ asks.Leave }
        ensures replies { self.new.replies ≡ self.old.replies }
    {
        take_or(&mut self.inputs, ServerInput::Leave)
    }

    /// A reply that was not recorded is written.
    fn reply<J: Journal>(&mut self, _repository: &Plain<J>, text: &[u8], status: u8) -> bool
        ensures given { 0 < deque_len self.old.replies → self.old.replies.items ≡ result ∷ self.new.replies.items }
        ensures over { deque_len self.old.replies ≡ 0 → result ≡ true }
        ensures inputs { self.new.inputs ≡ self.old.inputs }
    {
        self.said = copy_reply(self.alloc, text, status).ok();
        take_or(&mut self.replies, true)
    }

    fn tell(&mut self, _line: &str)
        ensures { self.new ≡ self.old }
    {}

    fn pause(&mut self)
        ensures { self.new ≡ self.old }
    {}
}

/// The time of a moment.
fn duration_of(moment: &Moment) -> Duration
    ensures { as_nanos result ≡ time_of moment.now }
{
    let nanoseconds = Duration::from_nanos(u64::from(moment.nanoseconds));
    Duration::from_secs(moment.seconds).saturating_add(nanoseconds)
}

fn moment_at(times: &[Moment], place: usize) -> Option<&Moment>
    ensures { option_copied result ≡ slice_get times.now place }
{
    times.get(place)
}

/// The time at a place, or behind all times the last.
fn time_at(times: &[Moment], place: usize) -> Duration
    ensures { as_nanos result ≡ time_or (slice_get times.now (min place (length times.now - 1))) }
{
    let last = times.len().saturating_sub(1);
    match moment_at(times, place.min(last)) {
        Some(moment) => duration_of(moment),
        None => Duration::from_secs(0),
    }
}

/// A clock that says again what was said, and then goes on to say the last time. No contract sees how far it is.
#[derive(Drop)]
pub struct ReplayedTimer {
    times: Vec<Moment>,
    place: Cell<usize>,
}

impl ReplayedTimer {
    pub fn new(times: Vec<Moment>) -> ReplayedTimer
        ensures { result.times ≡ times }
    {
        ReplayedTimer {
            times,
            place: Cell::new(0),
        }
    }
}

impl Timer for ReplayedTimer {
    ghost use Rattle.smf_record.specs.Replays.{IsTimeIn};

    ghost says = { λ s. IsTimeIn s.times.items };

    fn now(&self) -> Duration {
        let place = self.place.get();
        self.place.set(place.saturating_add(1));
        time_at(self.times.as_slice(), place)
    }
}

/// How contracts stand, as it was recorded.
#[derive(Drop)]
pub struct Stands {
    last: StandAnswer,
    /// So often more the last one is given.
    again: u64,
    runs: VecDeque<StandRun>,
}

impl Stands {
    fn next(&mut self) -> StandAnswer
        ensures given { 0 < self.old.again + deque_len self.old.runs
            → stands_left self.old ≡ result ∷ stands_left self.new }
        ensures over { self.old.again + deque_len self.old.runs ≡ 0 → result ≡ Lost }
    {
        if self.again > 0 {
            self.again -= 1;
            return self.last;
        }
        let none = StandRun {
            stand: StandAnswer::Lost,
            more: 0,
        };
        let run = take_or(&mut self.runs, none);
        self.last = run.stand;
        self.again = run.more;
        run.stand
    }
}

/// A contract of which only the answers are known that were recorded.
#[derive(Drop)]
pub struct ReplayedContract {}

/// Contracts that answer again as they did.
#[derive(Drop)]
pub struct ReplayedContracts {
    starts: VecDeque<StartAnswer>,
    stands: Stands,
    ends: VecDeque<EndAnswer>,
    /// True if a start was asked for that is not the recorded one.
    differs: bool,
}

/// True if a recorded start is this one.
fn is_start(start: &Start, told: &StartAnswer) -> bool
    ensures { result ≡ is_start start.now told.now }
{
    told.contract == start.contract.get() && told.cookie == start.cookie
}

/// How a start ends that another was recorded for.
fn end_for(start: &Start, told: &StartAnswer) -> StartEnd
    ensures { result ≡ end_for start.now told.now }
{
    if is_start(start, told) {
        told.end
    } else {
        StartEnd::Refused
    }
}

/// What a start gives that ends so.
fn started_as(end: StartEnd) -> io::Result<ReplayedContract>
    ensures { IsStartEnd result end }
{
    match end {
        StartEnd::Made => Ok(ReplayedContract {}),
        StartEnd::Refused => Err(io::Error::from(ErrorKind::Other)),
        StartEnd::NoMemory => Err(io::Error::from(ErrorKind::OutOfMemory)),
    }
}

impl ReplayedContracts {
    pub fn new(
        starts: VecDeque<StartAnswer>,
        stands: VecDeque<StandRun>,
        ends: VecDeque<EndAnswer>,
    ) -> ReplayedContracts
        ensures starts { result.starts ≡ starts }
        ensures stands { result.stands.runs ≡ stands }
        ensures again { result.stands.again ≡ 0 }
        ensures ends { result.ends ≡ ends }
    {
        ReplayedContracts {
            starts,
            stands: Stands {
                last: StandAnswer::Lost,
                again: 0,
                runs: stands,
            },
            ends,
            differs: false,
        }
    }

    /// True if a start was asked for that is not the recorded one.
    pub fn differs(&self) -> bool
        ensures { result ≡ self.now.differs }
    {
        self.differs
    }

    /// What was recorded of the next start. If no more was, it is refused.
    fn next_start(&mut self, start: &Start) -> StartAnswer
        ensures given { 0 < deque_len self.old.starts → self.old.starts.items ≡ result ∷ self.new.starts.items }
        ensures over { deque_len self.old.starts ≡ 0 → result.end ≡ Refused }
        ensures differs { self.new.differs ≡ (self.old.differs || not (is_start start.now result)) }
        ensures stands { self.new.stands ≡ self.old.stands }
        ensures ends { self.new.ends ≡ self.old.ends }
    {
        let refused = StartAnswer {
            contract: start.contract.get(),
            cookie: start.cookie,
            end: StartEnd::Refused,
        };
        let told = take_or(&mut self.starts, refused);
        self.differs = self.differs || !is_start(start, &told);
        told
    }
}

impl Contracts for ReplayedContracts {
    ghost use Rattle.std.specs.Prelude.{None};

    type Held = ReplayedContract;

    ghost facts = { record {
      is_of = λ _ _. Unit {0};
      start_fails = λ _. Unit {0};
      stands = λ _ _. Unit {0};
      is_lost = λ _. Unit {0};
      is_ended = λ _. Unit {0};
      may_live = λ _. Unit {0};
    } };

    ghost made = { λ _. None };

    /// A start that is not the recorded one is refused.
    fn start(&mut self, start: &Start) -> io::Result<ReplayedContract>
        ensures given { 0 < deque_len self.old.starts → (told : StartAnswer)
            × (self.old.starts.items ≡ told ∷ self.new.starts.items)
            × (IsStartEnd result (end_for start.now told))
            × (self.new.differs ≡ (self.old.differs || not (is_start start.now told))) }
        ensures over { deque_len self.old.starts ≡ 0 → IsStartEnd result Refused }
    {
        let told = self.next_start(start);
        started_as(end_for(start, &told))
    }

    fn stand(&mut self, _held: &mut ReplayedContract) -> io::Result<Stand>
        ensures given { 0 < self.old.stands.again + deque_len self.old.stands.runs
            → stands_left self.old.stands ≡ stood result ∷ stands_left self.new.stands }
        ensures over { self.old.stands.again + deque_len self.old.stands.runs ≡ 0 → stood result ≡ Lost }
    {
        match self.stands.next() {
            StandAnswer::Runs => Ok(Stand::Runs),
            StandAnswer::Left(end) => Ok(Stand::Left(end)),
            StandAnswer::Gone(end) => Ok(Stand::Gone(end)),
            StandAnswer::Lost => Err(io::Error::from(ErrorKind::Other)),
        }
    }

    fn end(&mut self, _held: &mut ReplayedContract) -> io::Result<bool>
        ensures given { 0 < deque_len self.old.ends → self.old.ends.items ≡ ended result ∷ self.new.ends.items }
        ensures over { deque_len self.old.ends ≡ 0 → ended result ≡ Failed }
    {
        match take_or(&mut self.ends, EndAnswer::Failed) {
            EndAnswer::Ended => Ok(true),
            EndAnswer::Lives => Ok(false),
            EndAnswer::Failed => Err(io::Error::from(ErrorKind::Other)),
        }
    }
}
