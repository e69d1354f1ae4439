ghost use Rattle.std.specs.Prelude.{◌≡◌, ◌<◌, ℕ, MatchResult, Ok, Err, OnErr, Some, is_some, is_none};
ghost use Rattle.smf_state.specs.Rows.{GoesOn, is_past_last, run_of, still_live, is_next_run, is_steady, is_stopped, may_move, may_end, is_allowed, refusal, run_if_kept, asks_at, fresh, last_with, row_with_end_revision, row_after_step, result_of_proposal};
ghost use Rattle.smf_state.specs.declared.row.Row.{Row as AnyRow};
ghost use Rattle.smf_state.specs.declared.step.Proposal.{Proposal as AnyProposal};

use crate::fault::StepFault;
use crate::flags::{Asks, Ignore};
use crate::state::{Cause, Duration, State, edge};
use crate::step::{Proposal, Step};
use bitflags::Flags;
use smf_fmri::InstanceFmri;
use smf_fmri::limits::{MAX_COUNT, MAX_RUN};
use std::alloc::AllocError;

/// The state of an instance, as the repository holds it.
#[derive(Drop)]
pub struct Row {
    /// The restarter of the instance.
    pub owner: InstanceFmri,
    /// Grows by one with each granted step, each boot and each move.
    pub number: u64,
    pub state: State,
    /// The state that a transition under way leads to.
    pub next: Option<State>,
    /// The run of the start contract.
    pub live: Option<u64>,
    /// The run of a stop or refresh contract.
    pub side: Option<u64>,
    /// The greatest run so far.
    pub last: u64,
    /// Starts that failed in a row.
    pub failed: u64,
    pub asks: Asks,
    /// Why it stops or stopped.
    pub cause: Option<Cause>,
    pub duration: Duration,
    pub ignore: Ignore,
    /// The revision on which the last start was decided.
    pub base: u64,
    /// The revision of the last stop by an error.
    pub err: u64,
    /// The revision of the last other stop.
    pub stop: u64,
    /// The revision of the last refresh.
    pub refresh: u64,
    /// The revision of the last start that succeeded.
    pub start: u64,
    /// The snapshot `running`.
    pub running: Option<u64>,
    /// The snapshot of the start that was begun last.
    pub begun: Option<u64>,
    /// The launch and the serial of the last granted proposal.
    pub launch: u64,
    pub serial: u64,
}

impl Clone for Row {
    ghost is_clone = { λ s copy. copy ≡ s };

    fn clone(&self) -> Result<Row, AllocError> {
        let owner = self.owner.clone()?;
        Ok(Row { owner, ..*self })
    }
}

fn is_past_last(run: Option<u64>) -> bool
    ensures { result ≡ is_past_last run }
{
    match run {
        None => false,
        Some(run) => run > MAX_RUN,
    }
}

fn asks_at(old: State, new: State, asks: Asks) -> Asks
    ensures { result.0 ≡ asks_at old new asks.0 }
{
    if new == State::Maintenance {
        Asks::empty()
    } else if old == new {
        asks
    } else {
        asks.intersection(Asks::LASTING)
    }
}

fn is_stopped(state: State) -> bool
    ensures { result ≡ is_stopped state }
{
    matches!(state, State::Offline | State::Disabled | State::Maintenance)
}

fn may_move(from: State, to: State) -> bool
    ensures { result ≡ may_move from to }
{
    edge(from, to) && to != State::Uninitialized && from.runs() == to.runs()
}

fn may_end(state: State, next: Option<State>, to: State, keep: bool) -> bool
    ensures { result ≡ may_end state next to keep }
{
    match next {
        None => false,
        Some(State::Online) if state == State::Offline => {
            to == State::Online || (matches!(to, State::Offline | State::Maintenance) && !keep)
        }
        Some(next) if state.runs() && next == state => to == state && keep,
        Some(next) => {
            state.runs() && is_stopped(next) && (to == next || to == State::Maintenance) && !keep
        }
    }
}

impl Step {
    /// The run that a step begins.
    pub fn run(&self) -> Option<u64>
        ensures { result ≡ run_of self.now }
    {
        match self {
            Step::Start { run, .. } => Some(*run),
            Step::Stop { run, .. } | Step::Refresh { run } => *run,
            _ => None,
        }
    }
}

impl Row {
    /// The row of an instance that was just added: uninitialized, under number 0.
    pub fn new(owner: InstanceFmri) -> Row
        ensures { result ≡ fresh owner }
    {
        Row {
            owner,
            number: 0,
            state: State::Uninitialized,
            next: None,
            live: None,
            side: None,
            last: 0,
            failed: 0,
            asks: Asks::NONE,
            cause: None,
            duration: Duration::Contract,
            ignore: Ignore::none(),
            base: 0,
            err: 0,
            stop: 0,
            refresh: 0,
            start: 0,
            running: None,
            begun: None,
            launch: 0,
            serial: 0,
        }
    }

    fn is_steady(&self) -> bool
        ensures { result ≡ is_steady self.now }
    {
        self.next.is_none() && self.state.runs()
    }

    fn is_next_run(&self, run: Option<u64>) -> bool
        ensures { result ≡ is_next_run self.now run }
    {
        match run {
            None => true,
            Some(run) => self.last.checked_add(1) == Some(run),
        }
    }

    fn is_still_live(&self, step: &Step) -> bool
        ensures { result ≡ still_live self.now step.now }
    {
        match step {
            Step::Start { .. } => self.live.is_some(),
            Step::Move(to) => self.live.is_some() && !(self.state.runs() && to.runs()),
            _ => false,
        }
    }

    fn allows(&self, step: &Step) -> bool
        ensures { result ≡ is_allowed self.now step.now }
    {
        match step {
            Step::Move(to) => self.next.is_none() && may_move(self.state, *to),
            Step::Start { run, .. } => {
                self.state == State::Offline && self.next.is_none() && self.is_next_run(Some(*run))
            }
            Step::Stop { to, run, .. } => {
                self.is_steady() && is_stopped(*to) && self.is_next_run(*run)
            }
            Step::Refresh { run } => self.is_steady() && self.is_next_run(*run),
            Step::End {
                to,
                keep,
                failed,
                ..
            } => {
                may_end(self.state, self.next, *to, *keep)
                    && (*to == State::Offline || *failed == 0)
            }
            Step::Note { bits, .. } => self.is_steady() && Asks::NOTES.contains(*bits),
        }
    }

    fn refusal(&self, step: &Step) -> Option<StepFault>
        ensures { result ≡ refusal self.now step.now }
    {
        if self.number >= MAX_COUNT || is_past_last(step.run()) {
            Some(StepFault::Exhausted)
        } else if self.is_still_live(step) {
            Some(StepFault::StillLive)
        } else if matches!(step, Step::End { .. }) && self.next.is_none() {
            Some(StepFault::NotLive)
        } else if self.allows(step) {
            None
        } else {
            Some(StepFault::NoEdge)
        }
    }

    /// Takes a move, for which the revision does not count.
    fn take_move(&mut self, to: State)
        ensures { self.new ≡ row_after_step self.old (Step.Move to) 0 }
    {
        self.asks = asks_at(self.state, to, self.asks);
        self.state = to;
        self.failed = 0;
    }

    /// Takes a start, for which the revision does not count.
    fn take_start(&mut self, run: u64, snapshot: u64, duration: Duration, ignore: Ignore, base: u64)
        ensures { self.new ≡ row_after_step self.old (Step.Start run snapshot duration ignore base) 0 }
    {
        self.next = Some(State::Online);
        self.live = Some(run);
        self.last = run;
        self.begun = Some(snapshot);
        self.duration = duration;
        self.ignore = ignore;
        self.base = base;
    }

    /// Takes a step, the number, launch and serial aside.
    fn take(&mut self, step: &Step, revision: u64)
        ensures { self.new ≡ row_after_step self.old step.now revision }
    {
        match step {
            Step::Move(to) => self.take_move(*to),
            Step::Start {
                run,
                snapshot,
                duration,
                ignore,
                base,
            } => self.take_start(*run, *snapshot, *duration, *ignore, *base),
            Step::Stop { to, cause, run } => {
                self.next = Some(*to);
                self.cause = Some(*cause);
                self.begin_side(*run);
            }
            Step::Refresh { run } => {
                self.next = Some(self.state);
                self.begin_side(*run);
                self.asks.remove(Asks::REFRESH);
            }
            Step::End {
                to,
                keep,
                failed,
                cause,
            } => self.take_end(*to, *keep, *failed, *cause, revision),
            Step::Note { bits, keep } => {
                self.asks.insert(*bits);
                self.keep_live(*keep);
            }
        }
    }

    fn take_end(&mut self, to: State, keep: bool, failed: u64, cause: Cause, revision: u64)
        ensures { self.new ≡ row_after_step self.old (Step.End to keep failed cause) revision }
    {
        self.mark_end(to, cause, revision);
        self.asks = asks_at(self.state, to, self.asks);
        self.state = to;
        self.next = None;
        self.side = None;
        self.keep_live(keep);
        self.failed = failed;
    }

    fn keep_live(&mut self, keep: bool)
        ensures { self.new ≡ record self.old { live = run_if_kept keep self.old.live } }
    {
        if !keep {
            self.live = None;
        }
    }

    fn begin_side(&mut self, run: Option<u64>)
        ensures { self.new ≡ record self.old { side = run; last = last_with self.old.last run } }
    {
        self.side = run;
        if let Some(run) = run {
            self.last = run;
        }
    }

    /// Notes the revision of an end from running, or of a start that succeeded.
    fn mark_end(&mut self, to: State, cause: Cause, revision: u64)
        ensures { self.new ≡ row_with_end_revision self.old to cause revision }
    {
        if self.state.runs() && !to.runs() {
            if cause == Cause::Error {
                self.err = revision;
            } else {
                self.stop = revision;
            }
        }
        if self.state == State::Offline && to == State::Online {
            self.start = revision;
        }
    }

    /// Takes the step of a proposal into the row at a revision, or gives the first reason to refuse it. The reasons
    /// stand in the order of the faults. Takes no memory. The repository itself sets the snapshots `running` and
    /// `start`.
    #[tactic(auto, unfolding(crate::specs::Rows::result_of_proposal))]
    pub fn apply(&mut self, proposal: &Proposal, revision: u64) -> Result<(), StepFault>
        ensures exact { MatchResult result (λ _. result_of_proposal self.old proposal.now revision ≡ Ok self.new)
            (λ e. result_of_proposal self.old proposal.now revision ≡ Err e) }
        ensures err { OnErr result (self.new ≡ self.old) }
    {
        if let Some(fault) = self.refusal(&proposal.step) {
            return Err(fault);
        }
        let Some(number) = self.number.checked_add(1) else {
            return Err(StepFault::Exhausted);
        };
        self.take(&proposal.step, revision);
        self.number = number;
        self.launch = proposal.launch;
        self.serial = proposal.serial;
        Ok(())
    }
}

/// A law of the definitions, for every row and step.
pub fn steps_go_along_the_diagram()
    ensures { (r after : AnyRow) (p : AnyProposal) (revision : ℕ) → result_of_proposal r p revision ≡ Ok after
        → GoesOn r after }
{}
