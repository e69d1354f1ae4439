ghost use Rattle.std.specs.Prelude.{◌≡◌, ◌==◌, ◌+◌, true, IfOk, Some, None};
ghost use Rattle.smf_model.specs.Next.{answer, answer_at, fresh_answer, outcome_of_grant, is_again, is_other_snapshot};
ghost use Rattle.smf_model.specs.Next.{is_running, refusal_with, snapshot_in, stale, started_by, takes_running, with_row};

use crate::change::Change;
use crate::command::CommandReply;
use crate::held::Instance;
use crate::planner::{Asked, Planner, with_change};
use smf_fmri::limits::MAX_COUNT;
use smf_fmri::{Items, Number};
use smf_state::{Proposal, Row, SharedRow, State, Step, StepFault, Why};
use std::alloc::AllocError;

/// The proposal that was granted last.
fn is_again(row: &Row, proposal: &Proposal) -> bool
    ensures { result ≡ is_again row.now proposal.now }
{
    row.owner == proposal.proposer && row.launch == proposal.launch && row.serial == proposal.serial
}

fn is_running(running: Option<u64>, snapshot: u64) -> bool
    ensures { result ≡ is_running running snapshot }
{
    match running {
        None => false,
        Some(running) => running == snapshot,
    }
}

fn is_other_snapshot(row: &Row, step: &Step) -> bool
    ensures { result ≡ is_other_snapshot row.now step.now }
{
    match step {
        Step::Start { snapshot, .. } => !is_running(row.running, *snapshot),
        _ => false,
    }
}

fn is_next_number(before: u64, number: u64) -> bool
    ensures { result ≡ (number == before + 1) }
{
    before.checked_add(1) == Some(number)
}

/// The number of a snapshot, which is below 2^63.
fn snapshot_in(number: Option<u64>) -> Option<Number>
    ensures { result ≡ snapshot_in number }
{
    match number {
        None => None,
        Some(number) => Number::new(number),
    }
}

/// A start that succeeded was by the snapshot with which it began.
fn started_by(before: &Row, after: &Row, start: Option<Number>) -> Option<Number>
    ensures { result ≡ started_by before.now after.now start }
{
    if before.state == State::Offline && after.state == State::Online {
        snapshot_in(after.begun)
    } else {
        start
    }
}

/// The move that leaves uninitialized takes the snapshot `running`, if there is none.
fn takes_running(before: &Row, after: &Row) -> bool
    ensures { result ≡ takes_running before.now after.now }
{
    before.state == State::Uninitialized
        && after.state != State::Uninitialized
        && before.running.is_none()
}

fn with_row(mut instance: Instance, row: SharedRow) -> Instance
    ensures { result ≡ with_row instance row }
{
    instance.start = started_by(&instance.row, &row, instance.start);
    instance.row = row;
    instance
}

/// The change that gives an instance a row.
fn put_row(instance: &Instance, row: &SharedRow) -> Result<Change, AllocError>
    ensures { IfOk result (λ c. c ≡ Change.PutInstance (with_row instance.now row.now)) }
{
    let row = row.clone()?;
    let instance = instance.clone()?;
    Ok(Change::PutInstance(with_row(instance, row)))
}

impl Planner<'_> {
    /// Why a proposal is refused before its step is looked at, the first reason.
    fn stale(&self, row: &Row, proposal: &Proposal) -> Option<Why>
        ensures { result ≡ stale self.now row.now proposal.now }
    {
        if proposal.launch == 0 || proposal.launch != self.tables.launch_of(&proposal.proposer) {
            Some(Why::Launch)
        } else if row.owner != proposal.proposer {
            Some(Why::Owner)
        } else if !is_next_number(row.number, proposal.number) {
            Some(Why::Number)
        } else if is_other_snapshot(row, &proposal.step) {
            Some(Why::Snapshot)
        } else {
            None
        }
    }

    fn outcome_of_grant(&self, instance: &Instance, row: Row, takes: bool) -> Asked
        ensures { IfOk result (λ r. r ≡ outcome_of_grant self.now instance.now row takes) }
    {
        if takes {
            return self.granted_with_snapshot(instance, row);
        }
        let row = SharedRow::of(self.alloc, row)?;
        let change = put_row(instance, &row)?;
        self.one(change, CommandReply::Granted(row))
    }

    fn granted_with_snapshot(&self, instance: &Instance, mut row: Row) -> Asked
        ensures { IfOk result (λ r. r ≡ outcome_of_grant self.now instance.now row true) }
    {
        row.running = Some(self.tables.next_snapshot().get());
        let row = SharedRow::of(self.alloc, row)?;
        let change = put_row(instance, &row)?;
        let changes = with_change(Items::new(self.alloc), change)?;
        self.with_snapshot(instance, changes, CommandReply::Granted(row))
    }

    /// Takes the step of a proposal, whose reasons to be refused were looked at.
    fn step_answer(&self, instance: &Instance, proposal: &Proposal) -> Asked
        ensures { IfOk result (λ r. r ≡ fresh_answer self.now instance.now proposal.now None) }
    {
        let mut row = instance.row.to_row()?;
        let revision = self.tables.revision().get() + 1;
        match row.apply(proposal, revision) {
            Err(fault) => self.refused_step(instance, fault),
            Ok(()) if row.serial > MAX_COUNT => self.refusal_with(CommandReply::Limit),
            Ok(()) => {
                let takes = takes_running(&instance.row, &row);
                self.outcome_of_grant(instance, row, takes)
            }
        }
    }

    fn refused_step(&self, instance: &Instance, fault: StepFault) -> Asked
        ensures { IfOk result (λ r. r ≡ refusal_with (CommandReply.Stale (Why.Step fault) (Some instance.now.row))) }
    {
        let row = instance.row.clone()?;
        self.refusal_with(CommandReply::Stale(Why::Step(fault), Some(row)))
    }

    fn answer_at(&self, instance: &Instance, proposal: &Proposal) -> Asked
        ensures { IfOk result (λ r. r ≡ answer_at self.now proposal.now (Some instance.now)) }
    {
        if is_again(&instance.row, proposal) {
            return self.refusal_with(CommandReply::Granted(instance.row.clone()?));
        }
        match self.stale(&instance.row, proposal) {
            Some(why) => self.refusal_with(CommandReply::Stale(why, Some(instance.row.clone()?))),
            None => self.step_answer(instance, proposal),
        }
    }

    /// The answer to a proposal.
    #[tactic(auto, unfolding(crate::specs::Next::answer))]
    pub(crate) fn answer(&self, proposal: &Proposal) -> Asked
        ensures { IfOk result (λ r. r ≡ answer self.now proposal.now) }
    {
        match self.current_instance(proposal.instance)? {
            None => self.refusal_with(CommandReply::Stale(Why::NoSuch, None)),
            Some(instance) => self.answer_at(&instance, proposal),
        }
    }
}
