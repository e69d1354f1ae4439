//! Instances that are tried again, as an administrator would who clears them.

ghost use Rattle.smf_watch.specs.Bounds.{bounds_of, is_entry, nanoseconds_in};
ghost use Rattle.smf_watch.specs.Retries.{any_waits, delay, delay_after, doubled, due_by, is_given_up, has_run, is_due, is_due_by, is_marked, is_other, is_retry_of, is_running, is_unmarked, is_unmarked_row, is_waiting, leads_to_maintenance, least, may_try, next_count, owed, owed_if, passed, plan_of, plans_of, retry_after, retry_now, runs_now, stands_in, sum_of, tried, tried_if, tries_now, tries_of, waits_if, was_marked, with_mark, with_marks, with_retry};
ghost use Rattle.std.specs.Option.{option_copied};
ghost use Rattle.std.specs.Prelude.{◌≡◌, ◌++◌, find, filter, map, option_map, IfOk, OnOk};

use crate::bounds::{Bounds, bounds_of, entry_of};
use crate::causes::{KnownRow, MaintenanceCause};
use bitflags::Flags;
use smf_fmri::Items;
use smf_model::{InstanceEntry, Journal, Plain};
use smf_state::{Asks, State};
use std::alloc::{AllocError, Global};
use std::time::Duration;

/// The nanoseconds of a second.
const NANOSECONDS: u128 = 1_000_000_000;

/// After so many retries the time before the next is not doubled any more: it is as long as it can be.
const DOUBLINGS: u64 = 64;

/// How far an instance has come that is tried again.
#[derive(Clone, Copy)]
pub enum RetryStage {
    /// The server has marked it, and it will come into maintenance.
    Marked,
    /// It is in maintenance until it is tried again.
    Waits,
    /// It does not run yet.
    Tries,
    Runs,
}

/// An instance that is tried again.
#[derive(Clone, Copy)]
pub struct Retry {
    pub instance: u64,
    /// So often it was tried since it last ran for its period.
    pub tries: u64,
    pub stage: RetryStage,
    /// The number of its row while it waits.
    pub row: u64,
    /// When it was seen to come to this stage.
    pub since: Duration,
}

fn is_marked(stage: RetryStage) -> bool
    ensures { result ≡ is_marked stage }
{
    matches!(stage, RetryStage::Marked)
}

fn is_running(stage: RetryStage) -> bool
    ensures { result ≡ is_running stage }
{
    matches!(stage, RetryStage::Runs)
}

fn is_waiting(stage: RetryStage) -> bool
    ensures { result ≡ is_waiting stage }
{
    matches!(stage, RetryStage::Waits)
}

/// The nanoseconds since a time.
fn passed(now: Duration, since: Duration) -> u128
    ensures { result ≡ passed now since }
{
    now.saturating_sub(since).as_nanos()
}

pub(crate) fn nanoseconds_in(seconds: u64) -> u128
    ensures { result ≡ nanoseconds_in seconds }
{
    u128::from(seconds) * NANOSECONDS
}

/// Whether an instance has run for its period.
fn has_run(bounds: &Bounds, now: Duration, retry: &Retry) -> bool
    ensures { result ≡ has_run bounds.now now retry.now }
{
    is_running(retry.stage) && nanoseconds_in(bounds.period) <= passed(now, retry.since)
}

/// So often an instance was tried since it last ran for its period.
fn tries_of(bounds: &Bounds, now: Duration, before: Option<&Retry>) -> u64
    ensures { result ≡ tries_of bounds.now now (option_copied before.entry) }
{
    match before {
        None => 0,
        Some(retry) => {
            if has_run(bounds, now, retry) {
                0
            } else {
                retry.tries
            }
        }
    }
}

// ---- after a row

/// Whether a start was given up. Those that failed before it may have been another server's, and are not counted then.
fn is_given_up(cause: Option<MaintenanceCause>) -> bool
    ensures { result ≡ is_given_up cause }
{
    matches!(
        cause,
        Some(MaintenanceCause::StartsFailed | MaintenanceCause::StartFailed)
    )
}

fn was_marked(before: Option<&Retry>) -> bool
    ensures { result ≡ was_marked (option_copied before.entry) }
{
    match before {
        None => false,
        Some(retry) => is_marked(retry.stage),
    }
}

/// What stands of an instance that is in maintenance: if it is to be tried again it waits.
fn waits_if(
    is_owed: bool,
    bounds: &Bounds,
    now: Duration,
    before: Option<&Retry>,
    known: &KnownRow,
) -> Option<Retry>
    ensures { result ≡ waits_if is_owed bounds.now now (option_copied before.entry) known.now }
{
    if !is_owed {
        return None;
    }
    Some(Retry {
        instance: known.instance,
        tries: tries_of(bounds, now, before),
        stage: RetryStage::Waits,
        row: known.row.number,
        since: now,
    })
}

/// It does not run. One that is marked stays so until it is in maintenance.
fn tries_now(bounds: &Bounds, now: Duration, retry: &Retry) -> Retry
    ensures { result ≡ tries_now bounds.now now retry.now }
{
    if is_marked(retry.stage) {
        return *retry;
    }
    Retry {
        instance: retry.instance,
        tries: tries_of(bounds, now, Some(retry)),
        stage: RetryStage::Tries,
        row: 0,
        since: now,
    }
}

/// It runs, from now on if it did not before.
fn runs_now(now: Duration, retry: &Retry) -> Retry
    ensures { result ≡ runs_now now retry.now }
{
    if is_marked(retry.stage) || is_running(retry.stage) {
        return *retry;
    }
    Retry {
        instance: retry.instance,
        tries: retry.tries,
        stage: RetryStage::Runs,
        row: 0,
        since: now,
    }
}

fn retry_now(bounds: &Bounds, now: Duration, retry: &Retry, runs: bool) -> Retry
    ensures { result ≡ retry_now bounds.now now retry.now runs }
{
    if runs {
        runs_now(now, retry)
    } else {
        tries_now(bounds, now, retry)
    }
}

/// What stands of an instance after a row that was seen now, by the cause if that is maintenance, and by whether its last
/// start failed for good.
pub(crate) fn retry_after(
    bounds: &Bounds,
    now: Duration,
    fatal: bool,
    before: Option<&Retry>,
    known: &KnownRow,
) -> Option<Retry>
    ensures { result ≡ retry_after bounds.now now fatal (option_copied before.entry) known.now }
{
    match known.row.state {
        State::Maintenance => waits_if(
            was_marked(before) || (is_given_up(known.cause) && !fatal),
            bounds,
            now,
            before,
            known,
        ),
        State::Disabled => None,
        state => match before {
            None => None,
            Some(retry) => Some(retry_now(bounds, now, retry, state.runs())),
        },
    }
}

// ---- those that are known

fn is_retry_of(instance: u64, retry: &Retry) -> bool
    ensures { result ≡ is_retry_of instance retry.now }
{
    retry.instance == instance
}

fn is_other(instance: u64, retry: &Retry) -> bool
    ensures { result ≡ is_other instance retry.now }
{
    !is_retry_of(instance, retry)
}

/// What stands of an instance.
pub(crate) fn retry_of(retries: &[Retry], instance: u64) -> Option<&Retry>
    ensures { option_copied result ≡ find (is_retry_of instance) retries.now }
{
    retries.iter().find(|retry| is_retry_of(instance, retry))
}

fn drop_retry(retries: &mut Vec<Retry>, instance: u64)
    ensures { retries.new.items ≡ filter (is_other instance) retries.old.items }
{
    retries.retain(|retry| is_other(instance, retry));
}

/// Puts what stands of an instance in place of what stood, if anything does.
pub(crate) fn put_retry(
    retries: &mut Vec<Retry>,
    instance: u64,
    retry: Option<Retry>,
) -> Result<(), AllocError>
    ensures { OnOk result (retries.new.items ≡ with_retry instance retry retries.old.items) }
{
    drop_retry(retries, instance);
    if let Some(retry) = retry {
        retries.push(retry)?;
    }
    Ok(())
}

// ---- marks of the server

fn leads_to_maintenance(next: Option<State>) -> bool
    ensures { result ≡ leads_to_maintenance next }
{
    matches!(next, Some(State::Maintenance))
}

/// Whether an instance is not in maintenance, and nobody has marked it for that.
fn is_unmarked_row(entry: &InstanceEntry) -> bool
    ensures { result ≡ is_unmarked_row entry.now }
{
    let row = &entry.instance.row;
    row.state != State::Maintenance
        && !leads_to_maintenance(row.next)
        && !row.asks.contains(Asks::MAINTENANCE_NOW)
        && !row.asks.contains(Asks::MAINTENANCE)
}

fn is_unmarked<J: Journal>(repository: &Plain<J>, instance: u64) -> bool
    ensures { result ≡ is_unmarked repository.now.held instance }
{
    match entry_of(repository, instance) {
        None => false,
        Some(entry) => is_unmarked_row(entry),
    }
}

/// Notes that the server marks an instance, unless an administrator has.
fn put_mark<J: Journal>(
    repository: &Plain<J>,
    now: Duration,
    instance: u64,
    retries: &mut Vec<Retry>,
) -> Result<(), AllocError>
    ensures { OnOk result (retries.new.items ≡ with_mark repository.now.held now instance retries.old.items) }
{
    if !is_unmarked(repository, instance) {
        return Ok(());
    }
    let bounds = bounds_of(repository, instance);
    let tries = tries_of(&bounds, now, retry_of(retries, instance));
    let retry = Retry {
        instance,
        tries,
        stage: RetryStage::Marked,
        row: 0,
        since: now,
    };
    put_retry(retries, instance, Some(retry))
}

/// Notes that the server marks these.
pub(crate) fn put_marks<J: Journal>(
    repository: &Plain<J>,
    now: Duration,
    numbers: &[u64],
    retries: &mut Vec<Retry>,
) -> Result<(), AllocError>
    ensures { OnOk result (retries.new.items ≡ with_marks repository.now.held now numbers.now retries.old.items) }
{
    for number in numbers {
        put_mark(repository, now, *number, retries)?;
    }
    Ok(())
}

// ---- what is owed

/// Twice as many seconds, but no more than the most.
fn doubled(most: u64, seconds: u64) -> u64
    ensures { result ≡ doubled most seconds }
{
    if seconds <= most && seconds <= most - seconds {
        seconds + seconds
    } else {
        most
    }
}

fn least(one: u64, other: u64) -> u64
    ensures { result ≡ least one other }
{
    if one <= other { one } else { other }
}

/// The seconds before a retry that comes after so many.
fn delay_after(bounds: &Bounds, tries: u64) -> u64
    ensures { result ≡ delay_after bounds.now tries }
{
    let mut seconds = least(bounds.first, bounds.most);
    for _passed in 0..tries {
        seconds = doubled(bounds.most, seconds);
    }
    seconds
}

/// The same, in as many steps as matter.
fn delay(bounds: &Bounds, tries: u64) -> u64
    ensures { result ≡ delay bounds.now tries }
{
    delay_after(bounds, least(tries, DOUBLINGS))
}

fn may_try(most: u64, tries: u64) -> bool
    ensures { result ≡ may_try most tries }
{
    most == 0 || tries < most
}

fn is_due_by(bounds: &Bounds, now: Duration, retry: &Retry) -> bool
    ensures { result ≡ is_due_by bounds.now now retry.now }
{
    is_waiting(retry.stage)
        && 0 < bounds.first
        && may_try(bounds.tries, retry.tries)
        && nanoseconds_in(delay(bounds, retry.tries)) <= passed(now, retry.since)
}

/// Whether an instance has the row of a number.
fn stands_in<J: Journal>(repository: &Plain<J>, instance: u64, row: u64) -> bool
    ensures { result ≡ stands_in repository.now.held instance row }
{
    match entry_of(repository, instance) {
        None => false,
        Some(entry) => entry.instance.row.number == row,
    }
}

/// Whether an instance is to be tried again now.
fn is_due<J: Journal>(repository: &Plain<J>, now: Duration, retry: &Retry) -> bool
    ensures { result ≡ is_due repository.now.held now retry.now }
{
    stands_in(repository, retry.instance, retry.row)
        && is_due_by(&bounds_of(repository, retry.instance), now, retry)
}

/// Adds an instance if it is to be tried again.
fn push_owed(is_due: bool, instance: u64, owed: &mut Items<u64>) -> Result<(), AllocError>
    ensures { OnOk result (owed.new ≡ owed.old ++ owed_if is_due instance) }
{
    if is_due {
        owed.push(instance)?;
    }
    Ok(())
}

/// The instances that are to be tried again now.
pub(crate) fn owed<J: Journal>(
    alloc: Global,
    repository: &Plain<J>,
    now: Duration,
    retries: &[Retry],
) -> Result<Items<u64>, AllocError>
    ensures { IfOk result (λ owed'. owed' ≡ owed repository.now.held now retries.now) }
{
    let mut owed: Items<u64> = Items::new(alloc);
    for retry in retries {
        push_owed(is_due(repository, now, retry), retry.instance, &mut owed)?;
    }
    Ok(owed)
}

/// One more, but for the greatest number.
fn next_count(count: u64) -> u64
    ensures { result ≡ next_count count }
{
    if count < u64::MAX { count + 1 } else { count }
}

/// An instance that is tried now if that is owed.
fn tried_if<J: Journal>(repository: &Plain<J>, now: Duration, retry: &Retry) -> Retry
    ensures { result ≡ tried_if repository.now.held now retry.now }
{
    if !is_due(repository, now, retry) {
        return *retry;
    }
    Retry {
        instance: retry.instance,
        tries: next_count(retry.tries),
        stage: RetryStage::Tries,
        row: 0,
        since: now,
    }
}

/// What stands once those are tried that are owed it.
pub(crate) fn tried<J: Journal>(
    alloc: Global,
    repository: &Plain<J>,
    now: Duration,
    retries: &[Retry],
) -> Result<Vec<Retry>, AllocError>
    ensures { IfOk result (λ left. left.items ≡ tried repository.now.held now retries.now) }
{
    let mut left: Vec<Retry> = Vec::new(alloc);
    for retry in retries {
        left.push(tried_if(repository, now, retry))?;
    }
    Ok(left)
}

/// Whether an instance waits for a retry.
pub(crate) fn any_waits(retries: &[Retry]) -> bool
    ensures { result ≡ any_waits retries.now }
{
    retries.iter().any(|retry| is_waiting(retry.stage))
}

// ---- what is planned

/// An instance that is tried again, and when.
#[derive(Clone, Copy)]
pub struct Plan {
    pub retry: Retry,
    /// The time of the clock, in seconds. None if the instance does not wait, or waits for an administrator.
    pub due: Option<u64>,
}

/// A sum, or the greatest number.
fn sum_of(one: u64, other: u64) -> u64
    ensures { result ≡ sum_of one other }
{
    if other <= u64::MAX - one {
        one + other
    } else {
        u64::MAX
    }
}

fn due_by(bounds: &Bounds, retry: &Retry) -> Option<u64>
    ensures { result ≡ due_by bounds.now retry.now }
{
    if is_waiting(retry.stage) && 0 < bounds.first && may_try(bounds.tries, retry.tries) {
        Some(sum_of(retry.since.as_secs(), delay(bounds, retry.tries)))
    } else {
        None
    }
}

fn plan_of<J: Journal>(repository: &Plain<J>, retry: &Retry) -> Plan
    ensures { result ≡ plan_of repository.now.held retry.now }
{
    Plan {
        retry: *retry,
        due: due_by(&bounds_of(repository, retry.instance), retry),
    }
}

/// When those are tried again that are.
pub fn plans_of<J: Journal>(
    alloc: Global,
    repository: &Plain<J>,
    retries: &[Retry],
) -> Result<Vec<Plan>, AllocError>
    ensures { IfOk result (λ plans. plans.items ≡ plans_of repository.now.held retries.now) }
{
    let mut plans: Vec<Plan> = Vec::new(alloc);
    for retry in retries {
        plans.push(plan_of(repository, retry))?;
    }
    Ok(plans)
}
