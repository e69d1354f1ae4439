//! Why instances are in maintenance.

ghost use Rattle.smf_fmri.specs.ByKey.{list_with_item, lookup};
ghost use Rattle.smf_watch.specs.Causes.{Knows, MovesAreTold, OthersHaveNone, StartsAreCounted, StopsAreTold, SuccessEndsTheCount, by_instance, cause_by, cause_in, cause_of_end, cause_of_start, failed_in, is_offline, is_starting, known_after, leads_to, one_more, started_in, starts_after, with_item, with_items, with_row};
ghost use Rattle.smf_world.specs.declared.item.Item.{Item as AnyItem};
ghost use Rattle.std.specs.Option.{option_copied};
ghost use Rattle.std.specs.Prelude.{◌≡◌, ◌++◌, [], List, OnErr, OnOk};

use smf_fmri::limits::FAILED_STARTS_ALLOWED;
use smf_fmri::{Keyed, Ordered};
use smf_state::State;
use smf_world::Item;
use std::alloc::{AllocError, Global};
use std::marker::Model;

/// Why an instance is in maintenance, as far as rows tell.
#[derive(Clone, Copy)]
pub enum MaintenanceCause {
    /// One start after another failed, and then one more than is allowed.
    StartsFailed,
    /// A start was given up though the trail shows fewer that failed before it: its exit code is final, it could not be
    /// followed, or others failed under an older server.
    StartFailed,
    /// It was to be disabled or offline.
    StopFailed,
    /// It ran, and was stopped to be in maintenance.
    Stopped,
    /// It did not run.
    Moved,
}

/// A row that a trail shows.
#[derive(Clone, Copy)]
pub struct ShownRow {
    pub number: u64,
    pub state: State,
    pub next: Option<State>,
}

/// The newest row of an instance.
#[derive(Clone, Copy, Drop)]
pub struct KnownRow {
    pub instance: u64,
    pub row: ShownRow,
    /// So many starts in a row have failed, but no more are counted than are allowed.
    pub failed: u64,
    /// Why it is in maintenance. None if it is not, or if nothing is known of what was before.
    pub cause: Option<MaintenanceCause>,
}

impl Keyed for KnownRow {
    ghost use Rattle.smf_watch.specs.Causes.{by_instance};
    ghost use Rattle.std.specs.Prelude.{refl};

    type Key = u64;

    ghost by = { by_instance };

    fn key(&self) -> &u64 {
        &self.instance
    }

    ghost same = { refl };
}

/// What is known of each instance that a trail shows. It does not grow with the trail.
#[derive(Drop)]
pub struct Causes {
    known: Ordered<KnownRow>,
}

impl Model for Causes {
    ghost use Rattle.std.specs.Prelude.{List};
    ghost use Rattle.smf_watch.specs.declared.causes.KnownRow.{KnownRow};

    ghost Value = { List KnownRow };

    ghost view = { λ c. c.known };
}

fn leads_to(state: State, next: Option<State>) -> bool
    ensures { result ≡ leads_to state next }
{
    match next {
        None => false,
        Some(next) => next == state,
    }
}

/// True if a start is under way.
fn is_starting(row: &ShownRow) -> bool
    ensures { result ≡ is_starting row.now }
{
    row.state == State::Offline && leads_to(State::Online, row.next)
}

fn is_offline(row: &ShownRow) -> bool
    ensures { result ≡ is_offline row.now }
{
    row.state == State::Offline && row.next.is_none()
}

fn one_more(count: u64) -> u64
    ensures { result ≡ one_more count }
{
    if count < FAILED_STARTS_ALLOWED {
        count + 1
    } else {
        count
    }
}

/// The starts in a row that have failed. A start that begins leaves the count, one that ended offline adds to it, and any
/// other row ends it.
fn starts_after(row: &ShownRow, began: bool, count: u64) -> u64
    ensures { result ≡ starts_after row.now began count }
{
    if is_starting(row) {
        count
    } else if began && is_offline(row) {
        one_more(count)
    } else {
        0
    }
}

/// Why a start was given up.
fn cause_of_start(failed: u64) -> MaintenanceCause
    ensures { result ≡ cause_of_start failed }
{
    if failed < FAILED_STARTS_ALLOWED {
        MaintenanceCause::StartFailed
    } else {
        MaintenanceCause::StartsFailed
    }
}

/// Why what was under way ended in maintenance.
fn cause_of_end(state: State, next: State, failed: u64) -> MaintenanceCause
    ensures { result ≡ cause_of_end state next failed }
{
    if state == State::Offline {
        cause_of_start(failed)
    } else if next == State::Maintenance {
        MaintenanceCause::Stopped
    } else {
        MaintenanceCause::StopFailed
    }
}

fn cause_by(state: State, next: Option<State>, failed: u64) -> MaintenanceCause
    ensures { result ≡ cause_by state next failed }
{
    match next {
        None => MaintenanceCause::Moved,
        Some(next) => cause_of_end(state, next, failed),
    }
}

/// True if a start was under way.
fn started_in(before: Option<&KnownRow>) -> bool
    ensures { result ≡ started_in (option_copied before.entry) }
{
    match before {
        None => false,
        Some(known) => is_starting(&known.row),
    }
}

fn failed_in(before: Option<&KnownRow>) -> u64
    ensures { result ≡ failed_in (option_copied before.entry) }
{
    match before {
        None => 0,
        Some(known) => known.failed,
    }
}

/// Why an instance is in maintenance after a row.
fn cause_in(before: Option<&KnownRow>) -> Option<MaintenanceCause>
    ensures { result ≡ cause_in (option_copied before.entry) }
{
    match before {
        None => None,
        Some(known) => Some(cause_by(known.row.state, known.row.next, known.failed)),
    }
}

/// What is known of an instance after one more row.
pub(crate) fn known_after(before: Option<&KnownRow>, instance: u64, row: ShownRow) -> KnownRow
    ensures { result ≡ known_after (option_copied before.entry) instance row }
{
    let failed = starts_after(&row, started_in(before), failed_in(before));
    let cause = match row.state {
        State::Maintenance => cause_in(before),
        _ => None,
    };
    KnownRow {
        instance,
        row,
        failed,
        cause,
    }
}

fn put_row(known: &mut Ordered<KnownRow>, instance: u64, row: ShownRow) -> Result<(), AllocError>
    ensures { OnOk result (known.new ≡ with_row instance row known.old) }
{
    let after = known_after(known.get(&instance), instance, row);
    known.put(after)
}

fn put_item(known: &mut Ordered<KnownRow>, item: &Item) -> Result<(), AllocError>
    ensures { OnOk result (known.new ≡ with_item item.now known.old) }
{
    match item {
        Item::Committed {
            instance,
            number,
            state,
            next,
        } => put_row(
            known,
            *instance,
            ShownRow {
                number: *number,
                state: *state,
                next: *next,
            },
        ),
        _ => Ok(()),
    }
}

fn put_items(known: &mut Ordered<KnownRow>, items: &[Item]) -> Result<(), AllocError>
    ensures { OnOk result (known.new ≡ with_items items.now known.old) }
{
    for item in items {
        put_item(known, item)?;
    }
    Ok(())
}

impl Causes {
    ghost use Rattle.std.specs.Prelude.{[]};

    /// Nothing is known yet.
    pub fn new(alloc: Global) -> Causes
        ensures { result ≡ [] }
    {
        Causes {
            known: Ordered::new(alloc),
        }
    }

    /// Adds what a trail shows next, the first first. If memory runs out, nothing is known any more.
    pub fn add(&mut self, alloc: Global, items: &[Item]) -> Result<(), AllocError>
        ensures known { OnOk result ((before : List AnyItem) → Knows self.old before
            → Knows self.new (before ++ items.now)) }
        ensures lost { OnErr result (self.new ≡ []) }
    {
        match put_items(&mut self.known, items) {
            Ok(()) => Ok(()),
            Err(fault) => {
                self.known = Ordered::new(alloc);
                Err(fault)
            }
        }
    }

    /// What is known, in the order of the instances.
    pub fn known(&self) -> &[KnownRow]
        ensures { result.now ≡ self.now }
    {
        self.known.as_slice()
    }
}

/// What trails tell: one example for each cause.
pub fn causes_are_told_so()
    ensures starts { StartsAreCounted }
    ensures success { SuccessEndsTheCount }
    ensures stops { StopsAreTold }
    ensures moves { MovesAreTold }
    ensures others { OthersHaveNone }
{}
