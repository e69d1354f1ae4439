ghost use Rattle.smf_watch.specs.Loops.{end_at, end_if, end_in, ended_now, hasty, is_end_of, is_hasty, is_kept, is_many, is_number, is_recent, ends_after_items, steady_at, steady_if, steady_in, was_steady, with_hasty};
ghost use Rattle.std.specs.List.{list_any};
ghost use Rattle.std.specs.Option.{option_copied};
ghost use Rattle.std.specs.Prelude.{◌≡◌, ◌++◌, ◌+◌, ◌≤◌, IfOk, OnOk, count_by, filter, length, slice_get};

use crate::bounds::bounds_of;
use crate::retries::nanoseconds_in;
use smf_fmri::Items;
use smf_model::{Journal, Plain};
use smf_state::State;
use smf_world::Item;
use std::alloc::{AllocError, Global};
use std::time::Duration;

/// An end of an instance that nobody asked for, and when it was seen.
#[derive(Clone, Copy)]
pub struct End {
    pub instance: u64,
    pub at: Duration,
}

fn steady_if(is_row: bool, is_steady: bool) -> Option<bool>
    ensures { result ≡ steady_if is_row is_steady }
{
    if is_row { Some(is_steady) } else { None }
}

/// True if a row is in a state, with nothing under way; none if the item shows no row of the instance.
fn steady_in(instance: u64, state: State, item: &Item) -> Option<bool>
    ensures { result ≡ steady_in instance state item.now }
{
    match item {
        Item::Committed {
            instance: other,
            state: found,
            next,
            ..
        } => steady_if(*other == instance, *found == state && next.is_none()),
        _ => None,
    }
}

fn item_at(trail: &[Item], place: usize) -> Option<&Item>
    ensures { option_copied result ≡ slice_get trail.now place }
{
    trail.get(place)
}

fn steady_at(trail: &[Item], instance: u64, state: State, place: usize) -> Option<bool>
    ensures { result ≡ steady_at trail.now instance state place }
{
    match item_at(trail, place) {
        Some(item) => steady_in(instance, state, item),
        None => None,
    }
}

/// True if the newest row of an instance among the first items of a trail is in a state, with nothing under way.
fn was_steady(trail: &[Item], instance: u64, state: State, count: usize) -> bool
    ensures { result ≡ was_steady trail.now instance state count }
{
    for place in (0..count).rev() {
        if let Some(is_steady) = steady_at(trail, instance, state, place) {
            return is_steady;
        }
    }
    false
}

fn end_if(is_end: bool, instance: u64) -> Option<u64>
    ensures { result ≡ end_if is_end instance }
{
    if is_end { Some(instance) } else { None }
}

/// The instance of which an item says that it ended.
fn end_in(trail: &[Item], place: usize, item: &Item) -> Option<u64>
    ensures { result ≡ end_in trail.now place item.now }
{
    match item {
        Item::Committed {
            instance,
            state,
            next,
            ..
        } => end_if(
            state.runs() && next.is_none() && was_steady(trail, *instance, *state, place),
            *instance,
        ),
        _ => None,
    }
}

/// The instance of which the item at a place of a trail says that it ended.
#[tactic(auto, unfolding(crate::specs::Loops::end_at))]
fn end_at(trail: &[Item], place: usize) -> Option<u64>
    ensures { result ≡ end_at trail.now place }
{
    match item_at(trail, place) {
        Some(item) => end_in(trail, place, item),
        None => None,
    }
}

fn push_end(ends: &mut Vec<End>, at: Duration, end: Option<u64>) -> Result<(), AllocError>
    ensures { OnOk result (ends.new.items ≡ ends.old.items ++ ended_now at end) }
{
    match end {
        Some(instance) => {
            ends.push(End { instance, at })?;
            Ok(())
        }
        None => Ok(()),
    }
}

/// Adds the ends of which so many items of a trail tell.
pub(crate) fn push_ends(
    ends: &mut Vec<End>,
    trail: &[Item],
    at: Duration,
    first: usize,
    count: usize,
) -> Result<(), AllocError>
    requires { first + count ≤ length trail.now }
    ensures { OnOk result (ends.new.items ≡ ends_after_items ends.old.items trail.now at first count) }
{
    for passed in 0..count {
        push_end(ends, at, end_at(trail, first + passed))?;
    }
    Ok(())
}

/// Whether an end is within the period of its instance.
fn is_recent<J: Journal>(repository: &Plain<J>, now: Duration, end: &End) -> bool
    ensures { result ≡ is_recent repository.now.held now end.now }
{
    let bounds = bounds_of(repository, end.instance);
    now.saturating_sub(end.at).as_nanos() < nanoseconds_in(bounds.period)
}

pub(crate) fn drop_old<J: Journal>(repository: &Plain<J>, ends: &mut Vec<End>, now: Duration)
    ensures { ends.new.items ≡ filter (is_recent repository.now.held now) ends.old.items }
{
    ends.retain(|end| is_recent(repository, now, end));
}

fn is_end_of(instance: u64, end: &End) -> bool
    ensures { result ≡ is_end_of instance end.now }
{
    end.instance == instance
}

fn count_of(instance: u64, ends: &[End]) -> usize
    ensures { result ≡ count_by (is_end_of instance) ends.now }
{
    ends.iter().filter(|end| is_end_of(instance, end)).count()
}

fn is_many(most: u64, count: usize) -> bool
    ensures { result ≡ is_many most count }
{
    0 < most && most < count as u64
}

/// True if an instance ended too often.
fn is_hasty<J: Journal>(repository: &Plain<J>, ends: &[End], instance: u64) -> bool
    ensures { result ≡ is_hasty repository.now.held ends.now instance }
{
    is_many(
        bounds_of(repository, instance).ends,
        count_of(instance, ends),
    )
}

fn is_among(instance: u64, numbers: &[u64]) -> bool
    ensures { result ≡ list_any (is_number instance) numbers.now }
{
    numbers.iter().any(|number| *number == instance)
}

/// Adds the instance of an end if it ended too often, and is not among them.
fn push_hasty<J: Journal>(
    repository: &Plain<J>,
    ends: &[End],
    found: &mut Items<u64>,
    end: &End,
) -> Result<(), AllocError>
    ensures { OnOk result (found.new ≡ with_hasty repository.now.held ends.now found.old end.now) }
{
    if is_hasty(repository, ends, end.instance) && !is_among(end.instance, found.as_slice()) {
        found.push(end.instance)?;
    }
    Ok(())
}

/// The instances that ended too often, each once.
pub(crate) fn hasty<J: Journal>(
    alloc: Global,
    repository: &Plain<J>,
    ends: &[End],
) -> Result<Items<u64>, AllocError>
    ensures { IfOk result (λ found. found ≡ hasty repository.now.held ends.now) }
{
    let mut found: Items<u64> = Items::new(alloc);
    for end in ends {
        push_hasty(repository, ends, &mut found, end)?;
    }
    Ok(found)
}

fn is_kept(hasty: &[u64], end: &End) -> bool
    ensures { result ≡ is_kept hasty.now end.now }
{
    !is_among(end.instance, hasty)
}

/// Drops the ends of these instances.
pub(crate) fn forget(ends: &mut Vec<End>, hasty: &[u64])
    ensures { ends.new.items ≡ filter (is_kept hasty.now) ends.old.items }
{
    ends.retain(|end| is_kept(hasty, end));
}
