ghost use Rattle.smf_model.specs.Contents.{Holdings};
ghost use Rattle.smf_watch.specs.Bounds.{bounds_by, bounds_in, bounds_of, count_or, is_entry};
ghost use Rattle.std.specs.Option.{option_copied};
ghost use Rattle.std.specs.Prelude.{◌≡◌, find, unwrap_or};

use crate::terms::{composed_in, count_in, snapshot_of};
use smf_model::{InstanceEntry, Journal, Plain};
use smf_value::{Group, Property};

/// The ends within a period that an instance may have, if it says nothing else.
pub const MOST_ENDS: u64 = 10;

/// The seconds of that period, if the instance says nothing else.
pub const PERIOD: u64 = 600;

/// The most seconds before an instance is tried again, if it says nothing else.
pub const RETRY_MOST: u64 = 300;

/// How often an instance may end, and when it is tried again, by the group `startd` of its running snapshot.
#[derive(Clone, Copy)]
pub struct Bounds {
    /// `critical_failure_count`: with more ends in a period it is marked for maintenance. 0 is no bound.
    pub ends: u64,
    /// `critical_failure_period`, in seconds.
    pub period: u64,
    /// `retry_seconds`: the time before the first retry. 0 is no retry.
    pub first: u64,
    /// `retry_most`: the most seconds before a retry.
    pub most: u64,
    /// `retry_count`: the most retries. 0 is no bound.
    pub tries: u64,
}

fn count_or(property: Option<&Property>, otherwise: u64) -> u64
    ensures { result ≡ count_or (option_copied property.entry) otherwise }
{
    count_in(property).unwrap_or(otherwise)
}

fn bounds_in(group: Option<&Group>) -> Bounds
    ensures { result ≡ bounds_in (option_copied group.entry) }
{
    match group {
        None => Bounds {
            ends: MOST_ENDS,
            period: PERIOD,
            first: 0,
            most: RETRY_MOST,
            tries: 0,
        },
        Some(group) => Bounds {
            ends: count_or(group.find("critical_failure_count"), MOST_ENDS),
            period: count_or(group.find("critical_failure_period"), PERIOD),
            first: count_or(group.find("retry_seconds"), 0),
            most: count_or(group.find("retry_most"), RETRY_MOST),
            tries: count_or(group.find("retry_count"), 0),
        },
    }
}

fn is_entry(instance: u64, entry: &InstanceEntry) -> bool
    ensures { result ≡ is_entry instance entry.now }
{
    entry.instance.number.get() == instance
}

/// The instance of a number, as it is stored.
pub(crate) fn entry_of<J: Journal>(repository: &Plain<J>, instance: u64) -> Option<&InstanceEntry>
    ensures { option_copied result ≡ find (is_entry instance) repository.now.held.instances }
{
    repository
        .entries()
        .iter()
        .find(|entry| is_entry(instance, entry))
}

fn bounds_by<J: Journal>(repository: &Plain<J>, entry: Option<&InstanceEntry>) -> Bounds
    ensures { result ≡ bounds_by repository.now.held (option_copied entry.entry) }
{
    match entry {
        None => bounds_in(None),
        Some(entry) => {
            let running = snapshot_of(repository, entry.instance.row.running);
            bounds_in(composed_in("startd", running))
        }
    }
}

/// The bounds of an instance.
#[tactic(auto, unfolding(crate::specs::Bounds::bounds_of))]
pub fn bounds_of<J: Journal>(repository: &Plain<J>, instance: u64) -> Bounds
    ensures { result ≡ bounds_of repository.now.held instance }
{
    bounds_by(repository, entry_of(repository, instance))
}
