ghost use Rattle.std.specs.Option.{option_eq};
ghost use Rattle.std.specs.Prelude.{◌≡◌};
ghost use Rattle.smf_state.specs.Rows.{same_state};
ghost use Rattle.smf_changes.specs.Same.{same_cause, same_duration, same_item, same_marks, same_row, same_runs};
ghost use Rattle.smf_changes.specs.Same.{same_standing, same_text};

use smf_fmri::Bytes;
use smf_state::{Cause, Duration, Row, State, ViewItem};

fn is_same_state(one: State, other: State) -> bool
    ensures { result ≡ same_state one other }
{
    one == other
}

fn is_same_cause(one: Cause, other: Cause) -> bool
    ensures { result ≡ same_cause one other }
{
    one == other
}

fn is_same_duration(one: Duration, other: Duration) -> bool
    ensures { result ≡ same_duration one other }
{
    one == other
}

fn are_same_states(one: Option<State>, other: Option<State>) -> bool
    ensures { result ≡ option_eq same_state one other }
{
    match one {
        None => other.is_none(),
        Some(one) => match other {
            None => false,
            Some(other) => is_same_state(one, other),
        },
    }
}

fn are_same_causes(one: Option<Cause>, other: Option<Cause>) -> bool
    ensures { result ≡ option_eq same_cause one other }
{
    match one {
        None => other.is_none(),
        Some(one) => match other {
            None => false,
            Some(other) => is_same_cause(one, other),
        },
    }
}

fn are_same_bodies(one: &Option<Bytes>, other: &Option<Bytes>) -> bool
    ensures { result ≡ option_eq same_text one.now other.now }
{
    match one {
        None => other.is_none(),
        Some(one) => match other {
            None => false,
            Some(other) => one == other,
        },
    }
}

/// Two rows have the same owner, number, state, next state and asks.
fn is_same_standing(one: &Row, other: &Row) -> bool
    ensures { result ≡ same_standing one.now other.now }
{
    one.owner == other.owner
        && one.number == other.number
        && is_same_state(one.state, other.state)
        && are_same_states(one.next, other.next)
        && one.asks.number() == other.asks.number()
}

/// Two rows have the same runs.
fn are_same_runs(one: &Row, other: &Row) -> bool
    ensures { result ≡ same_runs one.now other.now }
{
    one.live == other.live
        && one.side == other.side
        && one.last == other.last
        && one.failed == other.failed
        && are_same_causes(one.cause, other.cause)
        && is_same_duration(one.duration, other.duration)
        && one.ignore == other.ignore
}

/// Two rows keep the same revisions and numbers.
fn are_same_marks(one: &Row, other: &Row) -> bool
    ensures { result ≡ same_marks one.now other.now }
{
    one.base == other.base
        && one.err == other.err
        && one.stop == other.stop
        && one.refresh == other.refresh
        && one.start == other.start
        && one.running == other.running
        && one.begun == other.begun
        && one.launch == other.launch
        && one.serial == other.serial
}

fn is_same_row(one: &Row, other: &Row) -> bool
    ensures { result ≡ same_row one.now other.now }
{
    is_same_standing(one, other) && are_same_runs(one, other) && are_same_marks(one, other)
}

/// Two items have every field the same.
#[tactic(auto, unfolding(crate::specs::Same::same_item))]
fn is_same_item(one: &ViewItem, other: &ViewItem) -> bool
    ensures { result ≡ same_item one.now other.now }
{
    one.instance == other.instance
        && one.name == other.name
        && one.enabled == other.enabled
        && one.readable == other.readable
        && is_same_row(&one.row, &other.row)
        && are_same_bodies(&one.body, &other.body)
}

/// Two items have every field the same, or both are gone.
pub(crate) fn are_same_items(one: &Option<ViewItem>, other: &Option<ViewItem>) -> bool
    ensures { result ≡ option_eq same_item one.now other.now }
{
    match one {
        None => other.is_none(),
        Some(one) => match other {
            None => false,
            Some(other) => is_same_item(one, other),
        },
    }
}
