ghost use Rattle.smf_method.specs.Properties.{bits_of, duration_by, duration_in, duration_of, ignore_by, ignore_in, ignore_of, is_comma, is_failure, timeout_by, timeout_in};
ghost use Rattle.std.specs.Cmp.Lexicographic.{pointwise};
ghost use Rattle.std.specs.List.{list_all, list_any, slice_split};
ghost use Rattle.std.specs.Option.{option_copied};
ghost use Rattle.std.specs.Prelude.{◌≡◌, nat_eq};

use crate::timeout::Timeout;
use smf_state::{Duration, Ignore};
use smf_value::{Group, Property, Value};

fn timeout_by(values: &[Value]) -> Option<Option<Timeout>>
    ensures { result ≡ timeout_by values.now }
{
    match values {
        [Value::Count(seconds)] => Some(Timeout::new(*seconds)),
        _ => None,
    }
}

/// The timeout by `timeout_seconds`: `Some(None)` for no timeout, and `None` if the property is not one count.
pub(crate) fn timeout_in(property: Option<&Property>) -> Option<Option<Timeout>>
    ensures { result ≡ timeout_in (option_copied property.entry) }
{
    match property {
        None => Some(None),
        Some(property) => timeout_by(property.values()),
    }
}

fn duration_by(text: &str) -> Option<Duration>
    ensures { result ≡ duration_by text.now }
{
    if text == "contract" {
        Some(Duration::Contract)
    } else if text == "transient" {
        Some(Duration::Transient)
    } else if text == "child" || text == "wait" {
        Some(Duration::Child)
    } else {
        None
    }
}

fn duration_in(property: Option<&Property>) -> Option<Duration>
    ensures { result ≡ duration_in (option_copied property.entry) }
{
    match property {
        None => Some(Duration::Contract),
        Some(property) => match property.text() {
            None => None,
            Some(text) => duration_by(text.as_str()),
        },
    }
}

/// The duration by the group `startd`, or none if it names no duration.
pub(crate) fn duration_of(startd: Option<&Group>) -> Option<Duration>
    ensures { result ≡ duration_of (option_copied startd.entry) }
{
    match startd {
        None => Some(Duration::Contract),
        Some(group) => duration_in(group.find("duration")),
    }
}

fn is_failure(word: &str) -> bool
    ensures { result ≡ is_failure word.now }
{
    word == "core" || word == "signal"
}

fn are_failures(text: &str) -> bool
    ensures { result ≡ list_all is_failure (slice_split is_comma text.now) }
{
    text.split(',').all(|word| is_failure(word))
}

fn has_word(text: &str, word: &str) -> bool
    ensures { result ≡ list_any (λ w. pointwise nat_eq w word.now) (slice_split is_comma text.now) }
{
    text.split(',').any(|w| w == word)
}

fn kinds_of(core: bool, signal: bool) -> Ignore
    ensures { result ≡ bits_of core signal }
{
    match (core, signal) {
        (true, true) => Ignore::new(3),
        (true, false) => Ignore::new(1),
        (false, true) => Ignore::new(2),
        (false, false) => Ignore::none(),
    }
}

fn ignore_by(text: &str) -> Option<Ignore>
    ensures { result ≡ ignore_by text.now }
{
    if text.is_empty() {
        return Some(Ignore::none());
    }
    if !are_failures(text) {
        return None;
    }
    Some(kinds_of(has_word(text, "core"), has_word(text, "signal")))
}

fn ignore_in(property: Option<&Property>) -> Option<Ignore>
    ensures { result ≡ ignore_in (option_copied property.entry) }
{
    match property {
        None => Some(Ignore::none()),
        Some(property) => match property.text() {
            None => None,
            Some(text) => ignore_by(text.as_str()),
        },
    }
}

/// The failures that the group `startd` ignores, or none if it lists anything else.
pub(crate) fn ignore_of(startd: Option<&Group>) -> Option<Ignore>
    ensures { result ≡ ignore_of (option_copied startd.entry) }
{
    match startd {
        None => Some(Ignore::none()),
        Some(group) => ignore_in(group.find("ignore_error")),
    }
}
