ghost use Rattle.std.specs.Prelude.{◌≡◌, ◌+◌, ◌<◌, ◌≤◌, length, Some, None, IfSome, option_map};
ghost use Rattle.smf_fmri.specs.Name.{is_word_byte, strip, split_scheme, next, wrong_at};
ghost use Rattle.smf_fmri.specs.Patterns.{parts_of};

use crate::limits::MAX_INSTANCE_NAME;

/// A reader's place in a name.
#[derive(Clone, Copy)]
pub enum Place {
    /// Before the first byte of an abbreviation. An instance may follow at once.
    Start,
    /// Before the first byte of a component of the service.
    Begin,
    Service,
    /// Before the first byte of the instance.
    BeginInstance,
    /// Behind so many bytes of the instance.
    Instance(usize),
}

fn is_word_byte(b: u8) -> bool
    ensures { result ≡ is_word_byte b }
{
    b.is_ascii_alphanumeric() || b == b'_' || b == b'-' || b == b'.' || b == b','
}

fn next(place: Place, b: u8) -> Option<Place>
    ensures { result ≡ next place b }
{
    match place {
        Place::Start | Place::Begin if b.is_ascii_alphanumeric() => Some(Place::Service),
        Place::Start if b == b':' => Some(Place::BeginInstance),
        Place::BeginInstance if b.is_ascii_alphanumeric() => Some(Place::Instance(1)),
        Place::Service if is_word_byte(b) => Some(Place::Service),
        Place::Service if b == b'/' => Some(Place::Begin),
        Place::Service if b == b':' => Some(Place::BeginInstance),
        Place::Instance(n) if is_word_byte(b) && n < MAX_INSTANCE_NAME => Some(Place::Instance(
            n + 1,
        )),
        _ => None,
    }
}

/// The place of the first byte that cannot stand there, or the length if more is needed.
pub fn wrong_at(start: Place, bytes: &[u8]) -> Option<usize>
    ensures exact { result ≡ wrong_at start 0 bytes.now }
    ensures in_range { IfSome result (λ at. at ≤ length bytes.now) }
{
    let mut place = start;
    let mut at = 0;
    for b in bytes {
        match next(place, *b) {
            Some(after) => place = after,
            None => return Some(at),
        }
        at += 1;
    }
    match place {
        Place::Service | Place::Instance(_) => None,
        _ => Some(at),
    }
}

/// The rest of a text after a prefix.
pub fn strip<'a>(prefix: &str, text: &'a str) -> Option<&'a str>
    ensures { option_map (λ x. x.now) result ≡ strip prefix.now text.now }
{
    text.strip_prefix(prefix)
}

/// The length of the part before the first component, and the rest.
pub fn split_scheme(text: &str) -> Option<(usize, &str)>
    ensures exact { option_map (λ x. (x.0, x.1.now)) result ≡ split_scheme text.now }
    ensures scheme { IfSome result (λ x. x.0 ≤ 16) }
{
    if let Some(rest) = strip("svc://localhost/", text) {
        return Some((16, rest));
    }
    strip("svc:/", text).map(|rest| (5, rest))
}

/// The text before the first colon and, if there is one, the text after it.
pub fn parts_of(text: &str) -> (&str, Option<&str>)
    ensures { (result.0.now, option_map (λ x. x.now) result.1) ≡ parts_of text.now }
{
    match text.split_once(':') {
        Some((service, instance)) => (service, Some(instance)),
        None => (text, None),
    }
}
