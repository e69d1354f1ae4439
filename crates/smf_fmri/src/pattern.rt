ghost use Rattle.std.specs.Prelude.{◌≡◌, ◌↔◌, ◌≤◌, ◌∷◌, List, ℕ, nat_eq, IsTrue, IfOk, Ok, option_map, length, string_bytes, count_by, position};
ghost use Rattle.smf_fmri.specs.Patterns.{ends_service, is_of, abbreviates, matches, Matches, only_match, is_instance};
ghost use Rattle.std.specs.List.{ends_with};
ghost use Rattle.smf_fmri.specs.Name.{Gives, read_pattern, read_abbreviation, wrong_at};
ghost use Rattle.smf_fmri.specs.Grammar.{SpellsPattern};

use crate::fault::{FmriFault, PickFault};
use crate::fmri::Fmri;
use crate::limits::MAX_NAME;
use crate::reader::{Place, parts_of, split_scheme, strip, wrong_at};
use std::alloc::Global;
use std::marker::Model;

/// A name as a user types it: a full name, or an abbreviation of one, as svcadm(1M) reads them. Contracts see it as its
/// text, a full name in the short form.
#[derive(Drop)]
pub struct Pattern {
    text: String,
}

impl Model for Pattern {
    ghost use Rattle.std.specs.Prelude.{List, ℕ, string_bytes};

    ghost Value = { List ℕ };

    ghost use Rattle.smf_fmri.specs.Name.{IsPattern};

    ghost view = { λ p. string_bytes p.text };

    ghost invariant = { λ p. IsPattern (string_bytes p.text) };
}

impl Pattern {
    /// The pattern that a text spells. A text with a scheme is a full name.
    pub fn parse(alloc: Global, text: &str) -> Result<Pattern, FmriFault>
        // A text that is read spells the pattern.
        ensures found { IfOk result (λ p. SpellsPattern text.now p) }
        // A text that spells a pattern is read, unless memory runs out.
        ensures only { (pattern : List ℕ) → SpellsPattern text.now pattern → Gives result (Ok pattern) }
        // Which refusal it is, the first one that applies.
        ensures exact { Gives result (read_pattern text.now) }
    {
        Pattern::pattern_of_text(alloc, text)
    }

    #[tactic(auto, unfolding(crate::specs::Name::read_pattern))]
    fn pattern_of_text(alloc: Global, text: &str) -> Result<Pattern, FmriFault>
        ensures { Gives result (read_pattern text.now) }
    {
        if text.is_empty() {
            return Err(FmriFault::Empty);
        }
        if text.len() > MAX_NAME {
            return Err(FmriFault::TooLong);
        }
        let Some((scheme, rest)) = split_scheme(text) else {
            return Pattern::abbreviation(alloc, text);
        };
        if let Some(place) = wrong_at(Place::Begin, rest.as_bytes()) {
            return Err(FmriFault::Component(scheme + place));
        }
        let mut name = String::from_str(alloc, "svc:/")?;
        name.push_str(rest)?;
        Ok(Pattern { text: name })
    }

    fn abbreviation(alloc: Global, text: &str) -> Result<Pattern, FmriFault>
        requires { length text.now ≤ 512 }
        ensures { Gives result (read_abbreviation text.now (wrong_at Place.Start 0 text.now)) }
    {
        if let Some(place) = wrong_at(Place::Start, text.as_bytes()) {
            return Err(FmriFault::Component(place));
        }
        let text = String::from_str(alloc, text)?;
        Ok(Pattern { text })
    }

    /// True if it matches the name of an instance. A service's name is compared by its service part.
    pub fn matches(&self, name: &Fmri) -> bool
        ensures value { result ≡ matches self.now name.now }
        ensures means { IsTrue result ↔ Matches self.now name.now }
        // Its text is spelled as a pattern.
        ensures spelled { SpellsPattern self.now self.now }
    {
        // Looking into the pattern lets the proof know that it is one.
        let _ = &self.text;
        self.is_match(name)
    }

    fn is_match(&self, name: &Fmri) -> bool
        ensures { result ≡ matches self.now name.now }
    {
        let parts = name.parts();
        match strip("svc:/", &self.text) {
            Some(body) => is_of(parts_of(body), parts),
            None => abbreviates(parts_of(&self.text), parts),
        }
    }
}

/// True if a full name, by its parts, is this name or the service that this is of.
fn is_of(parts: (&str, Option<&str>), name: (&str, Option<&str>)) -> bool
    ensures { result ≡ is_of (parts.entry.0.now, option_map (λ x. x.now) parts.entry.1)
        (name.entry.0.now, option_map (λ x. x.now) name.entry.1) }
{
    let same_service = name.0 == parts.0;
    match parts.1 {
        None => same_service,
        Some(instance) => same_service && is_instance(name.1, instance),
    }
}

/// True if an abbreviation, by its parts, stands for this name.
fn abbreviates(parts: (&str, Option<&str>), name: (&str, Option<&str>)) -> bool
    ensures { result ≡ abbreviates (parts.entry.0.now, option_map (λ x. x.now) parts.entry.1)
        (name.entry.0.now, option_map (λ x. x.now) name.entry.1) }
{
    let (service, instance) = name;
    let suffix = parts.0;
    match parts.1 {
        None => is_instance(instance, suffix) || ends_service(suffix, service),
        Some(wanted) => {
            is_instance(instance, wanted) && (suffix.is_empty() || ends_service(suffix, service))
        }
    }
}

fn is_instance(instance: Option<&str>, text: &str) -> bool
    ensures { result ≡ is_instance (option_map (λ x. x.now) instance.entry) text.now }
{
    match instance {
        None => false,
        Some(instance) => instance == text,
    }
}

/// True if a service is the suffix, or ends with it after a slash.
fn ends_service(suffix: &str, service: &str) -> bool
    ensures { result ≡ ends_service suffix.now service.now }
{
    service == suffix || ends_behind_slash(suffix.as_bytes(), service.as_bytes())
}

fn ends_behind_slash(suffix: &[u8], service: &[u8]) -> bool
    ensures { result ≡ ends_with nat_eq service.now (47 ∷ suffix.now) }
{
    match service.len().checked_sub(suffix.len() + 1) {
        None => false,
        Some(at) => service[at] == b'/' && suffix == &service[at + 1..],
    }
}

/// The place of the only name that a pattern matches. Takes no memory.
pub fn pick(pattern: &Pattern, names: &[Fmri]) -> Result<usize, PickFault>
    ensures { result ≡ only_match pattern.now names.now }
{
    let count = match_count(pattern, names);
    match first_match(pattern, names) {
        None => Err(PickFault::NoMatch),
        Some(place) if count == 1 => Ok(place),
        Some(_) => Err(PickFault::Several(count)),
    }
}

fn first_match(pattern: &Pattern, names: &[Fmri]) -> Option<usize>
    ensures { result ≡ position (matches pattern.now) names.now }
{
    names.iter().position(|name| pattern.is_match(name))
}

fn match_count(pattern: &Pattern, names: &[Fmri]) -> usize
    ensures { result ≡ count_by (matches pattern.now) names.now }
{
    names.iter().filter(|name| pattern.is_match(name)).count()
}
