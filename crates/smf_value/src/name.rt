ghost use Rattle.smf_value.specs.Names.{Gives, IsNameText, is_name, name_wrong, read_name, rest_wrong};
ghost use Rattle.smf_fmri.specs.Name.{is_word_byte};
ghost use Rattle.std.specs.Cmp;
ghost use Rattle.std.specs.Cmp.Lexicographic.{pointwise, slice_cmp, nat_list_eq_equiv, nat_list_cmp_total, texts_ties, texts_po};
ghost use Rattle.std.specs.Ordering.{nat_cmp};
ghost use Rattle.std.specs.Prelude.{◌≡◌, IfOk, Ok, Some, nat_eq, refl, true};

use crate::fault::NameFault;
use smf_fmri::limits::MAX_COMPONENT;
use std::alloc::{AllocError, Global};
use std::cmp::Ordering;
use std::fmt;
use std::marker::Model;

/// The name of a group, of its type, or of a property: one component of at most 255 bytes, which
/// contracts see as its bytes.
#[derive(Drop)]
pub struct Name {
    text: String,
}

impl Model for Name {
    ghost use Rattle.std.specs.Prelude.{List, ℕ, string_bytes};

    ghost Value = { List ℕ };

    ghost use Rattle.smf_value.specs.Names.{IsName};

    ghost view = { λ n. string_bytes n.text };

    ghost invariant = { λ n. IsName (string_bytes n.text) };
}

fn is_word_byte(b: u8) -> bool
    ensures { result ≡ is_word_byte b }
{
    b.is_ascii_alphanumeric() || b == b'_' || b == b'-' || b == b'.' || b == b','
}

fn rest_wrong(rest: &[u8]) -> Option<usize>
    ensures { result ≡ rest_wrong 1 rest.now }
{
    let mut at = 1;
    for b in rest {
        if !is_word_byte(*b) || at >= MAX_COMPONENT {
            return Some(at);
        }
        at += 1;
    }
    None
}

/// The place of the first byte that cannot stand in a name: 0 for the empty text, 255 for a 256th byte.
pub(crate) fn name_wrong(bytes: &[u8]) -> Option<usize>
    ensures { result ≡ name_wrong bytes.now }
{
    let [first, rest @ ..] = bytes else {
        return Some(0);
    };
    if !first.is_ascii_alphanumeric() {
        return Some(0);
    }
    rest_wrong(rest)
}

impl Name {
    /// The name that a text is.
    pub fn parse(alloc: Global, text: &str) -> Result<Name, NameFault>
        // A text that is read is a name.
        ensures found { IfOk result (λ n. (n ≡ text.now) × IsNameText text.now) }
        // A name is read, unless memory runs out.
        ensures only { IsNameText text.now → Gives (λ n. n) result (Ok text.now) }
        // Which byte cannot stand there.
        ensures exact { Gives (λ n. n) result (read_name text.now) }
    {
        Name::parse_name_exact(alloc, text)
    }

    #[tactic(auto, unfolding(crate::specs::Names::read_name))]
    fn parse_name_exact(alloc: Global, text: &str) -> Result<Name, NameFault>
        ensures { Gives (λ n. n) result (read_name text.now) }
    {
        if let Some(place) = name_wrong(text.as_bytes()) {
            return Err(NameFault::Component(place));
        }
        let text = String::from_str(alloc, text)?;
        Ok(Name { text })
    }

    /// The name that a text is that is known to be one, as a fixed text of the program.
    pub fn new(alloc: Global, text: &str) -> Result<Name, AllocError>
        requires { is_name text.now ≡ true }
        ensures { IfOk result (λ n. n ≡ text.now) }
    {
        let text = String::from_str(alloc, text)?;
        Ok(Name { text })
    }

    pub fn as_str(&self) -> &str
        ensures value { result.now ≡ self.now }
        ensures name { is_name self.now ≡ true }
    {
        self.text.as_str()
    }
}

impl Clone for Name {
    ghost is_clone = { λ s copy. copy ≡ s };

    fn clone(&self) -> Result<Name, AllocError> {
        let text = self.text.clone()?;
        Ok(Name { text })
    }
}

impl PartialEq for Name {
    ghost eq = { λ x y. pointwise nat_eq x y };

    ghost laws = { Cmp.partial_equiv_from_equiv nat_list_eq_equiv };

    fn eq(&self, other: &Name) -> bool {
        self.text == other.text
    }
}

impl Eq for Name {
    ghost laws = { nat_list_eq_equiv };
}

impl PartialOrd for Name {
    ghost partial_cmp = { λ x y. Some (slice_cmp nat_cmp x y) };

    ghost laws = { texts_po };

    fn partial_cmp(&self, other: &Name) -> Option<Ordering> {
        Some(self.cmp(other))
    }
}

impl Ord for Name {
    ghost cmp = { λ x y. slice_cmp nat_cmp x y };

    ghost total = { nat_list_cmp_total };

    ghost matches_partial_cmp = { λ x y. refl };

    ghost matches_eq = { texts_ties };

    fn cmp(&self, other: &Name) -> Ordering {
        self.text.cmp(&other.text)
    }
}

impl fmt::Display for Name {
    ghost output = { λ s. Some s };

    fn fmt<W: fmt::Write>(&self, f: &mut fmt::Formatter<W>) -> fmt::Result {
        fmt::Display::fmt(&self.text, f)
    }
}
