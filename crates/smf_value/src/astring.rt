ghost use Rattle.smf_value.specs.Texts.{is_astring, is_plain};
ghost use Rattle.std.specs.Cmp;
ghost use Rattle.std.specs.Cmp.Lexicographic.{pointwise, nat_list_eq_equiv};
ghost use Rattle.std.specs.List.{list_all};
ghost use Rattle.std.specs.Prelude.{◌≡◌, IfOk, Some, nat_eq, true};

use smf_fmri::limits::MAX_TEXT;
use std::alloc::{AllocError, Global};
use std::fmt;
use std::marker::Model;

/// A text of ASCII without control characters, of at most 4,096 bytes.
#[derive(Drop)]
pub struct Astring {
    text: String,
}

impl Model for Astring {
    ghost use Rattle.std.specs.Prelude.{List, ℕ, string_bytes};

    ghost Value = { List ℕ };

    ghost use Rattle.smf_value.specs.Texts.{IsAstring};

    ghost view = { λ a. string_bytes a.text };

    ghost invariant = { λ a. IsAstring (string_bytes a.text) };
}

fn all_plain(bytes: &[u8]) -> bool
    ensures { result ≡ list_all is_plain bytes.now }
{
    bytes.iter().all(|b| *b >= 32 && *b < 127)
}

impl Astring {
    /// True if bytes are such a text.
    pub fn is_text(bytes: &[u8]) -> bool
        ensures { result ≡ is_astring bytes.now }
    {
        bytes.len() <= MAX_TEXT && all_plain(bytes)
    }

    /// A text that is known to be one.
    pub fn new(alloc: Global, text: &str) -> Result<Astring, AllocError>
        requires { is_astring text.now ≡ true }
        ensures { IfOk result (λ a. a ≡ text.now) }
    {
        let text = String::from_str(alloc, text)?;
        Ok(Astring { text })
    }

    pub fn as_str(&self) -> &str
        ensures value { result.now ≡ self.now }
        ensures text { is_astring self.now ≡ true }
    {
        self.text.as_str()
    }
}

impl Clone for Astring {
    ghost is_clone = { λ s copy. copy ≡ s };

    fn clone(&self) -> Result<Astring, AllocError> {
        let text = self.text.clone()?;
        Ok(Astring { text })
    }
}

impl PartialEq for Astring {
    ghost eq = { λ x y. pointwise nat_eq x y };

    ghost laws = { Cmp.partial_equiv_from_equiv nat_list_eq_equiv };

    fn eq(&self, other: &Astring) -> bool {
        self.text == other.text
    }
}

impl Eq for Astring {
    ghost laws = { nat_list_eq_equiv };
}

impl fmt::Display for Astring {
    ghost output = { λ s. Some s };

    fn fmt<W: fmt::Write>(&self, f: &mut fmt::Formatter<W>) -> fmt::Result {
        fmt::Display::fmt(&self.text, f)
    }
}
