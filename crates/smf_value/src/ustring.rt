ghost use Rattle.smf_value.specs.Texts.{is_ustring, is_no_control};
ghost use Rattle.std.specs.Cmp;
ghost use Rattle.std.specs.Cmp.Lexicographic.{pointwise, nat_list_eq_equiv};
ghost use Rattle.std.specs.List.{list_all};
ghost use Rattle.std.specs.Str.{is_utf8};
ghost use Rattle.std.specs.Prelude.{◌≡◌, IfOk, Some, nat_eq, true};

use smf_fmri::limits::MAX_TEXT;
use std::alloc::{AllocError, Global};
use std::marker::Model;
use std::{fmt, str};

/// A text without the control characters of ASCII (U+0000 to U+001F, U+007F), of at most 4,096 bytes.
#[derive(Drop)]
pub struct Ustring {
    text: String,
}

impl Model for Ustring {
    ghost use Rattle.std.specs.Str.{is_utf8};
    ghost use Rattle.std.specs.Prelude.{List, ℕ, string_bytes};

    ghost Value = { List ℕ };

    ghost use Rattle.smf_value.specs.Texts.{IsUstring};

    ghost view = { λ a. string_bytes a.text };

    ghost invariant = { λ a. IsUstring (string_bytes a.text) };
}

fn all_no_control(bytes: &[u8]) -> bool
    ensures { result ≡ list_all is_no_control bytes.now }
{
    bytes.iter().all(|b| *b >= 32 && *b != 127)
}

fn is_utf8(bytes: &[u8]) -> bool
    ensures { result ≡ is_utf8 bytes.now }
{
    str::from_utf8(bytes).is_ok()
}

impl Ustring {
    /// True if bytes are such a text.
    pub fn is_text(bytes: &[u8]) -> bool
        ensures { result ≡ is_ustring bytes.now }
    {
        bytes.len() <= MAX_TEXT && all_no_control(bytes) && is_utf8(bytes)
    }

    /// A text that is known to be one.
    pub fn new(alloc: Global, text: &str) -> Result<Ustring, AllocError>
        requires { is_ustring text.now ≡ true }
        ensures { IfOk result (λ a. a ≡ text.now) }
    {
        let text = String::from_str(alloc, text)?;
        Ok(Ustring { text })
    }

    pub fn as_str(&self) -> &str
        ensures value { result.now ≡ self.now }
        ensures text { is_ustring self.now ≡ true }
    {
        self.text.as_str()
    }
}

impl Clone for Ustring {
    ghost is_clone = { λ s copy. copy ≡ s };

    fn clone(&self) -> Result<Ustring, AllocError> {
        let text = self.text.clone()?;
        Ok(Ustring { text })
    }
}

impl PartialEq for Ustring {
    ghost eq = { λ x y. pointwise nat_eq x y };

    ghost laws = { Cmp.partial_equiv_from_equiv nat_list_eq_equiv };

    fn eq(&self, other: &Ustring) -> bool {
        self.text == other.text
    }
}

impl Eq for Ustring {
    ghost laws = { nat_list_eq_equiv };
}

impl fmt::Display for Ustring {
    ghost output = { λ s. Some s };

    fn fmt<W: fmt::Write>(&self, f: &mut fmt::Formatter<W>) -> fmt::Result {
        fmt::Display::fmt(&self.text, f)
    }
}
