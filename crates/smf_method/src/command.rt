ghost use Rattle.smf_fmri.specs.Name.{strip};
ghost use Rattle.smf_method.specs.Commands.{builtin, command_of, is_kill, is_signal, is_signal_behind, is_signal_byte};
ghost use Rattle.smf_value.specs.Texts.{is_plain};
ghost use Rattle.std.specs.Cmp;
ghost use Rattle.std.specs.Cmp.Lexicographic.{pointwise, nat_list_eq_equiv};
ghost use Rattle.std.specs.List.{list_all};
ghost use Rattle.std.specs.Option.{option_copied};
ghost use Rattle.std.specs.Prelude.{◌≡◌, IfOk, Some, nat_eq, string_bytes, true};

use smf_fmri::strip;
use smf_value::Astring;
use std::alloc::{AllocError, Global};
use std::fmt;
use std::marker::Model;

/// The command of a method: a text of ASCII without control characters, of any length. Contracts see its bytes.
#[derive(Drop)]
pub struct CommandText {
    text: String,
}

impl Model for CommandText {
    ghost use Rattle.std.specs.Prelude.{List, ℕ, string_bytes};

    ghost Value = { List ℕ };

    ghost use Rattle.smf_method.specs.Commands.{IsCommand};

    ghost view = { λ c. string_bytes c.text };

    ghost invariant = { λ c. IsCommand (string_bytes c.text) };
}

/// A command that is run without a process of its own.
#[derive(Clone, Copy, PartialEq, Eq)]
pub enum Builtin {
    /// It succeeds.
    True,
    /// It sends a signal to the processes of the instance.
    Kill,
}

fn all_plain(bytes: &[u8]) -> bool
    ensures { result ≡ list_all is_plain bytes.now }
{
    bytes.iter().all(|b| *b >= 32 && *b < 127)
}

fn is_signal_byte(b: u8) -> bool
    ensures { result ≡ is_signal_byte b }
{
    b.is_ascii_uppercase() || b.is_ascii_digit()
}

fn are_signal_bytes(bytes: &[u8]) -> bool
    ensures { result ≡ list_all is_signal_byte bytes.now }
{
    bytes.iter().all(|b| is_signal_byte(*b))
}

/// True if bytes name a signal.
fn is_signal(bytes: &[u8]) -> bool
    ensures { result ≡ is_signal bytes.now }
{
    if bytes.is_empty() {
        return false;
    }
    are_signal_bytes(bytes)
}

fn is_signal_behind(rest: Option<&str>) -> bool
    ensures { result ≡ is_signal_behind (option_copied rest.entry) }
{
    match rest {
        None => false,
        Some(signal) => is_signal(signal.as_bytes()),
    }
}

fn is_kill(text: &str) -> bool
    ensures { result ≡ is_kill text.now }
{
    if text == ":kill" {
        return true;
    }
    is_signal_behind(strip(":kill -", text))
}

impl CommandText {
    /// A copy of a text, or none if a byte of it cannot stand in a command.
    pub fn copy_of(alloc: Global, text: &str) -> Result<Option<CommandText>, AllocError>
        ensures { IfOk result (λ c. c ≡ command_of text.now) }
    {
        if !all_plain(text.as_bytes()) {
            return Ok(None);
        }
        let text = String::from_str(alloc, text)?;
        Ok(Some(CommandText { text }))
    }

    /// A text that is known to be one.
    pub(crate) fn new(text: String) -> CommandText
        requires { list_all is_plain (string_bytes text) ≡ true }
        ensures { result ≡ string_bytes text }
    {
        CommandText { text }
    }

    /// The same text as an astring.
    pub(crate) fn of_astring(alloc: Global, text: &Astring) -> Result<CommandText, AllocError>
        ensures { IfOk result (λ c. c ≡ text.now) }
    {
        let text = String::from_str(alloc, text.as_str())?;
        Ok(CommandText { text })
    }

    pub fn as_str(&self) -> &str
        ensures value { result.now ≡ self.now }
        ensures plain { list_all is_plain self.now ≡ true }
    {
        self.text.as_str()
    }

    /// Which of the built-in commands it is, if it is one.
    pub fn builtin(&self) -> Option<Builtin>
        ensures { result ≡ builtin self.now }
    {
        let text = self.text.as_str();
        if text == ":true" {
            return Some(Builtin::True);
        }
        if is_kill(text) {
            return Some(Builtin::Kill);
        }
        None
    }
}

impl Clone for CommandText {
    ghost is_clone = { λ s copy. copy ≡ s };

    fn clone(&self) -> Result<CommandText, AllocError> {
        let text = self.text.clone()?;
        Ok(CommandText { text })
    }
}

impl PartialEq for CommandText {
    ghost eq = { λ x y. pointwise nat_eq x y };

    ghost laws = { Cmp.partial_equiv_from_equiv nat_list_eq_equiv };

    fn eq(&self, other: &CommandText) -> bool {
        self.text == other.text
    }
}

impl Eq for CommandText {
    ghost laws = { nat_list_eq_equiv };
}

impl fmt::Display for CommandText {
    ghost output = { λ s. Some s };

    fn fmt<W: fmt::Write>(&self, f: &mut fmt::Formatter<W>) -> fmt::Result {
        fmt::Display::fmt(&self.text, f)
    }
}
