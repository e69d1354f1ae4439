//! The script that does lines of svccfg.

ghost use Rattle.std.specs.Io.BufRead.{drop_through, take_through};
ghost use Rattle.std.specs.Prelude.{◌≡◌, ◌++◌, ◌<◌, length, option_copied, IfOk, OnOk};
ghost use Rattle.smf_ask.specs.Scripts.{ends_session, is_quoted_end, script_of, selecting, session_of, svccfg};

use crate::words::{are_blanks, is_end, split_word};
use std::alloc::{AllocError, Global};

/// The first line of a text, with its end, and what follows it.
fn split_line(text: &[u8]) -> (&[u8], &[u8])
    ensures line { result.0.now ≡ take_through 10 text.now }
    ensures behind { result.1.now ≡ drop_through 10 text.now }
    ensures shorter { 0 < length text.now → length result.1.now < length text.now }
{
    for (at, b) in text.iter().enumerate() {
        if *b == b'\n' {
            return text.split_at(at + 1);
        }
    }
    (text, &[])
}

/// True for a quoted word that ends a session.
fn is_quoted_end(word: &[u8]) -> bool
    ensures { result ≡ is_quoted_end word.now }
{
    word == b"\"end\"".as_slice()
        || word == b"\"exit\"".as_slice()
        || word == b"\"quit\"".as_slice()
}

/// True for a line that has only a word that ends the session.
pub(crate) fn ends_session(line: &[u8]) -> bool
    ensures { result ≡ ends_session line.now }
{
    let (word, rest) = split_word(line);
    (is_end(word) || is_quoted_end(word)) && are_blanks(rest)
}

/// Puts a line, as a script has it.
pub(crate) fn put_line(script: &mut Vec<u8>, line: &[u8]) -> Result<(), AllocError>
    ensures { OnOk result (script.new.items ≡ script.old.items ++ svccfg line.now) }
{
    script.extend_from_slice(b"svccfg ")?;
    script.extend_from_slice(line)
}

/// Puts the line that selects a name.
fn put_select(script: &mut Vec<u8>, name: &[u8]) -> Result<(), AllocError>
    ensures { OnOk result (script.new.items ≡ script.old.items ++ selecting name.now) }
{
    script.extend_from_slice(b"svccfg select ")?;
    script.extend_from_slice(name)?;
    script.extend_from_slice(b"\n")
}

/// Puts the lines of a text, up to and with the one that ends the session.
fn put_session(script: &mut Vec<u8>, text: &[u8]) -> Result<(), AllocError>
    ensures { OnOk result (script.new.items ≡ script.old.items ++ session_of text.now) }
{
    let mut rest = text;
    while !rest.is_empty() {
        let (line, behind) = split_line(rest);
        put_line(script, line)?;
        if ends_session(line) {
            return Ok(());
        }
        rest = behind;
    }
    Ok(())
}

/// The script that selects a name, if there is one, and does the lines of a text, up to and with the one that ends the session.
pub fn script_of(alloc: Global, first: Option<&[u8]>, text: &[u8]) -> Result<Vec<u8>, AllocError>
    ensures { IfOk result (λ script. script.items ≡ script_of (option_copied first.entry) text.now) }
{
    let mut script = Vec::new(alloc);
    if let Some(name) = first {
        put_select(&mut script, name)?;
    }
    put_session(&mut script, text)?;
    Ok(script)
}
