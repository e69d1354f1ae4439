// Pieces of lines and of commands.
ghost use Rattle.smf_toml.specs.Pieces.{flag_option, number_option, script_byte, script_text, shell_byte, shell_text, signed_option, text_of, text_option, text_options, texts_in};
ghost use Rattle.std.specs.Fmt.{decimal, signed_decimal};
ghost use Rattle.std.specs.Prelude.{◌≡◌, ◌++◌, OnOk, Some, option_map, codes};

use crate::site::Words;
use std::alloc::{AllocError, Global};

/// Puts a text.
pub(crate) fn put(out: &mut Vec<u8>, text: &str) -> Result<(), AllocError>
    ensures { OnOk result (out.new.items ≡ out.old.items ++ text.now) }
{
    out.extend_from_slice(text.as_bytes())
}

/// Puts a number.
pub(crate) fn put_number(alloc: Global, out: &mut Vec<u8>, number: u64) -> Result<(), AllocError>
    ensures { OnOk result (out.new.items ≡ out.old.items ++ decimal number) }
{
    let text = format!(in alloc; "{number}")?;
    put(out, text.as_str())
}

/// Puts a number that may be below zero.
pub(crate) fn put_signed(alloc: Global, out: &mut Vec<u8>, number: i64) -> Result<(), AllocError>
    ensures { OnOk result (out.new.items ≡ out.old.items ++ signed_decimal number) }
{
    let text = format!(in alloc; "{number}")?;
    put(out, text.as_str())
}

/// Puts a byte of a word in quotes for a shell.
fn put_shell_byte(out: &mut Vec<u8>, b: u8) -> Result<(), AllocError>
    ensures { OnOk result (out.new.items ≡ out.old.items ++ shell_byte b) }
{
    if b == b'\'' {
        return out.extend_from_slice(&[b'\'', b'\\', b'\'', b'\'']);
    }
    if b == b'%' {
        return out.extend_from_slice(&[b'%', b'%']);
    }
    out.extend_from_slice(&[b])
}

/// Puts the bytes of a word in quotes for a shell.
pub(crate) fn put_shell_text(out: &mut Vec<u8>, bytes: &[u8]) -> Result<(), AllocError>
    ensures { OnOk result (out.new.items ≡ out.old.items ++ shell_text bytes.now) }
{
    for b in bytes {
        put_shell_byte(out, *b)?;
    }
    Ok(())
}

fn put_script_byte(out: &mut Vec<u8>, b: u8) -> Result<(), AllocError>
    ensures { OnOk result (out.new.items ≡ out.old.items ++ script_byte b) }
{
    if b == b'\'' {
        return out.extend_from_slice(&[b'\'', b'\\', b'\'', b'\'']);
    }
    out.extend_from_slice(&[b])
}

/// Puts the bytes of a script in quotes for a shell. The tokens of a method stay tokens.
pub(crate) fn put_shell_script(out: &mut Vec<u8>, bytes: &[u8]) -> Result<(), AllocError>
    ensures { OnOk result (out.new.items ≡ out.old.items ++ script_text bytes.now) }
{
    for b in bytes {
        put_script_byte(out, *b)?;
    }
    Ok(())
}

fn put_one_option(out: &mut Vec<u8>, word: &str, text: &str) -> Result<(), AllocError>
    ensures { OnOk result (out.new.items ≡ out.old.items ++ text_option word.now (Some text.now)) }
{
    put(out, word)?;
    put(out, " '")?;
    put_shell_text(out, text.as_bytes())?;
    put(out, "' ")
}

/// Puts an option with a text, if there is one.
pub(crate) fn put_text_option(
    out: &mut Vec<u8>,
    word: &str,
    text: &Option<Words>,
) -> Result<(), AllocError>
    ensures { OnOk result
        (out.new.items ≡ out.old.items ++ text_option word.now (option_map text_of text.now)) }
{
    match text {
        None => Ok(()),
        Some(text) => put_one_option(out, word, text.text.as_str()),
    }
}

/// Puts an option with a number, if there is one.
pub(crate) fn put_number_option(
    alloc: Global,
    out: &mut Vec<u8>,
    word: &str,
    number: Option<u64>,
) -> Result<(), AllocError>
    ensures { OnOk result (out.new.items ≡ out.old.items ++ number_option word.now number) }
{
    match number {
        None => Ok(()),
        Some(number) => {
            put(out, word)?;
            put(out, " ")?;
            put_number(alloc, out, number)?;
            put(out, " ")
        }
    }
}

/// Puts an option with a number that may be below zero, if there is one.
pub(crate) fn put_signed_option(
    alloc: Global,
    out: &mut Vec<u8>,
    word: &str,
    number: Option<i64>,
) -> Result<(), AllocError>
    ensures { OnOk result (out.new.items ≡ out.old.items ++ signed_option word.now number) }
{
    match number {
        None => Ok(()),
        Some(number) => {
            put(out, word)?;
            put(out, " ")?;
            put_signed(alloc, out, number)?;
            put(out, " ")
        }
    }
}

/// Puts a word, if it is wanted.
pub(crate) fn put_flag(
    out: &mut Vec<u8>,
    word: &str,
    wanted: Option<bool>,
) -> Result<(), AllocError>
    ensures { OnOk result (out.new.items ≡ out.old.items ++ flag_option word.now wanted) }
{
    match wanted {
        Some(true) => {
            put(out, word)?;
            put(out, " ")
        }
        _ => Ok(()),
    }
}

fn put_each_option(out: &mut Vec<u8>, word: &str, texts: &[Words]) -> Result<(), AllocError>
    ensures { OnOk result (out.new.items ≡ out.old.items ++ text_options word.now texts.now) }
{
    for text in texts {
        put_one_option(out, word, text.text.as_str())?;
    }
    Ok(())
}

/// Puts an option for each text.
pub(crate) fn put_text_options(
    out: &mut Vec<u8>,
    word: &str,
    texts: &Option<Vec<Words>>,
) -> Result<(), AllocError>
    ensures { OnOk result (out.new.items ≡ out.old.items ++ text_options word.now (texts_in texts.now)) }
{
    match texts {
        None => Ok(()),
        Some(texts) => put_each_option(out, word, texts.as_slice()),
    }
}
