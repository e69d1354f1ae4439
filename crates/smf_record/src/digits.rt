//! Bytes as two lower-case digits each, and none as `-`.

ghost use Rattle.std.specs.Cmp.Lexicographic.{pointwise};
ghost use Rattle.std.specs.Prelude.{◌≡◌, IfOk, nat_eq, option_map, string_bytes};
ghost use Rattle.std.specs.Result.{result_ok};
ghost use Rattle.hex.specs.Hex.{decode_of};
ghost use Rattle.smf_record.specs.Digits.{hex_text, read_hex};

use hex::FromHexError;
use std::alloc::{AllocError, Global};

pub(crate) fn hex_text(alloc: Global, bytes: &[u8]) -> Result<String, AllocError>
    ensures { IfOk result (λ text. string_bytes text ≡ hex_text bytes.now) }
{
    if bytes.is_empty() {
        return String::from_str(alloc, "-");
    }
    hex::encode(alloc, bytes)
}

/// True if bytes are written so.
fn is_written_so(alloc: Global, text: &str, bytes: &[u8]) -> Result<bool, AllocError>
    ensures { IfOk result (λ b. b ≡ pointwise nat_eq (hex_text bytes.now) text.now) }
{
    let again = hex_text(alloc, bytes)?;
    Ok(again.as_str() == text)
}

/// The bytes that digits are, or none if some are missing or of the wrong form.
fn bytes_of_digits(alloc: Global, text: &str) -> Result<Option<Vec<u8>>, AllocError>
    ensures { IfOk result (λ bytes. option_map (λ v. v.items) bytes ≡ result_ok (decode_of text.now)) }
{
    match hex::decode(alloc, text) {
        Ok(bytes) => Ok(Some(bytes)),
        Err(FromHexError::OutOfMemory) => Err(AllocError),
        Err(_) => Ok(None),
    }
}

/// The bytes that a text spells.
#[tactic(auto, unfolding(crate::specs::Digits::read_hex))]
pub(crate) fn read_hex(alloc: Global, text: &str) -> Result<Option<Vec<u8>>, AllocError>
    ensures { IfOk result (λ bytes. option_map (λ v. v.items) bytes ≡ read_hex text.now) }
{
    if text == "-" {
        return Ok(Some(Vec::new(alloc)));
    }
    let Some(bytes) = bytes_of_digits(alloc, text)? else {
        return Ok(None);
    };
    if !is_written_so(alloc, text, &bytes)? {
        return Ok(None);
    }
    Ok(Some(bytes))
}
