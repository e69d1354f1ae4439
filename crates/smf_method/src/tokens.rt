ghost use Rattle.smf_method.specs.Tokens.{PutsByte, filled_text, is_token, names_of, percent_behind, wrong_token};
ghost use Rattle.smf_value.specs.Texts.{is_plain};
ghost use Rattle.std.specs.List.{list_all};
ghost use Rattle.std.specs.Prelude.{◌≡◌, ◌<◌, IfOk, string_bytes, true};

use crate::texts::token_text;
use smf_contract::Method;
use smf_fmri::InstanceFmri;
use std::alloc::{AllocError, Global};

fn is_token(b: u8) -> bool
    ensures { result ≡ is_token b }
{
    b == b'%' || b == b'r' || b == b'm' || b == b's' || b == b'i' || b == b'f'
}

/// The place of a `%` whose token comes after the byte at `at`, if there is one. `percent` is the place of such a `%`
/// before that byte. The error is the place of a `%` that begins no token.
fn percent_behind(percent: Option<usize>, at: usize, b: u8) -> Result<Option<usize>, usize>
    ensures { result ≡ percent_behind percent at b }
{
    match percent {
        None if b == b'%' => Ok(Some(at)),
        None => Ok(None),
        Some(_) if is_token(b) => Ok(None),
        Some(place) => Err(place),
    }
}

/// The place of the first `%` that begins no token.
pub(crate) fn wrong_token(bytes: &[u8]) -> Option<usize>
    ensures { result ≡ wrong_token 0 bytes.now }
{
    let mut percent = None;
    let mut at = 0;
    for b in bytes {
        match percent_behind(percent, at, *b) {
            Ok(next) => percent = next,
            Err(place) => return Some(place),
        }
        at += 1;
    }
    percent
}

/// Writes what a byte stands for, and says whether it is a `%` whose token comes next.
fn put_byte(
    text: &mut String,
    is_behind_percent: bool,
    b: u8,
    restarter: &InstanceFmri,
    method: Method,
    instance: &InstanceFmri,
) -> Result<bool, AllocError>
    requires { b < 128 }
    ensures { IfOk result
        (PutsByte (names_of restarter.now method instance.now) is_behind_percent b (string_bytes text.old)
        (string_bytes text.new)) }
{
    if is_behind_percent {
        text.push_str(token_text(restarter, method, instance, b))?;
        return Ok(false);
    }
    if b == b'%' {
        return Ok(true);
    }
    text.push(char::from(b))?;
    Ok(false)
}

/// The text with what stands for its tokens.
pub(crate) fn fill(
    alloc: Global,
    bytes: &[u8],
    restarter: &InstanceFmri,
    method: Method,
    instance: &InstanceFmri,
) -> Result<String, AllocError>
    requires { list_all is_plain bytes.now ≡ true }
    ensures { IfOk result
        (λ text. string_bytes text ≡ filled_text (names_of restarter.now method instance.now) bytes.now) }
{
    let mut text = String::new(alloc);
    let mut is_behind_percent = false;
    for b in bytes {
        is_behind_percent = put_byte(
            &mut text,
            is_behind_percent,
            *b,
            restarter,
            method,
            instance,
        )?;
    }
    Ok(text)
}
