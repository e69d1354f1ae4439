ghost use Rattle.std.specs.Prelude.{◌≡◌, ◌++◌, IfOk, OnOk};
ghost use Rattle.smf_svccfg.specs.Tokens.{escaped_text, escaped_byte, quoted_text};

use crate::token::is_mark;
use smf_fmri::Text;
use std::alloc::{AllocError, Global};
use std::str;

/// Puts a byte, after a backslash if it is a quote or a backslash.
fn put_escaped(all: &mut Vec<u8>, b: u8) -> Result<(), AllocError>
    ensures { OnOk result (all.new.items ≡ all.old.items ++ escaped_byte b) }
{
    if is_mark(b) {
        all.push(b'\\')?;
        all.push(b)?;
        Ok(())
    } else {
        all.push(b)?;
        Ok(())
    }
}

/// The bytes of a text with a backslash before each quote and each backslash.
pub fn escaped_text(alloc: Global, bytes: &[u8]) -> Result<Vec<u8>, AllocError>
    ensures { IfOk result (λ all. all.items ≡ escaped_text bytes.now) }
{
    let mut all = Vec::new(alloc);
    for b in bytes {
        put_escaped(&mut all, *b)?;
    }
    Ok(all)
}

/// A text in quotes, as a quoted word of a line stands.
pub fn quoted_text(alloc: Global, text: &str) -> Result<Text, AllocError>
    ensures { IfOk result (λ word. word ≡ quoted_text text.now) }
{
    let bytes = escaped_text(alloc, text.as_bytes())?;
    let Ok(inner) = str::from_utf8(bytes.as_slice()) else {
        unreachable!()
    };
    let mut word = String::from_str(alloc, "\"")?;
    word.push_str(inner)?;
    word.push_str("\"")?;
    Ok(Text::from_string(word))
}
