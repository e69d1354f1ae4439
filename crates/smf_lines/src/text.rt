ghost use Rattle.std.specs.Prelude.{◌≡◌, option_map};
ghost use Rattle.smf_lines.specs.Lines.{text_in};

use crate::limits::MAX_LINE;
use std::str;

/// The text of a line, which stands without its end; none if it is too long or is no UTF-8.
pub fn text_in(line: &[u8]) -> Option<&str>
    ensures { option_map (λ x. x.now) result ≡ text_in line.now }
{
    if line.len() > MAX_LINE {
        return None;
    }
    match str::from_utf8(line) {
        Ok(text) => Some(text),
        Err(_) => None,
    }
}
