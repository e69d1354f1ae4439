//! Messages: a line that is read and written again.

use crate::answers::Answer;
use crate::words::put_text;
use smf_wire::{decode, encode};
use std::alloc::Global;

/// The line of the message that a line is.
pub(crate) fn again(alloc: Global, out: &mut Answer, line: &str) {
    if let Some(message) = out.value_or_refusal(decode(alloc, line)) {
        put_text(out, encode(alloc, &message));
    }
}
