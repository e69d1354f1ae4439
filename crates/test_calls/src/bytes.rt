//! Bytes as two digits each.

use crate::answers::Answer;
use hex::FromHexError;
use smf_fmri::Bytes;
use std::alloc::{AllocError, Global};

/// The bytes of digits.
pub(crate) fn bytes_of(alloc: Global, out: &mut Answer, text: &str) -> Option<Vec<u8>> {
    match hex::decode(alloc, text) {
        Ok(bytes) => Some(bytes),
        Err(FromHexError::OutOfMemory) => out.value_or_no_memory(Err(AllocError)),
        Err(_) => out.value_or_bad_line(None),
    }
}

/// The digits of bytes that a library made.
pub(crate) fn put_bytes(alloc: Global, out: &mut Answer, bytes: Result<Bytes, AllocError>) {
    if let Some(bytes) = out.value_or_no_memory(bytes) {
        put_digits(out, hex::encode(alloc, bytes.as_slice()));
    }
}

fn put_digits(out: &mut Answer, digits: Result<String, AllocError>) {
    if let Some(digits) = out.value_or_no_memory(digits) {
        out.put(digits.as_str());
    }
}
