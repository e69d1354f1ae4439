//! The words of the repository's refusals.

use crate::answers::Answer;
use crate::values::kind_of;
use smf_fmri::Text;
use smf_model::{CommandReply, refusal_text};
use smf_state::Why;
use smf_value::GroupFault;
use std::alloc::{AllocError, Global};

/// The words of a refusal; `none` if a reply is no refusal.
pub(crate) fn refusal(alloc: Global, out: &mut Answer, text: &str) {
    if let Some(reply) = out.value_or_bad_line(reply_of(text)) {
        put_refusal(out, refusal_text(alloc, &reply));
    }
}

fn put_refusal(out: &mut Answer, text: Result<Option<Text>, AllocError>) {
    match out.value_or_no_memory(text) {
        Some(Some(text)) => out.put(text.as_str()),
        Some(None) => out.put("none"),
        None => {}
    }
}

fn reply_of(text: &str) -> Option<CommandReply> {
    match text {
        "made" => Some(CommandReply::Made(1)),
        "done" => Some(CommandReply::Done),
        "no_such" => Some(CommandReply::NoSuch),
        "in_use" => Some(CommandReply::InUse),
        "not_in_state" => Some(CommandReply::NotInState),
        "exists" => Some(CommandReply::Exists),
        "limit" => Some(CommandReply::Limit),
        "stale" => Some(CommandReply::Stale(Why::NoSuch, None)),
        _ => Some(CommandReply::Denied(fault_of(text)?)),
    }
}

/// `denied FAULT`.
fn fault_of(text: &str) -> Option<GroupFault> {
    match text {
        "denied no_such" => Some(GroupFault::NoSuch),
        "denied needs_kind" => Some(GroupFault::NeedsKind),
        "denied kind_differs" => Some(GroupFault::KindDiffers),
        "denied too_long" => Some(GroupFault::TooLong),
        "denied range" => Some(GroupFault::Range),
        "denied full" => Some(GroupFault::Full),
        _ => {
            let kind = text.strip_prefix("denied not_a ")?;
            Some(GroupFault::NotA(kind_of(kind)?))
        }
    }
}
