ghost use Rattle.std.specs.Prelude.{◌≡◌, ◌++◌, codes, IfOk};
ghost use Rattle.smf_model.specs.Refusals.{denial, refusal};
ghost use Rattle.smf_value.specs.Kinds.{kind_text};

use crate::command::CommandReply;
use smf_fmri::Text;
use smf_value::{GroupFault, Kind};
use std::alloc::{AllocError, Global};

/// The words for a refusal, without the program's name in front and without a line's end; none for what was done.
/// No client's command is answered by `Stale`, whose words are `not granted`.
#[tactic(auto, unfolding(crate::specs::Refusals::refusal))]
pub fn refusal_text(alloc: Global, reply: &CommandReply) -> Result<Option<Text>, AllocError>
    ensures { IfOk result (λ text. text ≡ refusal reply.now) }
{
    let words = match reply {
        CommandReply::Made(_) | CommandReply::Granted(_) | CommandReply::Done => return Ok(None),
        CommandReply::Denied(fault) => return Ok(Some(denial(alloc, *fault)?)),
        CommandReply::NoSuch => "no such entity",
        CommandReply::InUse => "in use",
        CommandReply::NotInState => "not in a state for this",
        CommandReply::Exists => "already exists",
        CommandReply::Limit => "limit",
        CommandReply::Stale(_, _) => "not granted",
    };
    Ok(Some(Text::copy_of(alloc, words)?))
}

fn denial(alloc: Global, fault: GroupFault) -> Result<Text, AllocError>
    ensures { IfOk result (λ text. text ≡ denial fault) }
{
    let words = match fault {
        GroupFault::NotA(kind) => return not_a(alloc, kind),
        GroupFault::Memory => "no memory",
        GroupFault::NoSuch => "no such property",
        GroupFault::NeedsKind => "type needed",
        GroupFault::KindDiffers => "type differs",
        GroupFault::TooLong => "too long",
        GroupFault::Range => "out of range",
        GroupFault::Full => "too many",
    };
    Text::copy_of(alloc, words)
}

fn not_a(alloc: Global, kind: Kind) -> Result<Text, AllocError>
    ensures { IfOk result (λ text. text ≡ codes "not a value of " ++ kind_text kind) }
{
    let mut text = String::from_str(alloc, "not a value of ")?;
    text.push_str(kind.as_str())?;
    Ok(Text::from_string(text))
}
