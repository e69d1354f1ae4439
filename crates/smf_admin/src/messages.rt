ghost use Rattle.std.specs.Prelude.{◌≡◌, IfOk};
ghost use Rattle.smf_admin.specs.Messages.{no_match_text, several_text, svcadm_usage, svcs_usage};

use smf_fmri::Text;
use std::alloc::{AllocError, Global};
use std::fmt::Write;

/// The message of a program about a word that matches no instance.
#[tactic(auto, unfolding(crate::specs::Messages::no_match_text))]
pub fn no_match_text(alloc: Global, program: &str, word: &str) -> Result<Text, AllocError>
    ensures { IfOk result (λ text. text ≡ no_match_text program.now word.now) }
{
    let text = format!(in alloc; "{program}: no instance matches {word}\n")?;
    Ok(Text::from_string(text))
}

/// The message of a program about a word that matches so many instances.
#[tactic(auto, unfolding(crate::specs::Messages::several_text))]
pub fn several_text(
    alloc: Global,
    program: &str,
    word: &str,
    count: usize,
) -> Result<Text, AllocError>
    ensures { IfOk result (λ text. text ≡ several_text program.now word.now count) }
{
    let text = format!(in alloc; "{program}: {count} instances match {word}\n")?;
    Ok(Text::from_string(text))
}

/// The message about words that svcadm does not take.
pub fn svcadm_usage() -> &'static str
    ensures { result.now ≡ svcadm_usage }
{
    "svcadm: bad usage\n"
}

/// The message about words that svcs does not take.
pub fn svcs_usage() -> &'static str
    ensures { result.now ≡ svcs_usage }
{
    "svcs: bad usage\n"
}
