//! What is printed of an answer, and where.

ghost use Rattle.std.specs.Prelude.{◌≡◌, ◌++◌, IfOk, OnOk, string_bytes};
ghost use Rattle.smf_ask.specs.Answers.{is_meant, is_of, is_refusal, line_if, lines_if};

use smf_fmri::strip;
use std::alloc::{AllocError, Global};

/// True if a program says a line by its name, which an end of words follows.
fn is_of(program: &str, line: &str) -> bool
    ensures { result ≡ is_of program.now line.now }
{
    strip(program, line).is_some()
}

/// True if one of the programs says a line by its name, so that it goes to standard error.
fn is_refusal(line: &str) -> bool
    ensures { result ≡ is_refusal line.now }
{
    is_of("smf: ", line)
        || is_of("svcs: ", line)
        || is_of("svcadm: ", line)
        || is_of("svccfg: ", line)
}

/// True if a line is meant, if those are that say what is refused, or if all others are.
fn is_meant(refused: bool, is_refused: bool) -> bool
    ensures { result ≡ is_meant refused is_refused }
{
    if refused { is_refused } else { !is_refused }
}

/// Puts a line with its end, if it is one of those that are meant.
fn put_line_if(out: &mut String, refused: bool, line: &str) -> Result<(), AllocError>
    ensures { OnOk result (string_bytes out.new ≡ string_bytes out.old ++ line_if refused line.now) }
{
    if !is_meant(refused, is_refusal(line)) {
        return Ok(());
    }
    out.push_str(line)?;
    out.push_str("\n")
}

/// The lines of an answer that say what is refused, or all others, in their order.
#[tactic(auto, unfolding(crate::specs::Answers::lines_if))]
pub fn lines_if(alloc: Global, refused: bool, text: &str) -> Result<String, AllocError>
    ensures { IfOk result (λ t. string_bytes t ≡ lines_if refused text.now) }
{
    let mut out = String::new(alloc);
    for line in text.lines() {
        put_line_if(&mut out, refused, line)?;
    }
    Ok(out)
}
