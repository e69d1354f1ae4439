//! Which instances words mean, as svcs takes them.

ghost use Rattle.std.specs.List.{flat_map};
ghost use Rattle.std.specs.Prelude.{◌≡◌, ◌++◌, IfOk, OnOk, map, string_bytes};
ghost use Rattle.smf_admin.specs.Output.{patterns_of};
ghost use Rattle.smf_runs.specs.Reasons.{reasons_by_words, missed_text, reasons_by_patterns};

use smf_admin::{is_named, no_match_text, patterns_of};
use smf_fmri::{Items, Pattern, Text};
use smf_reasons::Told;
use std::alloc::{AllocError, Global};

/// Words with memory of their own.
pub fn texts_of(alloc: Global, words: &[&str]) -> Result<Items<Text>, AllocError>
    ensures { IfOk result (λ all. all ≡ map (λ w. w.now) words.now) }
{
    let mut all = Items::new(alloc);
    for word in words {
        all.push(Text::copy_of(alloc, word)?)?;
    }
    Ok(all)
}

fn put_missed(alloc: Global, out: &mut String, words: &[Text]) -> Result<(), AllocError>
    ensures { OnOk result (string_bytes out.new ≡ string_bytes out.old ++ flat_map missed_text words.now) }
{
    for word in words {
        out.push_str(no_match_text(alloc, "smf", word.as_str())?.as_str())?;
    }
    Ok(())
}

/// The lines about words that match no instance.
pub fn missed_text(alloc: Global, words: &[Text]) -> Result<Text, AllocError>
    ensures { IfOk result (λ text. text ≡ flat_map missed_text words.now) }
{
    let mut out = String::new(alloc);
    put_missed(alloc, &mut out, words)?;
    Ok(Text::from_string(out))
}

/// The reasons of the instances that a pattern matches.
fn reasons_by_patterns(
    alloc: Global,
    patterns: &[Pattern],
    all: Items<Told>,
) -> Result<Items<Told>, AllocError>
    ensures { IfOk result (λ kept. kept ≡ reasons_by_patterns patterns.now all) }
{
    let mut kept = Items::new(alloc);
    for told in all.into_vec() {
        if is_named(patterns, &told.name) {
            kept.push(told)?;
        }
    }
    Ok(kept)
}

/// The reasons of the instances that words mean: of all instances, if there are no words.
#[tactic(auto, using(crate::proofs::Asked::some_asked))]
pub(crate) fn reasons_by_words(
    alloc: Global,
    words: &[Text],
    all: Items<Told>,
) -> Result<Items<Told>, AllocError>
    ensures { IfOk result (λ kept. kept ≡ reasons_by_words words.now all) }
{
    match words {
        [] => Ok(all),
        [_, ..] => reasons_by_some_words(alloc, words, all),
    }
}

/// The reasons of the instances that one of the words matches.
fn reasons_by_some_words(
    alloc: Global,
    words: &[Text],
    all: Items<Told>,
) -> Result<Items<Told>, AllocError>
    ensures { IfOk result (λ kept. kept ≡ reasons_by_patterns (patterns_of words.now) all) }
{
    let patterns = patterns_of(alloc, words)?;
    reasons_by_patterns(alloc, patterns.as_slice(), all)
}
