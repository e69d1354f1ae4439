ghost use Rattle.std.specs.List.{position_or_len, slice_split};
ghost use Rattle.std.specs.Prelude.{◌≡◌, ℕ, List, ◌<◌, ◌++◌, ◌∷◌, [], filter, length, IfOk, IfSome, MatchOption, OnOk};
ghost use Rattle.smf_svccfg.specs.Words.{AreWords, is_blank, is_word, words_with_spaces, words};

use smf_fmri::{Items, Text};
use std::alloc::{AllocError, Global};

pub(crate) fn is_blank(b: u8) -> bool
    ensures { result ≡ is_blank b }
{
    b == b' ' || b == b'\t'
}

/// The place of the first blank, or the length if there is none.
fn blank_at(bytes: &[u8]) -> usize
    ensures { result ≡ position_or_len is_blank bytes.now }
{
    let mut at = 0;
    for b in bytes {
        if is_blank(*b) {
            return at;
        }
        at += 1;
    }
    at
}

/// The parts before the first blank and after it.
fn split_blank(text: &str) -> Option<(&str, &str)>
    ensures parts { MatchOption result (slice_split is_blank text.now ≡ text.now ∷ [])
        (λ x. slice_split is_blank text.now ≡ x.0.now ∷ slice_split is_blank x.1.now) }
    ensures shorter { IfSome result (λ x. length x.1.now < length text.now) }
{
    let at = blank_at(text.as_bytes());
    if at >= text.len() {
        return None;
    }
    Some((&text[..at], &text[at + 1..]))
}

fn put_word(all: &mut Items<Text>, alloc: Global, word: &str) -> Result<(), AllocError>
    ensures { OnOk result (all.new ≡ all.old ++ filter is_word (word.now ∷ [])) }
{
    if word.is_empty() {
        return Ok(());
    }
    all.push(Text::copy_of(alloc, word)?)
}

/// The words of a text, which stand between spaces and tabs.
pub fn words(alloc: Global, text: &str) -> Result<Items<Text>, AllocError>
    // No word is empty or has a blank.
    ensures found { IfOk result (λ all. AreWords all) }
    // Words with a space between two are read again.
    ensures again { (ws : List (List ℕ)) → AreWords ws → text.now ≡ words_with_spaces ws
        → IfOk result (λ all. all ≡ ws) }
    ensures exact { IfOk result (λ all. all ≡ words text.now) }
{
    split(alloc, text)
}

#[tactic(auto, unfolding(crate::specs::Words::words))]
fn split(alloc: Global, text: &str) -> Result<Items<Text>, AllocError>
    ensures { IfOk result (λ all. all ≡ words text.now) }
{
    let mut all = Items::new(alloc);
    let mut rest = text;
    while let Some((word, behind)) = split_blank(rest) {
        put_word(&mut all, alloc, word)?;
        rest = behind;
    }
    put_word(&mut all, alloc, rest)?;
    Ok(all)
}
