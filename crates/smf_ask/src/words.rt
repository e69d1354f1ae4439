//! The first word of a line of svccfg.

ghost use Rattle.std.specs.Prelude.{◌≡◌};
ghost use Rattle.std.specs.List.{position_or_len};
ghost use Rattle.smf_ask.specs.Words.{are_blanks, is_blank, is_end, is_no_blank, rest_of, without_blanks, word_of};

fn is_blank(b: u8) -> bool
    ensures { result ≡ is_blank b }
{
    b == b' ' || b == b'\t' || b == b'\n'
}

/// The place of the first blank, or the length if there is none.
fn blank_at(text: &[u8]) -> usize
    ensures { result ≡ position_or_len is_blank text.now }
{
    let mut at = 0;
    for b in text {
        if is_blank(*b) {
            return at;
        }
        at += 1;
    }
    at
}

/// The place of the first byte that is no blank, or the length if there is none.
fn word_at(text: &[u8]) -> usize
    ensures { result ≡ position_or_len is_no_blank text.now }
{
    let mut at = 0;
    for b in text {
        if !is_blank(*b) {
            return at;
        }
        at += 1;
    }
    at
}

fn without_blanks(text: &[u8]) -> &[u8]
    ensures { result.now ≡ without_blanks text.now }
{
    let at = word_at(text);
    if at < text.len() { &text[at..] } else { &[] }
}

/// The first word of a text, and what follows it.
pub(crate) fn split_word(text: &[u8]) -> (&[u8], &[u8])
    ensures word { result.0.now ≡ word_of text.now }
    ensures rest { result.1.now ≡ rest_of text.now }
{
    let bare = without_blanks(text);
    let at = blank_at(bare);
    if at < bare.len() {
        bare.split_at(at)
    } else {
        (bare, &[])
    }
}

pub(crate) fn are_blanks(text: &[u8]) -> bool
    ensures { result ≡ are_blanks text.now }
{
    text.iter().all(|b| is_blank(*b))
}

/// True for a word that ends a session of svccfg.
pub(crate) fn is_end(word: &[u8]) -> bool
    ensures { result ≡ is_end word.now }
{
    word == b"end".as_slice() || word == b"exit".as_slice() || word == b"quit".as_slice()
}
