ghost use Rattle.std.specs.Prelude.{◌≡◌, ◌<◌, ◌++◌, ◌∷◌, [], IfOk, List, Ok, OnOk};
ghost use Rattle.std.specs.Str.{IsUtf8};
ghost use Rattle.smf_svccfg.specs.declared.token.Place.TheVariants as places;
ghost use Rattle.smf_svccfg.specs.declared.token.Token.{Token as AnyToken};
ghost use Rattle.smf_svccfg.specs.declared.token.Token.TheVariants as tokens;
ghost use Rattle.smf_svccfg.specs.Tokens.{AreTokens, Gives, Leaves, behind_bare, behind_quoted, step_outside_word, tokens_at_end, is_bound, is_mark, reader_at, next_reading, stepped_at, tokens_of, text_of_tokens};

use crate::fault::LineFault;
use crate::line_words::is_blank;
use smf_fmri::{Items, Text};
use std::alloc::{AllocError, Global};
use std::marker::Model;
use std::str;

/// A part of a line.
#[derive(Drop)]
pub enum Token {
    /// `(`
    Open,
    /// `)`
    Close,
    Bare(Text),
    /// The text between quotes.
    Quoted(Text),
}

/// The place of a reader of tokens.
#[derive(Clone, Copy)]
enum Place {
    /// Outside words: a word may begin.
    Between,
    Bare,
    /// In a quoted word, whose opening quote stands at this place.
    Quoted(usize),
    /// After a backslash in such a word.
    Escaped { opening: usize, escape: usize },
    /// After a closing quote.
    Closed,
}

/// A reader of tokens, byte by byte.
#[derive(Drop)]
struct Reader {
    alloc: Global,
    place: Place,
    /// The bytes read so far of a word that has begun.
    word: Vec<u8>,
    tokens: Items<Token>,
}

impl Model for Reader {
    ghost use Rattle.smf_svccfg.specs.Tokens.{Reading, reader_at};

    ghost Value = { Reading };

    ghost view = { λ r. reader_at r.place r.word.items r.tokens };
}

fn is_bound(b: u8) -> bool
    ensures { result ≡ is_bound b }
{
    is_blank(b) || b == b'(' || b == b')'
}

pub(crate) fn is_mark(b: u8) -> bool
    ensures { result ≡ is_mark b }
{
    b == b'"' || b == b'\\'
}

/// The text that bytes are.
fn text_of(alloc: Global, bytes: &[u8]) -> Result<Text, AllocError>
    requires { IsUtf8 bytes.now }
    ensures { IfOk result (λ text. text ≡ bytes.now) }
{
    match str::from_utf8(bytes) {
        Ok(text) => Text::copy_of(alloc, text),
        Err(_) => unreachable!(),
    }
}

impl Reader {
    fn new(alloc: Global) -> Reader
        ensures { result ≡ reader_at places.Between [] [] }
    {
        Reader {
            alloc,
            place: Place::Between,
            word: Vec::new(alloc),
            tokens: Items::new(alloc),
        }
    }

    /// Takes the word that was read.
    fn take_word(&mut self) -> Result<Text, AllocError>
        requires { IsUtf8 self.old.word }
        ensures word { IfOk result (λ text. text ≡ self.old.word) }
        ensures left { OnOk result (self.new ≡ reader_at self.old.place [] self.old.tokens) }
    {
        let text = text_of(self.alloc, self.word.as_slice())?;
        self.word.clear();
        Ok(text)
    }

    fn push_token(&mut self, place: Place, token: Token) -> Result<(), LineFault>
        ensures { Leaves result (Ok (reader_at place self.old.word (self.old.tokens ++ token ∷ []))) self.new }
    {
        self.tokens.push(token)?;
        self.place = place;
        Ok(())
    }

    fn push_byte(&mut self, place: Place, b: u8) -> Result<(), LineFault>
        ensures { Leaves result (Ok (reader_at place (self.old.word ++ b ∷ []) self.old.tokens)) self.new }
    {
        self.word.push(b)?;
        self.place = place;
        Ok(())
    }

    /// Ends a bare word.
    fn end_bare(&mut self) -> Result<(), LineFault>
        requires { IsUtf8 self.old.word }
        ensures { Leaves result (Ok (behind_bare self.old.word self.old.tokens)) self.new }
    {
        let word = self.take_word()?;
        self.push_token(Place::Between, Token::Bare(word))
    }

    /// Ends a quoted word.
    fn end_quoted(&mut self) -> Result<(), LineFault>
        requires { IsUtf8 self.old.word }
        ensures { Leaves result (Ok (behind_quoted self.old.word self.old.tokens)) self.new }
    {
        let word = self.take_word()?;
        self.push_token(Place::Closed, Token::Quoted(word))
    }

    /// Takes a byte outside a word.
    fn begin(&mut self, at: usize, b: u8) -> Result<(), LineFault>
        ensures { Leaves result (step_outside_word at b self.old.word self.old.tokens) self.new }
    {
        if is_blank(b) {
            self.place = Place::Between;
            return Ok(());
        }
        match b {
            b'(' => self.push_token(Place::Between, Token::Open),
            b')' => self.push_token(Place::Between, Token::Close),
            b'"' => {
                self.place = Place::Quoted(at);
                Ok(())
            }
            b'\\' => Err(LineFault::Quote(at)),
            _ => self.push_byte(Place::Bare, b),
        }
    }

    /// Takes a byte after a bare word that has begun.
    fn step_bare(&mut self, at: usize, b: u8) -> Result<(), LineFault>
        requires { b < 128 → IsUtf8 self.old.word }
        ensures { Leaves result (stepped_at places.Bare at b self.old.word self.old.tokens) self.new }
    {
        if is_bound(b) {
            self.end_bare()?;
            return self.begin(at, b);
        }
        if is_mark(b) {
            return Err(LineFault::Quote(at));
        }
        self.push_byte(Place::Bare, b)
    }

    /// Takes a byte of a quoted word, or its closing quote.
    fn step_quoted(&mut self, opening: usize, at: usize, b: u8) -> Result<(), LineFault>
        requires { b < 128 → IsUtf8 self.old.word }
        ensures { Leaves result (stepped_at (places.Quoted opening) at b self.old.word self.old.tokens) self.new }
    {
        if b == b'"' {
            return self.end_quoted();
        }
        if b == b'\\' {
            self.place = Place::Escaped {
                opening,
                escape: at,
            };
            return Ok(());
        }
        self.push_byte(Place::Quoted(opening), b)
    }

    /// Takes a byte after a backslash in a quoted word.
    fn step_escaped(&mut self, opening: usize, back: usize, b: u8) -> Result<(), LineFault>
        ensures { Leaves result (stepped_at (places.Escaped opening back) 0 b self.old.word self.old.tokens) self.new }
    {
        if is_mark(b) {
            return self.push_byte(Place::Quoted(opening), b);
        }
        Err(LineFault::Quote(back))
    }

    /// Takes a byte after a closing quote.
    fn step_closed(&mut self, at: usize, b: u8) -> Result<(), LineFault>
        ensures { Leaves result (stepped_at places.Closed at b self.old.word self.old.tokens) self.new }
    {
        if is_bound(b) {
            return self.begin(at, b);
        }
        Err(LineFault::Quote(at))
    }

    /// Takes the byte at a place of the line.
    fn step(&mut self, at: usize, b: u8) -> Result<(), LineFault>
        requires { b < 128 → IsUtf8 self.old.word }
        ensures { Leaves result (next_reading self.old at b) self.new }
    {
        match self.place {
            Place::Between => self.begin(at, b),
            Place::Bare => self.step_bare(at, b),
            Place::Quoted(opening) => self.step_quoted(opening, at, b),
            Place::Escaped { opening, escape } => self.step_escaped(opening, escape, b),
            Place::Closed => self.step_closed(at, b),
        }
    }

    /// The tokens, at the line's end.
    fn finish(self) -> Result<Items<Token>, LineFault>
        requires { IsUtf8 self.word }
        ensures { Gives result (tokens_at_end self) }
    {
        let mut reader = self;
        match reader.place {
            Place::Between => Ok(reader.tokens),
            Place::Bare => {
                reader.end_bare()?;
                Ok(reader.tokens)
            }
            Place::Quoted(opening) => Err(LineFault::Quote(opening)),
            Place::Escaped { opening, .. } => Err(LineFault::Quote(opening)),
            Place::Closed => Ok(reader.tokens),
        }
    }
}

/// The tokens of a line.
pub fn tokens(alloc: Global, line: &str) -> Result<Items<Token>, LineFault>
    // Tokens that are written are read again.
    ensures again { (ts : List AnyToken) → AreTokens ts → line.now ≡ text_of_tokens ts → Gives result (Ok ts) }
    ensures exact { Gives result (tokens_of line.now) }
{
    read_tokens(alloc, line)
}

fn read_tokens(alloc: Global, line: &str) -> Result<Items<Token>, LineFault>
    ensures { Gives result (tokens_of line.now) }
{
    let mut reader = Reader::new(alloc);
    let mut at = 0;
    for b in line.as_bytes() {
        reader.step(at, *b)?;
        at += 1;
    }
    reader.finish()
}
