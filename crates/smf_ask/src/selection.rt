//! What is selected at a terminal, where each line of svccfg is a request of its own.

ghost use Rattle.std.specs.Prelude.{◌≡◌, ◌++◌, [], IfOk, OnOk, codes, option_map};
ghost use Rattle.smf_fmri.specs.Name.{strip};
ghost use Rattle.smf_ask.specs.Scripts.{svccfg};
ghost use Rattle.smf_ask.specs.Selections.{above, after, after_line, asked, asks_nothing, before_instance, before_last_colon, below, entity_alone, first_of, is_bare_revert, named_by, prompt_of, request_of, second_of, short, shown, typed_of, unquoted, verb_of, with_name};

use crate::script::put_line;
use crate::words::{are_blanks, is_end, split_word};
use smf_fmri::Bytes;
use std::alloc::{AllocError, Global};

/// What stands before a full name.
const SHORT: [u8; 5] = *b"svc:/";

/// It may stand in its place.
const LONG: [u8; 16] = *b"svc://localhost/";

/// What lines have selected. Each name is empty if there is none.
#[derive(Drop)]
pub struct Selection {
    /// A service or an instance, by its full name.
    pub entity: Bytes,
    /// A snapshot of that instance.
    pub snapshot: Bytes,
}

/// What a typed line is.
#[derive(Clone, Copy)]
pub enum Typed {
    /// No line of svccfg.
    Nothing,
    /// The end of the session.
    End,
    /// A line that is asked.
    Request,
}

/// What a line does to the selection.
#[derive(Clone, Copy)]
enum Verb {
    Select,
    Unselect,
    Delete,
    SelectSnapshot,
    Revert,
    Other,
}

/// A word without its quotes.
fn unquoted(word: &[u8]) -> &[u8]
    ensures { result.now ≡ unquoted word.now }
{
    let open = match word {
        [b'"', rest @ ..] => rest,
        _ => word,
    };
    match open {
        [front @ .., b'"'] => front,
        _ => open,
    }
}

fn first_of(line: &[u8]) -> &[u8]
    ensures { result.now ≡ first_of line.now }
{
    unquoted(split_word(line).0)
}

fn second_of(line: &[u8]) -> &[u8]
    ensures { result.now ≡ second_of line.now }
{
    first_of(split_word(line).1)
}

/// The rest of a text after a prefix.
fn strip<'a>(prefix: &[u8], text: &'a [u8]) -> Option<&'a [u8]>
    ensures { option_map (λ x. x.now) result ≡ strip prefix.now text.now }
{
    text.strip_prefix(prefix)
}

/// What stands before the last colon.
#[tactic(auto, using(crate::proofs::Colons::at_colon, crate::proofs::Colons::no_colon, crate::proofs::Colons::no_byte))]
fn before_last_colon(text: &[u8]) -> Option<&[u8]>
    ensures { option_map (λ x. x.now) result ≡ before_last_colon text.now }
{
    let mut at = text.len();
    while at > 0 {
        at -= 1;
        if text[at] == b':' {
            return Some(text.split_at(at).0);
        }
    }
    None
}

/// What stands before the instance of a name, without `svc:/`.
fn before_instance(name: &[u8]) -> Option<&[u8]>
    ensures { option_map (λ x. x.now) result ≡ before_instance (strip short name.now) }
{
    match strip(SHORT.as_slice(), name) {
        Some(rest) => before_last_colon(rest),
        None => None,
    }
}

/// Two texts, one behind the other.
fn joined(alloc: Global, front: &[u8], behind: &[u8]) -> Result<Bytes, AllocError>
    ensures { IfOk result (λ b. b ≡ front.now ++ behind.now) }
{
    let mut text = front.to_vec(alloc)?;
    text.extend_from_slice(behind)?;
    Bytes::from_vec(alloc, text)
}

/// What stands above a name.
fn above(alloc: Global, name: &[u8]) -> Result<Bytes, AllocError>
    ensures { IfOk result (λ b. b ≡ above name.now) }
{
    match before_instance(name) {
        Some(service) => joined(alloc, SHORT.as_slice(), service),
        None => Bytes::new(alloc),
    }
}

/// The full name of what stands below a selected one, or below none.
fn below(alloc: Global, selected: &[u8], word: &[u8]) -> Result<Bytes, AllocError>
    ensures { IfOk result (λ b. b ≡ below selected.now word.now) }
{
    if selected.is_empty() {
        return joined(alloc, SHORT.as_slice(), word);
    }
    let mut name = selected.to_vec(alloc)?;
    name.extend_from_slice(b":")?;
    name.extend_from_slice(word)?;
    Bytes::from_vec(alloc, name)
}

/// The full name of what a word selects.
fn named_by(alloc: Global, selected: &[u8], word: &[u8]) -> Result<Bytes, AllocError>
    ensures { IfOk result (λ b. b ≡ named_by selected.now word.now) }
{
    if let Some(rest) = strip(LONG.as_slice(), word) {
        return joined(alloc, SHORT.as_slice(), rest);
    }
    match strip(SHORT.as_slice(), word) {
        Some(_) => Bytes::copy_of(alloc, word),
        None => below(alloc, selected, word),
    }
}

fn verb_of(word: &[u8]) -> Verb
    ensures { result ≡ verb_of word.now }
{
    if word == b"select".as_slice() {
        Verb::Select
    } else if word == b"unselect".as_slice() {
        Verb::Unselect
    } else if word == b"delete".as_slice() {
        Verb::Delete
    } else if word == b"selectsnap".as_slice() {
        Verb::SelectSnapshot
    } else if word == b"revert".as_slice() {
        Verb::Revert
    } else {
        Verb::Other
    }
}

/// True for a revert by its name alone.
fn is_bare_revert(line: &[u8]) -> bool
    ensures { result ≡ is_bare_revert line.now }
{
    let (word, rest) = split_word(line);
    unquoted(word) == b"revert".as_slice() && are_blanks(rest)
}

/// True for a first word of a line without words, or of a comment.
fn asks_nothing(word: &[u8]) -> bool
    ensures { result ≡ asks_nothing word.now }
{
    match word {
        [] => true,
        [first, ..] => *first == b'#',
    }
}

/// What a typed line is.
pub(crate) fn typed_of(line: &[u8]) -> Typed
    ensures { result ≡ typed_of line.now }
{
    let (word, rest) = split_word(line);
    let first = unquoted(word);
    if asks_nothing(first) {
        Typed::Nothing
    } else if is_end(first) && are_blanks(rest) {
        Typed::End
    } else {
        Typed::Request
    }
}

/// Puts a line with a name, if there is one.
fn put_name(script: &mut Vec<u8>, what: &[u8], name: &[u8]) -> Result<(), AllocError>
    ensures { OnOk result (script.new.items ≡ script.old.items ++ with_name what.now name.now) }
{
    if name.is_empty() {
        return Ok(());
    }
    put_line(script, what)?;
    script.extend_from_slice(name)?;
    script.extend_from_slice(b"\n")
}

fn shown(entity: &[u8]) -> &[u8]
    ensures { result.now ≡ shown entity.now }
{
    if entity.is_empty() { b"svc:" } else { entity }
}

impl Selection {
    /// Nothing is selected.
    pub(crate) fn nothing(alloc: Global) -> Result<Selection, AllocError>
        ensures { IfOk result (λ s. s ≡ entity_alone []) }
    {
        Ok(Selection {
            entity: Bytes::new(alloc)?,
            snapshot: Bytes::new(alloc)?,
        })
    }

    /// An entity is selected, and no snapshot of it.
    fn entity_alone(alloc: Global, entity: Bytes) -> Result<Selection, AllocError>
        ensures { IfOk result (λ s. s ≡ entity_alone entity) }
    {
        Ok(Selection {
            entity,
            snapshot: Bytes::new(alloc)?,
        })
    }

    /// The same entity, and a snapshot of it.
    fn with_snapshot(&self, alloc: Global, name: &[u8]) -> Result<Selection, AllocError>
        ensures { IfOk result (λ s. s ≡ record self.now { snapshot = name.now }) }
    {
        Ok(Selection {
            entity: self.entity.clone()?,
            snapshot: Bytes::copy_of(alloc, name)?,
        })
    }

    fn same(&self) -> Result<Selection, AllocError>
        ensures { IfOk result (λ s. s ≡ self.now) }
    {
        Ok(Selection {
            entity: self.entity.clone()?,
            snapshot: self.snapshot.clone()?,
        })
    }

    /// What stands above the entity is selected.
    fn up(&self, alloc: Global) -> Result<Selection, AllocError>
        ensures { IfOk result (λ s. s ≡ entity_alone (above self.now.entity)) }
    {
        let entity = above(alloc, self.entity.as_slice())?;
        Selection::entity_alone(alloc, entity)
    }

    /// After an entity was deleted.
    fn without(&self, alloc: Global, word: &[u8]) -> Result<Selection, AllocError>
        ensures { IfOk result (λ s. s ≡ after Verb.Delete word.now self.now) }
    {
        let deleted = named_by(alloc, self.entity.as_slice(), word)?;
        if deleted.as_slice() == self.entity.as_slice() {
            self.up(alloc)
        } else {
            self.same()
        }
    }

    fn after(&self, alloc: Global, verb: Verb, word: &[u8]) -> Result<Selection, AllocError>
        ensures { IfOk result (λ s. s ≡ after verb word.now self.now) }
    {
        match verb {
            Verb::Select => {
                let entity = named_by(alloc, self.entity.as_slice(), word)?;
                Selection::entity_alone(alloc, entity)
            }
            Verb::Unselect => self.up(alloc),
            Verb::Delete => self.without(alloc, word),
            Verb::SelectSnapshot => self.with_snapshot(alloc, word),
            Verb::Revert if word.is_empty() => self.with_snapshot(alloc, &[]),
            Verb::Revert | Verb::Other => self.same(),
        }
    }

    /// What is selected after a line that was done.
    #[tactic(auto, unfolding(crate::specs::Selections::after_line))]
    pub(crate) fn after_line(&self, alloc: Global, line: &[u8]) -> Result<Selection, AllocError>
        ensures { IfOk result (λ s. s ≡ after_line self.now line.now) }
    {
        self.after(alloc, verb_of(first_of(line)), second_of(line))
    }

    /// What stands before a line that is typed.
    pub(crate) fn prompt(&self, alloc: Global) -> Result<Bytes, AllocError>
        ensures { IfOk result (λ b. b ≡ prompt_of self.now) }
    {
        joined(alloc, shown(self.entity.as_slice()), b"> ")
    }

    /// Puts the line that is asked for a typed one.
    fn put_asked(&self, script: &mut Vec<u8>, line: &[u8]) -> Result<(), AllocError>
        ensures { OnOk result (script.new.items ≡ script.old.items ++ svccfg (asked self.now line.now ++ codes "\n")) }
    {
        let snapshot = self.snapshot.as_slice();
        if is_bare_revert(line) && !snapshot.is_empty() {
            return put_name(script, b"revert ", snapshot);
        }
        put_line(script, line)?;
        script.extend_from_slice(b"\n")
    }

    /// The script that does a typed line over what is selected.
    #[tactic(auto, unfolding(crate::specs::Selections::request_of))]
    pub(crate) fn request(&self, alloc: Global, line: &[u8]) -> Result<Vec<u8>, AllocError>
        ensures { IfOk result (λ script. script.items ≡ request_of self.now line.now) }
    {
        let mut script = Vec::new(alloc);
        put_name(&mut script, b"select ", self.entity.as_slice())?;
        put_name(&mut script, b"selectsnap ", self.snapshot.as_slice())?;
        self.put_asked(&mut script, line)?;
        Ok(script)
    }
}
