//! Entries read from texts, field by field from left to right.

ghost use Rattle.std.specs.Prelude.{◌≡◌, Ok, Some};
ghost use Rattle.smf_chronicle.specs.Reading.{Gives, IsEnded, command_at, end_at, entry_behind, read_entry};
ghost use Rattle.smf_chronicle.specs.Words.{read_method, read_next, read_word};
ghost use Rattle.smf_chronicle.specs.declared.word.Word.TheVariants as words;
ghost use Rattle.smf_state.specs.Fields.{IsRead, left_of, next_field, text_of_borrow};

use crate::entry::Entry;
use crate::word::{Word, read_method, read_next};
use smf_contract::Method;
use smf_method::CommandText;
use smf_state::{FieldFault, State, WrongField, field_at, left_of, name_at, number_at, state_at};
use smf_world::Item;
use std::alloc::Global;

fn wrong(rest: Option<&str>) -> WrongField
    ensures { result.left ≡ left_of (text_of_borrow rest.entry) }
{
    WrongField {
        left: left_of(rest),
    }
}

#[tactic(auto, unfolding(smf_state::specs::Fields::next_field))]
fn word_at(rest: Option<&str>) -> Result<(Word, Option<&str>), WrongField>
    ensures { IsRead result (next_field read_word (text_of_borrow rest.entry)) }
{
    let Some((field, after)) = field_at(rest) else {
        return Err(wrong(rest));
    };
    match Word::read(field) {
        Some(word) => Ok((word, after)),
        None => Err(wrong(rest)),
    }
}

#[tactic(auto, unfolding(smf_state::specs::Fields::next_field))]
fn next_at(rest: Option<&str>) -> Result<(Option<State>, Option<&str>), WrongField>
    ensures { IsRead result (next_field read_next (text_of_borrow rest.entry)) }
{
    let Some((field, after)) = field_at(rest) else {
        return Err(wrong(rest));
    };
    match read_next(field) {
        Some(next) => Ok((next, after)),
        None => Err(wrong(rest)),
    }
}

#[tactic(auto, unfolding(smf_state::specs::Fields::next_field))]
fn method_at(rest: Option<&str>) -> Result<(Method, Option<&str>), WrongField>
    ensures { IsRead result (next_field read_method (text_of_borrow rest.entry)) }
{
    let Some((field, after)) = field_at(rest) else {
        return Err(wrong(rest));
    };
    match read_method(field) {
        Some(method) => Ok((method, after)),
        None => Err(wrong(rest)),
    }
}

/// A command is all of the rest, blanks too.
fn command_at(alloc: Global, rest: Option<&str>) -> Result<CommandText, FieldFault>
    ensures { Gives result (command_at (text_of_borrow rest.entry)) }
{
    let Some(text) = rest else {
        return Err(FieldFault::Left(0));
    };
    match CommandText::copy_of(alloc, text)? {
        Some(command) => Ok(command),
        None => Err(FieldFault::Left(text.len())),
    }
}

/// Nothing stands behind the last field.
fn end_at(rest: Option<&str>) -> Result<(), WrongField>
    ensures { IsEnded result (end_at (text_of_borrow rest.entry)) }
{
    match rest {
        None => Ok(()),
        Some(_) => Err(wrong(rest)),
    }
}

#[tactic(auto, unfolding(crate::specs::Reading::entry_behind))]
fn committed_behind(rest: Option<&str>) -> Result<Entry, FieldFault>
    ensures { Gives result (entry_behind words.Committed (text_of_borrow rest.entry)) }
{
    let (instance, rest) = number_at(rest)?;
    let (number, rest) = number_at(rest)?;
    let (state, rest) = state_at(rest)?;
    let (next, rest) = next_at(rest)?;
    end_at(rest)?;
    Ok(Entry::Happened(Item::Committed {
        instance,
        number,
        state,
        next,
    }))
}

#[tactic(auto, unfolding(crate::specs::Reading::entry_behind))]
fn held_behind(alloc: Global, rest: Option<&str>) -> Result<Entry, FieldFault>
    ensures { Gives result (entry_behind words.Held (text_of_borrow rest.entry)) }
{
    let (name, rest) = name_at(alloc, rest)?;
    let (launch, rest) = number_at(rest)?;
    let (instance, rest) = number_at(rest)?;
    let (number, rest) = number_at(rest)?;
    let (state, rest) = state_at(rest)?;
    end_at(rest)?;
    Ok(Entry::Happened(Item::Held {
        name,
        launch,
        instance,
        number,
        state,
    }))
}

#[tactic(auto, unfolding(crate::specs::Reading::entry_behind))]
fn spawned_behind(alloc: Global, rest: Option<&str>) -> Result<Entry, FieldFault>
    ensures { Gives result (entry_behind words.Spawned (text_of_borrow rest.entry)) }
{
    let (contract, rest) = number_at(rest)?;
    let (instance, rest) = number_at(rest)?;
    let (run, rest) = number_at(rest)?;
    let (method, rest) = method_at(rest)?;
    let (revision, rest) = number_at(rest)?;
    let command = command_at(alloc, rest)?;
    Ok(Entry::Happened(Item::Spawned {
        contract,
        instance,
        run,
        method,
        revision,
        command,
    }))
}

#[tactic(auto, unfolding(crate::specs::Reading::entry_behind))]
fn row_behind(rest: Option<&str>) -> Result<Entry, FieldFault>
    ensures { Gives result (entry_behind words.Row (text_of_borrow rest.entry)) }
{
    let (instance, rest) = number_at(rest)?;
    let (number, rest) = number_at(rest)?;
    let (state, rest) = state_at(rest)?;
    end_at(rest)?;
    Ok(Entry::Row {
        instance,
        number,
        state,
    })
}

#[tactic(auto, unfolding(crate::specs::Reading::entry_behind))]
fn living_behind(rest: Option<&str>) -> Result<Entry, FieldFault>
    ensures { Gives result (entry_behind words.Living (text_of_borrow rest.entry)) }
{
    let (contract, rest) = number_at(rest)?;
    let (instance, rest) = number_at(rest)?;
    end_at(rest)?;
    Ok(Entry::Living { contract, instance })
}

#[tactic(auto, unfolding(crate::specs::Reading::entry_behind))]
fn emptied_behind(rest: Option<&str>) -> Result<Entry, FieldFault>
    ensures { Gives result (entry_behind words.Emptied (text_of_borrow rest.entry)) }
{
    let (contract, rest) = number_at(rest)?;
    end_at(rest)?;
    Ok(Entry::Happened(Item::Emptied(contract)))
}

#[tactic(auto, unfolding(crate::specs::Reading::entry_behind))]
fn entry_behind(alloc: Global, word: Word, rest: Option<&str>) -> Result<Entry, FieldFault>
    ensures { Gives result (entry_behind word (text_of_borrow rest.entry)) }
{
    match word {
        Word::Boot => {
            end_at(rest)?;
            Ok(Entry::Happened(Item::Boot))
        }
        Word::Committed => committed_behind(rest),
        Word::Held => held_behind(alloc, rest),
        Word::Spawned => spawned_behind(alloc, rest),
        Word::Emptied => emptied_behind(rest),
        Word::Life => {
            end_at(rest)?;
            Ok(Entry::Life)
        }
        Word::Row => row_behind(rest),
        Word::Living => living_behind(rest),
    }
}

/// The entry of a text, which has no end of a line.
#[tactic(auto, unfolding(crate::specs::Reading::read_entry))]
pub(crate) fn read_entry(alloc: Global, text: &str) -> Result<Entry, FieldFault>
    ensures { Gives result (read_entry text.now) }
{
    let (word, rest) = word_at(Some(text))?;
    entry_behind(alloc, word, rest)
}
