//! Answers read from texts, field by field from left to right.

ghost use Rattle.std.specs.Prelude.{◌≡◌, Ok, Some, option_map};
ghost use Rattle.smf_record.specs.Answers.{seen};
ghost use Rattle.smf_record.specs.Digits.{read_hex};
ghost use Rattle.smf_record.specs.Reading.{Gives, IsEnded, answer_behind, end_at, read_answer};
ghost use Rattle.smf_record.specs.Words.{read_end, read_end_answer, read_nanoseconds, read_start_end, read_word};
ghost use Rattle.smf_record.specs.declared.word.Word.TheVariants as words;
ghost use Rattle.smf_state.specs.Fields.{IsRead, left_of, next_field, text_of_borrow};

use crate::answer::{Answer, EndAnswer, Moment, StartAnswer, StartEnd};
use crate::digits::read_hex;
use crate::word::{Word, read_end, read_end_answer, read_nanoseconds, read_start_end, read_word};
use smf_edge::FirstEnd;
use smf_state::{FieldFault, WrongField, field_at, flag_at, left_of, number_at};
use std::alloc::Global;

fn wrong(rest: Option<&str>) -> WrongField
    ensures { result.left ≡ left_of (text_of_borrow rest.entry) }
{
    WrongField {
        left: left_of(rest),
    }
}

#[tactic(auto, unfolding(smf_state::specs::Fields::next_field))]
fn word_at(rest: Option<&str>) -> Result<(Word, Option<&str>), WrongField>
    ensures { IsRead result (next_field read_word (text_of_borrow rest.entry)) }
{
    let Some((field, after)) = field_at(rest) else {
        return Err(wrong(rest));
    };
    match read_word(field) {
        Some(value) => Ok((value, after)),
        None => Err(wrong(rest)),
    }
}

#[tactic(auto, unfolding(smf_state::specs::Fields::next_field))]
fn nanoseconds_at(rest: Option<&str>) -> Result<(u32, Option<&str>), WrongField>
    ensures { IsRead result (next_field read_nanoseconds (text_of_borrow rest.entry)) }
{
    let Some((field, after)) = field_at(rest) else {
        return Err(wrong(rest));
    };
    match read_nanoseconds(field) {
        Some(value) => Ok((value, after)),
        None => Err(wrong(rest)),
    }
}

#[tactic(auto, unfolding(smf_state::specs::Fields::next_field))]
fn start_end_at(rest: Option<&str>) -> Result<(StartEnd, Option<&str>), WrongField>
    ensures { IsRead result (next_field read_start_end (text_of_borrow rest.entry)) }
{
    let Some((field, after)) = field_at(rest) else {
        return Err(wrong(rest));
    };
    match read_start_end(field) {
        Some(value) => Ok((value, after)),
        None => Err(wrong(rest)),
    }
}

#[tactic(auto, unfolding(smf_state::specs::Fields::next_field))]
fn first_end_at(rest: Option<&str>) -> Result<(FirstEnd, Option<&str>), WrongField>
    ensures { IsRead result (next_field read_end (text_of_borrow rest.entry)) }
{
    let Some((field, after)) = field_at(rest) else {
        return Err(wrong(rest));
    };
    match read_end(field) {
        Some(value) => Ok((value, after)),
        None => Err(wrong(rest)),
    }
}

#[tactic(auto, unfolding(smf_state::specs::Fields::next_field))]
fn end_answer_at(rest: Option<&str>) -> Result<(EndAnswer, Option<&str>), WrongField>
    ensures { IsRead result (next_field read_end_answer (text_of_borrow rest.entry)) }
{
    let Some((field, after)) = field_at(rest) else {
        return Err(wrong(rest));
    };
    match read_end_answer(field) {
        Some(value) => Ok((value, after)),
        None => Err(wrong(rest)),
    }
}

/// The lines of a request.
#[tactic(auto, unfolding(smf_state::specs::Fields::next_field))]
fn lines_at(alloc: Global, rest: Option<&str>) -> Result<(Vec<u8>, Option<&str>), FieldFault>
    ensures { Gives (λ x. (x.0.items, text_of_borrow x.1)) result (next_field read_hex (text_of_borrow rest.entry)) }
{
    let Some((field, after)) = field_at(rest) else {
        return Err(FieldFault::Left(left_of(rest)));
    };
    match read_hex(alloc, field)? {
        Some(lines) => Ok((lines, after)),
        None => Err(FieldFault::Left(left_of(rest))),
    }
}

/// Nothing stands behind the last field.
fn end_at(rest: Option<&str>) -> Result<(), WrongField>
    ensures { IsEnded result (end_at (text_of_borrow rest.entry)) }
{
    match rest {
        None => Ok(()),
        Some(_) => Err(wrong(rest)),
    }
}

#[tactic(auto, unfolding(crate::specs::Reading::answer_behind))]
fn request_behind(alloc: Global, rest: Option<&str>) -> Result<Answer<Vec<u8>>, FieldFault>
    ensures { Gives (seen (λ lines. lines.items)) result (answer_behind words.Request (text_of_borrow rest.entry)) }
{
    let (lines, rest) = lines_at(alloc, rest)?;
    end_at(rest)?;
    Ok(Answer::Request(lines))
}

#[tactic(auto, unfolding(crate::specs::Reading::answer_behind))]
fn replied_behind(rest: Option<&str>) -> Result<Answer<Vec<u8>>, FieldFault>
    ensures { Gives (seen (λ lines. lines.items)) result (answer_behind words.Replied (text_of_borrow rest.entry)) }
{
    let (written, rest) = flag_at(rest)?;
    end_at(rest)?;
    Ok(Answer::Replied(written))
}

#[tactic(auto, unfolding(crate::specs::Reading::answer_behind))]
fn time_behind(rest: Option<&str>) -> Result<Answer<Vec<u8>>, FieldFault>
    ensures { Gives (seen (λ lines. lines.items)) result (answer_behind words.Time (text_of_borrow rest.entry)) }
{
    let (seconds, rest) = number_at(rest)?;
    let (nanoseconds, rest) = nanoseconds_at(rest)?;
    end_at(rest)?;
    Ok(Answer::Time(Moment {
        seconds,
        nanoseconds,
    }))
}

#[tactic(auto, unfolding(crate::specs::Reading::answer_behind))]
fn start_behind(rest: Option<&str>) -> Result<Answer<Vec<u8>>, FieldFault>
    ensures { Gives (seen (λ lines. lines.items)) result (answer_behind words.Start (text_of_borrow rest.entry)) }
{
    let (contract, rest) = number_at(rest)?;
    let (cookie, rest) = number_at(rest)?;
    let (end, rest) = start_end_at(rest)?;
    end_at(rest)?;
    Ok(Answer::Start(StartAnswer {
        contract,
        cookie,
        end,
    }))
}

#[tactic(auto, unfolding(crate::specs::Reading::answer_behind))]
fn runs_behind(rest: Option<&str>) -> Result<Answer<Vec<u8>>, FieldFault>
    ensures { Gives (seen (λ lines. lines.items)) result (answer_behind words.Runs (text_of_borrow rest.entry)) }
{
    let (count, rest) = number_at(rest)?;
    end_at(rest)?;
    Ok(Answer::Runs(count))
}

#[tactic(auto, unfolding(crate::specs::Reading::answer_behind))]
fn left_behind(rest: Option<&str>) -> Result<Answer<Vec<u8>>, FieldFault>
    ensures { Gives (seen (λ lines. lines.items)) result (answer_behind words.Left (text_of_borrow rest.entry)) }
{
    let (end, rest) = first_end_at(rest)?;
    end_at(rest)?;
    Ok(Answer::Left(end))
}

#[tactic(auto, unfolding(crate::specs::Reading::answer_behind))]
fn gone_behind(rest: Option<&str>) -> Result<Answer<Vec<u8>>, FieldFault>
    ensures { Gives (seen (λ lines. lines.items)) result (answer_behind words.Gone (text_of_borrow rest.entry)) }
{
    let (end, rest) = first_end_at(rest)?;
    end_at(rest)?;
    Ok(Answer::Gone(end))
}

#[tactic(auto, unfolding(crate::specs::Reading::answer_behind))]
fn ends_behind(rest: Option<&str>) -> Result<Answer<Vec<u8>>, FieldFault>
    ensures { Gives (seen (λ lines. lines.items)) result (answer_behind words.Ends (text_of_borrow rest.entry)) }
{
    let (end, rest) = end_answer_at(rest)?;
    end_at(rest)?;
    Ok(Answer::Ends(end))
}

#[tactic(auto, unfolding(crate::specs::Reading::answer_behind))]
fn answer_behind(
    alloc: Global,
    word: Word,
    rest: Option<&str>,
) -> Result<Answer<Vec<u8>>, FieldFault>
    ensures { Gives (seen (λ lines. lines.items)) result (answer_behind word (text_of_borrow rest.entry)) }
{
    match word {
        Word::Tick => {
            end_at(rest)?;
            Ok(Answer::Tick)
        }
        Word::Request => request_behind(alloc, rest),
        Word::End => {
            end_at(rest)?;
            Ok(Answer::End)
        }
        Word::Leave => {
            end_at(rest)?;
            Ok(Answer::Leave)
        }
        Word::Replied => replied_behind(rest),
        Word::Time => time_behind(rest),
        Word::Start => start_behind(rest),
        Word::Runs => runs_behind(rest),
        Word::Left => left_behind(rest),
        Word::Gone => gone_behind(rest),
        Word::Lost => {
            end_at(rest)?;
            Ok(Answer::Lost)
        }
        Word::Ends => ends_behind(rest),
    }
}

/// The answer of a text, which has no end of a line. A fault says how many bytes stand from the start of the wrong field on.
#[tactic(auto, unfolding(crate::specs::Reading::read_answer))]
pub fn read_answer(alloc: Global, text: &str) -> Result<Answer<Vec<u8>>, FieldFault>
    ensures { Gives (seen (λ lines. lines.items)) result (read_answer text.now) }
{
    let (word, rest) = word_at(Some(text))?;
    answer_behind(alloc, word, rest)
}
