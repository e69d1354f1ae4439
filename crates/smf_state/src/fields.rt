ghost use Rattle.std.specs.Prelude.{◌≡◌, ◌≤◌, option_map, Ok, Err, IfOk};
ghost use Rattle.smf_fmri.specs.Counts.{read_count};
ghost use Rattle.smf_fmri.specs.Patterns.{read_short};
ghost use Rattle.smf_state.specs.States.{read_state, read_cause, read_duration};
ghost use Rattle.smf_state.specs.Fields.{first_field, split_field, left_of, next_field, read_optional, read_asks, read_ignore, read_flag, text_of_borrow, GivesAt, IsRead};

use crate::fault::{FieldFault, WrongField};
use crate::flags::Asks;
use crate::state::{Cause, Duration, State};
use bitflags::Flags;
use smf_fmri::{InstanceFmri, read_count};
use std::alloc::Global;

/// The first field of the rest of a line, and the rest after its space. Nothing is left after the last field.
pub fn field_at(rest: Option<&str>) -> Option<(&str, Option<&str>)>
    ensures { option_map (λ x. (x.0.now, text_of_borrow x.1)) result ≡ first_field (text_of_borrow rest.entry) }
{
    match rest {
        None => None,
        Some(text) => Some(split_field(text)),
    }
}

fn split_field(text: &str) -> (&str, Option<&str>)
    ensures { (result.0.now, text_of_borrow result.1) ≡ split_field text.now }
{
    match text.split_once(' ') {
        Some((field, after)) => (field, Some(after)),
        None => (text, None),
    }
}

/// How many bytes are left.
pub fn left_of(rest: Option<&str>) -> usize
    ensures { result ≡ left_of (text_of_borrow rest.entry) }
{
    match rest {
        None => 0,
        Some(text) => text.len(),
    }
}

fn wrong(rest: Option<&str>) -> WrongField
    ensures { result.left ≡ left_of (text_of_borrow rest.entry) }
{
    WrongField {
        left: left_of(rest),
    }
}

/// The name of an instance in the short form.
#[tactic(auto, unfolding(crate::specs::Fields::next_field))]
pub fn name_at(
    alloc: Global,
    rest: Option<&str>,
) -> Result<(InstanceFmri, Option<&str>), FieldFault>
    ensures { GivesAt result (next_field read_short (text_of_borrow rest.entry)) }
{
    let Some((field, after)) = field_at(rest) else {
        return Err(FieldFault::Left(left_of(rest)));
    };
    match InstanceFmri::read_short(alloc, field)? {
        Some(name) => Ok((name, after)),
        None => Err(FieldFault::Left(left_of(rest))),
    }
}

/// A number up to 2^64 - 1, in decimal without leading zeros.
#[tactic(auto, unfolding(crate::specs::Fields::next_field))]
pub fn number_at(rest: Option<&str>) -> Result<(u64, Option<&str>), WrongField>
    ensures { IsRead result (next_field read_count (text_of_borrow rest.entry)) }
{
    let Some((field, after)) = field_at(rest) else {
        return Err(wrong(rest));
    };
    match read_count(field) {
        Some(number) => Ok((number, after)),
        None => Err(wrong(rest)),
    }
}

#[tactic(auto, unfolding(crate::specs::Fields::next_field))]
pub fn optional_number_at(rest: Option<&str>) -> Result<(Option<u64>, Option<&str>), WrongField>
    ensures { IsRead result (next_field (read_optional read_count) (text_of_borrow rest.entry)) }
{
    let Some((field, after)) = field_at(rest) else {
        return Err(wrong(rest));
    };
    if field == "-" {
        return Ok((None, after));
    }
    match read_count(field) {
        Some(number) => Ok((Some(number), after)),
        None => Err(wrong(rest)),
    }
}

#[tactic(auto, unfolding(crate::specs::Fields::next_field))]
pub fn state_at(rest: Option<&str>) -> Result<(State, Option<&str>), WrongField>
    ensures { IsRead result (next_field read_state (text_of_borrow rest.entry)) }
{
    let Some((field, after)) = field_at(rest) else {
        return Err(wrong(rest));
    };
    match State::read(field) {
        Some(state) => Ok((state, after)),
        None => Err(wrong(rest)),
    }
}

#[tactic(auto, unfolding(crate::specs::Fields::next_field))]
pub fn optional_state_at(rest: Option<&str>) -> Result<(Option<State>, Option<&str>), WrongField>
    ensures { IsRead result (next_field (read_optional read_state) (text_of_borrow rest.entry)) }
{
    let Some((field, after)) = field_at(rest) else {
        return Err(wrong(rest));
    };
    if field == "-" {
        return Ok((None, after));
    }
    match State::read(field) {
        Some(state) => Ok((Some(state), after)),
        None => Err(wrong(rest)),
    }
}

#[tactic(auto, unfolding(crate::specs::Fields::next_field))]
pub fn cause_at(rest: Option<&str>) -> Result<(Cause, Option<&str>), WrongField>
    ensures { IsRead result (next_field read_cause (text_of_borrow rest.entry)) }
{
    let Some((field, after)) = field_at(rest) else {
        return Err(wrong(rest));
    };
    match Cause::read(field) {
        Some(cause) => Ok((cause, after)),
        None => Err(wrong(rest)),
    }
}

#[tactic(auto, unfolding(crate::specs::Fields::next_field))]
pub fn optional_cause_at(rest: Option<&str>) -> Result<(Option<Cause>, Option<&str>), WrongField>
    ensures { IsRead result (next_field (read_optional read_cause) (text_of_borrow rest.entry)) }
{
    let Some((field, after)) = field_at(rest) else {
        return Err(wrong(rest));
    };
    if field == "-" {
        return Ok((None, after));
    }
    match Cause::read(field) {
        Some(cause) => Ok((Some(cause), after)),
        None => Err(wrong(rest)),
    }
}

#[tactic(auto, unfolding(crate::specs::Fields::next_field))]
pub fn duration_at(rest: Option<&str>) -> Result<(Duration, Option<&str>), WrongField>
    ensures { IsRead result (next_field read_duration (text_of_borrow rest.entry)) }
{
    let Some((field, after)) = field_at(rest) else {
        return Err(wrong(rest));
    };
    match Duration::read(field) {
        Some(duration) => Ok((duration, after)),
        None => Err(wrong(rest)),
    }
}

/// Asks as a number up to 255.
#[tactic(auto, unfolding(crate::specs::Fields::next_field))]
pub fn asks_at(rest: Option<&str>) -> Result<(Asks, Option<&str>), WrongField>
    ensures { IsRead result (next_field read_asks (text_of_borrow rest.entry)) }
{
    let Some((field, after)) = field_at(rest) else {
        return Err(wrong(rest));
    };
    match read_count(field) {
        Some(bits) if bits < 256 => Ok((Asks::from_number(bits as u8), after)),
        _ => Err(wrong(rest)),
    }
}

/// The bits of failures left out, as a number up to 3.
#[tactic(auto, unfolding(crate::specs::Fields::next_field))]
pub fn ignore_at(rest: Option<&str>) -> Result<(u8, Option<&str>), WrongField>
    ensures read { IsRead result (next_field read_ignore (text_of_borrow rest.entry)) }
    ensures small { IfOk result (λ x. x.0 ≤ 3) }
{
    let Some((field, after)) = field_at(rest) else {
        return Err(wrong(rest));
    };
    match read_count(field) {
        Some(bits) if bits <= 3 => Ok((bits as u8, after)),
        _ => Err(wrong(rest)),
    }
}

/// A flag as 0 or 1.
#[tactic(auto, unfolding(crate::specs::Fields::next_field))]
pub fn flag_at(rest: Option<&str>) -> Result<(bool, Option<&str>), WrongField>
    ensures { IsRead result (next_field read_flag (text_of_borrow rest.entry)) }
{
    let Some((field, after)) = field_at(rest) else {
        return Err(wrong(rest));
    };
    if field == "0" {
        Ok((false, after))
    } else if field == "1" {
        Ok((true, after))
    } else {
        Err(wrong(rest))
    }
}
