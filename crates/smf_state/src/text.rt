ghost use Rattle.std.specs.Prelude.{◌≡◌, ◌++◌, [], IfOk, IfSome, OnOk, Ok, Err, Some, string_bytes};
ghost use Rattle.std.specs.Fmt.{decimal};
ghost use Rattle.smf_state.specs.Fields.{GivesAt, IsRead, text_of_borrow, next_field, optional_text, flag_text};
ghost use Rattle.smf_state.specs.States.{state_text, cause_text};
ghost use Rattle.smf_state.specs.Texts.{GivesRow, IsSmall, IsFirst, IsSecond, IsThird, IsRow, IsStep, first_part, second_part, third_part, row_text, first_at, second_at, third_at, row_at, read_row, read_verb, step_text, fields_at, step_at, read_step};
ghost use Rattle.smf_state.specs.declared.row.Row.{Row as AnyRow};
ghost use Rattle.smf_state.specs.declared.step.Step.{Step as AnyStep};

use crate::fault::{FieldFault, RowFault, StepTextFault, WrongField};
use crate::fields::{
    asks_at, cause_at, duration_at, field_at, flag_at, ignore_at, left_of, name_at, number_at,
    optional_cause_at, optional_number_at, optional_state_at, state_at,
};
use crate::flags::Ignore;
use crate::row::Row;
use crate::state::{Cause, Duration, State};
use crate::step::{Step, Verb};
use smf_fmri::Text;
use std::alloc::{AllocError, Global};
use std::fmt::{self, Write};

/// The first seven fields, the others new.
#[tactic(auto, unfolding(crate::specs::Texts::first_at))]
fn first_at(alloc: Global, rest: Option<&str>) -> Result<(Row, Option<&str>), FieldFault>
    ensures { GivesAt result (first_at (text_of_borrow rest.entry)) }
{
    let (owner, rest) = name_at(alloc, rest)?;
    let (number, rest) = number_at(rest)?;
    let (state, rest) = state_at(rest)?;
    let (next, rest) = optional_state_at(rest)?;
    let (live, rest) = optional_number_at(rest)?;
    let (side, rest) = optional_number_at(rest)?;
    let (last, rest) = number_at(rest)?;
    let mut row = Row::new(owner);
    row.number = number;
    row.state = state;
    row.next = next;
    row.live = live;
    row.side = side;
    row.last = last;
    Ok((row, rest))
}

/// The next seven fields.
#[tactic(auto, unfolding(crate::specs::Texts::second_at))]
fn second_at(mut row: Row, rest: Option<&str>) -> Result<(Row, Option<&str>), WrongField>
    ensures { IsRead result (second_at row (text_of_borrow rest.entry)) }
{
    let (failed, rest) = number_at(rest)?;
    let (asks, rest) = asks_at(rest)?;
    let (cause, rest) = optional_cause_at(rest)?;
    let (duration, rest) = duration_at(rest)?;
    let (ignore, rest) = ignore_at(rest)?;
    let (base, rest) = number_at(rest)?;
    let (err, rest) = number_at(rest)?;
    row.failed = failed;
    row.asks = asks;
    row.cause = cause;
    row.duration = duration;
    row.ignore = Ignore::new(ignore);
    row.base = base;
    row.err = err;
    Ok((row, rest))
}

/// The last seven fields.
#[tactic(auto, unfolding(crate::specs::Texts::third_at))]
fn third_at(mut row: Row, rest: Option<&str>) -> Result<(Row, Option<&str>), WrongField>
    ensures { IsRead result (third_at row (text_of_borrow rest.entry)) }
{
    let (stop, rest) = number_at(rest)?;
    let (refresh, rest) = number_at(rest)?;
    let (start, rest) = number_at(rest)?;
    let (running, rest) = optional_number_at(rest)?;
    let (begun, rest) = optional_number_at(rest)?;
    let (launch, rest) = number_at(rest)?;
    let (serial, rest) = number_at(rest)?;
    row.stop = stop;
    row.refresh = refresh;
    row.start = start;
    row.running = running;
    row.begun = begun;
    row.launch = launch;
    row.serial = serial;
    Ok((row, rest))
}

/// Reads the row at the start of the rest of a line, and gives the rest after it.
#[tactic(auto, unfolding(crate::specs::Texts::row_at))]
pub fn row_at(alloc: Global, rest: Option<&str>) -> Result<(Row, Option<&str>), FieldFault>
    ensures { GivesAt result (row_at (text_of_borrow rest.entry)) }
{
    let (row, rest) = first_at(alloc, rest)?;
    let (row, rest) = second_at(row, rest)?;
    let (row, rest) = third_at(row, rest)?;
    Ok((row, rest))
}

#[tactic(auto, unfolding(crate::specs::Texts::read_row))]
fn read_row(alloc: Global, text: &str) -> Result<Row, RowFault>
    ensures { GivesRow result (read_row text.now) }
{
    match row_at(alloc, Some(text)) {
        Ok((row, None)) => Ok(row),
        Ok((_, Some(rest))) => Err(RowFault::BadRow(text.len().saturating_sub(rest.len()))),
        Err(FieldFault::Left(left)) => Err(RowFault::BadRow(text.len().saturating_sub(left))),
        Err(FieldFault::Memory) => Err(RowFault::Memory),
    }
}

impl Row {
    /// The row that a text spells: its fields with one space between, as `print` writes them.
    pub fn read(alloc: Global, text: &str) -> Result<Row, RowFault>
        // A text that is read is the text of the row.
        ensures found { IfOk result (λ row. text.now ≡ row_text row) }
        // The text of any row is read, unless memory runs out.
        ensures only { (row : AnyRow) → IsRow row → text.now ≡ row_text row → GivesRow result (Ok row) }
        // A refusal gives the place of the first wrong field.
        ensures exact { GivesRow result (read_row text.now) }
    {
        read_row(alloc, text)
    }
}

impl Row {
    /// The text of the row, which is read again.
    pub fn print(&self, alloc: Global) -> Result<Text, AllocError>
        ensures text { IfOk result (λ text. text ≡ row_text self.now) }
        ensures again { OnOk result (read_row (row_text self.now) ≡ Ok self.now) }
    {
        let mut out = String::new(alloc);
        self.print_onto(&mut out)?;
        Ok(Text::from_string(out))
    }

    /// Writes the text of the row after another.
    #[tactic(auto, unfolding(crate::specs::Texts::row_onto))]
    pub fn print_onto(&self, out: &mut String) -> Result<(), AllocError>
        ensures text { OnOk result (string_bytes out.new ≡ string_bytes out.old ++ row_text self.now) }
        ensures known { OnOk result (IsRow self.now) }
    {
        self.print_first(out)?;
        out.push_str(" ")?;
        self.print_second(out)?;
        out.push_str(" ")?;
        self.print_third(out)
    }

    fn print_first(&self, out: &mut String) -> Result<(), AllocError>
        ensures text { OnOk result (string_bytes out.new ≡ string_bytes out.old ++ first_part self.now []) }
        ensures known { OnOk result (IsFirst self.now) }
    {
        let owner = self.owner.print();
        let (number, state, last) = (self.number, self.state, self.last);
        let next = StateOrNone(self.next);
        let (live, side) = (number_or_none(self.live), number_or_none(self.side));
        write!(out, "{owner} {number} {state} {next}")?;
        write!(out, " {live} {side} {last}")
    }

    fn print_second(&self, out: &mut String) -> Result<(), AllocError>
        ensures text { OnOk result (string_bytes out.new ≡ string_bytes out.old ++ second_part self.now []) }
        ensures known { OnOk result (IsSecond self.now) }
    {
        let (failed, asks, cause) = (self.failed, self.asks.number(), CauseOrNone(self.cause));
        let (duration, ignore) = (self.duration, self.ignore.bits());
        let (base, err) = (self.base, self.err);
        write!(out, "{failed} {asks} {cause} {duration}")?;
        write!(out, " {ignore} {base} {err}")
    }

    fn print_third(&self, out: &mut String) -> Result<(), AllocError>
        ensures text { OnOk result (string_bytes out.new ≡ string_bytes out.old ++ third_part self.now []) }
        ensures known { OnOk result (IsThird self.now) }
    {
        let (stop, refresh, start) = (self.stop, self.refresh, self.start);
        let (running, begun) = (number_or_none(self.running), number_or_none(self.begun));
        let (launch, serial) = (self.launch, self.serial);
        write!(out, "{stop} {refresh} {start} {running}")?;
        write!(out, " {begun} {launch} {serial}")
    }
}

impl Verb {
    /// The verb of a word.
    pub fn read(text: &str) -> Option<Verb>
        ensures { result ≡ read_verb text.now }
    {
        if text == "move" {
            Some(Verb::Move)
        } else if text == "start" {
            Some(Verb::Start)
        } else if text == "stop" {
            Some(Verb::Stop)
        } else if text == "refresh" {
            Some(Verb::Refresh)
        } else if text == "end" {
            Some(Verb::End)
        } else if text == "note" {
            Some(Verb::Note)
        } else {
            None
        }
    }
}

#[tactic(auto, unfolding(crate::specs::Fields::next_field))]
fn verb_at(rest: Option<&str>) -> Result<(Verb, Option<&str>), WrongField>
    ensures { IsRead result (next_field read_verb (text_of_borrow rest.entry)) }
{
    let Some((field, after)) = field_at(rest) else {
        return Err(WrongField { left: 0 });
    };
    match Verb::read(field) {
        Some(verb) => Ok((verb, after)),
        None => Err(WrongField {
            left: left_of(rest),
        }),
    }
}

#[tactic(auto, unfolding(crate::specs::Texts::fields_at))]
fn fields_at(verb: Verb, rest: Option<&str>) -> Result<(Step, Option<&str>), WrongField>
    ensures { IsRead result (fields_at verb (text_of_borrow rest.entry)) }
{
    match verb {
        Verb::Move => {
            let (to, rest) = state_at(rest)?;
            Ok((Step::Move(to), rest))
        }
        Verb::Start => start_at(rest),
        Verb::Stop => {
            let (to, rest) = state_at(rest)?;
            let (cause, rest) = cause_at(rest)?;
            let (run, rest) = optional_number_at(rest)?;
            Ok((Step::Stop { to, cause, run }, rest))
        }
        Verb::Refresh => {
            let (run, rest) = optional_number_at(rest)?;
            Ok((Step::Refresh { run }, rest))
        }
        Verb::End => end_at(rest),
        Verb::Note => {
            let (bits, rest) = asks_at(rest)?;
            let (keep, rest) = flag_at(rest)?;
            Ok((Step::Note { bits, keep }, rest))
        }
    }
}

#[tactic(auto, unfolding(crate::specs::Texts::fields_at))]
fn start_at(rest: Option<&str>) -> Result<(Step, Option<&str>), WrongField>
    ensures { IsRead result (fields_at Verb.Start (text_of_borrow rest.entry)) }
{
    let (run, rest) = number_at(rest)?;
    let (snapshot, rest) = number_at(rest)?;
    let (duration, rest) = duration_at(rest)?;
    let (ignore, rest) = ignore_at(rest)?;
    let (base, rest) = number_at(rest)?;
    let step = Step::Start {
        run,
        snapshot,
        duration,
        ignore: Ignore::new(ignore),
        base,
    };
    Ok((step, rest))
}

#[tactic(auto, unfolding(crate::specs::Texts::fields_at))]
fn end_at(rest: Option<&str>) -> Result<(Step, Option<&str>), WrongField>
    ensures { IsRead result (fields_at Verb.End (text_of_borrow rest.entry)) }
{
    let (to, rest) = state_at(rest)?;
    let (keep, rest) = flag_at(rest)?;
    let (failed, rest) = number_at(rest)?;
    let (cause, rest) = cause_at(rest)?;
    let step = Step::End {
        to,
        keep,
        failed,
        cause,
    };
    Ok((step, rest))
}

/// Reads the step at the start of the rest of a line, and gives the rest after it. Takes no memory.
#[tactic(auto, unfolding(crate::specs::Texts::step_at))]
pub fn step_at(rest: Option<&str>) -> Result<(Step, Option<&str>), WrongField>
    ensures { IsRead result (step_at (text_of_borrow rest.entry)) }
{
    let (verb, rest) = verb_at(rest)?;
    fields_at(verb, rest)
}

#[tactic(auto, unfolding(crate::specs::Texts::read_step))]
fn read_step(text: &str) -> Result<Step, StepTextFault>
    ensures { result ≡ read_step text.now }
{
    match step_at(Some(text)) {
        Ok((step, None)) => Ok(step),
        Ok((_, Some(rest))) => Err(StepTextFault::BadStep(text.len().saturating_sub(rest.len()))),
        Err(wrong) => Err(StepTextFault::BadStep(text.len().saturating_sub(wrong.left))),
    }
}

/// Writes the text of a start after another.
#[tactic(auto, unfolding(crate::specs::Texts::step_onto))]
fn put_start(
    out: &mut String,
    run: u64,
    snapshot: u64,
    duration: Duration,
    ignore: Ignore,
    base: u64,
) -> Result<(), AllocError>
    ensures text { OnOk result
        (string_bytes out.new ≡ string_bytes out.old ++ step_text (Step.Start run snapshot duration ignore base)) }
    ensures known { OnOk result (IsStep (Step.Start run snapshot duration ignore base)) }
{
    let ignore = ignore.bits();
    write!(out, "start {run} {snapshot} {duration}")?;
    write!(out, " {ignore} {base}")
}

impl Step {
    /// The step that a text spells: its verb and its fields with one space between. Takes no memory.
    pub fn read(text: &str) -> Result<Step, StepTextFault>
        // A text that is read is the text of the step.
        ensures found { IfOk result (λ step. text.now ≡ step_text step) }
        // The text of any step is read.
        ensures only { (step : AnyStep) → IsStep step → text.now ≡ step_text step → result ≡ Ok step }
        // A refusal gives the place of the first wrong field.
        ensures exact { result ≡ read_step text.now }
    {
        read_step(text)
    }

    /// The text of the step, which is read again.
    pub fn print(&self, alloc: Global) -> Result<Text, AllocError>
        ensures text { IfOk result (λ text. text ≡ step_text self.now) }
        ensures again { OnOk result (read_step (step_text self.now) ≡ Ok self.now) }
    {
        let mut out = String::new(alloc);
        self.print_onto(&mut out)?;
        Ok(Text::from_string(out))
    }

    /// Writes the text of the step after another.
    #[tactic(auto, unfolding(crate::specs::Texts::step_onto))]
    pub fn print_onto(&self, out: &mut String) -> Result<(), AllocError>
        ensures text { OnOk result (string_bytes out.new ≡ string_bytes out.old ++ step_text self.now) }
        ensures known { OnOk result (IsStep self.now) }
    {
        match self {
            Step::Move(to) => write!(out, "move {to}"),
            Step::Start {
                run,
                snapshot,
                duration,
                ignore,
                base,
            } => put_start(out, *run, *snapshot, *duration, *ignore, *base),
            Step::Stop { to, cause, run } => {
                let run = number_or_none(*run);
                write!(out, "stop {to} {cause} {run}")
            }
            Step::Refresh { run } => {
                let run = number_or_none(*run);
                write!(out, "refresh {run}")
            }
            Step::End {
                to,
                keep,
                failed,
                cause,
            } => {
                let (keep, failed) = (Flag(*keep), *failed);
                write!(out, "end {to} {keep} {failed} {cause}")
            }
            Step::Note { bits, keep } => {
                let bits = bits.number();
                let keep = Flag(*keep);
                write!(out, "note {bits} {keep}")
            }
        }
    }
}

/// A number, or `-`.
#[derive(Clone, Copy)]
struct NumberOrNone(Option<u64>);

fn number_or_none(number: Option<u64>) -> NumberOrNone
    ensures same { result.0 ≡ number }
    ensures small { IfSome number IsSmall }
{
    match number {
        None => NumberOrNone(None),
        Some(number) => NumberOrNone(Some(number)),
    }
}

impl fmt::Display for NumberOrNone {
    ghost output = { λ n. Some (optional_text decimal n.0) };

    fn fmt<W: fmt::Write>(&self, f: &mut fmt::Formatter<W>) -> fmt::Result {
        match self.0 {
            None => fmt::Display::fmt("-", f),
            Some(number) => fmt::Display::fmt(&number, f),
        }
    }
}

/// A state, or `-`.
#[derive(Clone, Copy)]
struct StateOrNone(Option<State>);

impl fmt::Display for StateOrNone {
    ghost output = { λ s. Some (optional_text state_text s.0) };

    fn fmt<W: fmt::Write>(&self, f: &mut fmt::Formatter<W>) -> fmt::Result {
        match self.0 {
            None => fmt::Display::fmt("-", f),
            Some(state) => fmt::Display::fmt(&state, f),
        }
    }
}

/// A cause, or `-`.
#[derive(Clone, Copy)]
struct CauseOrNone(Option<Cause>);

impl fmt::Display for CauseOrNone {
    ghost output = { λ c. Some (optional_text cause_text c.0) };

    fn fmt<W: fmt::Write>(&self, f: &mut fmt::Formatter<W>) -> fmt::Result {
        match self.0 {
            None => fmt::Display::fmt("-", f),
            Some(cause) => fmt::Display::fmt(&cause, f),
        }
    }
}

/// A flag as 0 or 1.
#[derive(Clone, Copy)]
struct Flag(bool);

impl fmt::Display for Flag {
    ghost output = { λ b. Some (flag_text b.0) };

    fn fmt<W: fmt::Write>(&self, f: &mut fmt::Formatter<W>) -> fmt::Result {
        let text = if self.0 { "1" } else { "0" };
        fmt::Display::fmt(text, f)
    }
}
