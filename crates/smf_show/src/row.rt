//! A row of a table: an instance, with what a chronicle tells of it.

ghost use Rattle.std.specs.Prelude.{◌≡◌, IfOk, refl, string_bytes};
ghost use Rattle.smf_fmri.specs.ByKey.{by_text};
ghost use Rattle.smf_show.specs.TableRows.{number_cell, number_text, restarts_told, row_of, since_cell, since_or_none, since_told};

use crate::dates::since_text;
use crate::past::{Dated, Standing, past_of};
use crate::shown::Shown;
use smf_fmri::{InstanceFmri, Items, Keyed, Text};
use smf_state::State;
use std::alloc::{AllocError, Global};

/// Lines of a chronicle, in the order in which they were written.
#[derive(Drop)]
pub struct DatedChronicle {
    pub lines: Items<Dated>,
    /// When they were read, in milliseconds since 1970.
    pub read_at: u64,
}

/// A number, and what a table shows of it.
#[derive(Drop)]
pub struct NumberCell {
    pub value: Option<u64>,
    pub text: Text,
}

/// An instance, with what a chronicle tells of it.
#[derive(Drop)]
pub struct TableRow {
    pub shown: Shown,
    /// When it came into its state, in milliseconds since 1970.
    pub since: NumberCell,
    /// How often it was started again.
    pub restarts: NumberCell,
    /// The start contract that lives.
    pub contract: NumberCell,
}

impl Keyed for TableRow {
    type Key = InstanceFmri;

    ghost by = { by_text (λ r. r.shown.name) };

    fn key(&self) -> &InstanceFmri {
        &self.shown.name
    }

    ghost same = { refl };
}

/// When an instance came into a state, if that is the state that was told last.
fn since_told(state: State, standing: Standing) -> Option<u64>
    ensures { result ≡ since_told state standing }
{
    match standing.state {
        None => None,
        Some(told) => { if told == state { standing.since } else { None } }
    }
}

fn restarts_told(lines: &[Dated], starts: usize) -> Option<u64>
    ensures { result ≡ restarts_told lines.now starts }
{
    if lines.is_empty() {
        None
    } else {
        Some(starts.saturating_sub(1) as u64)
    }
}

fn number_text(alloc: Global, value: Option<u64>) -> Result<String, AllocError>
    ensures { IfOk result (λ text. string_bytes text ≡ number_text value) }
{
    match value {
        None => String::from_str(alloc, "-"),
        Some(number) => format!(in alloc; "{number}"),
    }
}

fn number_cell(alloc: Global, value: Option<u64>) -> Result<NumberCell, AllocError>
    ensures { IfOk result (λ cell. cell ≡ number_cell value) }
{
    let text = Text::from_string(number_text(alloc, value)?);
    Ok(NumberCell { value, text })
}

fn since_or_none(alloc: Global, read_at: u64, value: Option<u64>) -> Result<String, AllocError>
    ensures { IfOk result (λ text. string_bytes text ≡ since_or_none read_at value) }
{
    match value {
        None => String::from_str(alloc, "-"),
        Some(time) => since_text(alloc, read_at, time),
    }
}

fn since_cell(alloc: Global, read_at: u64, value: Option<u64>) -> Result<NumberCell, AllocError>
    ensures { IfOk result (λ cell. cell ≡ since_cell read_at value) }
{
    let text = Text::from_string(since_or_none(alloc, read_at, value)?);
    Ok(NumberCell { value, text })
}

/// The row of an instance by its number.
pub(crate) fn row_of(
    alloc: Global,
    chronicle: &DatedChronicle,
    instance: u64,
    shown: Shown,
) -> Result<TableRow, AllocError>
    ensures { IfOk result (λ row. row ≡ row_of chronicle.now instance shown) }
{
    let lines = chronicle.lines.as_slice();
    let past = past_of(lines, instance);
    let since = since_told(shown.state, past.standing);
    let since = since_cell(alloc, chronicle.read_at, since)?;
    let restarts = number_cell(alloc, restarts_told(lines, past.starts))?;
    let contract = number_cell(alloc, past.contract)?;
    Ok(TableRow {
        shown,
        since,
        restarts,
        contract,
    })
}
