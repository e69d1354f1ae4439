//! The rows of a table of instances, and their order.

ghost use Rattle.std.specs.Prelude.{◌≡◌, ◌<◌, [], length, position, IfOk, IfSome, OnOk};
ghost use Rattle.smf_show.specs.Rows.{compare_at, compare_cells, compare_numbers, goes_before, is_run_by, rows_run_by, sorted_rows, with_row};

use crate::columns::{Column, cell};
use crate::row::TableRow;
use smf_fmri::InstanceFmri;
use std::alloc::{AllocError, Global};
use std::cmp::Ordering;

#[derive(Clone, Copy, PartialEq, Eq)]
pub enum Direction {
    Rising,
    Falling,
}

/// A column by which rows are put in order.
#[derive(Clone, Copy)]
pub struct SortKey {
    pub column: Column,
    pub direction: Direction,
}

fn is_run_by(restarter: &Option<InstanceFmri>, row: &TableRow) -> bool
    ensures { result ≡ is_run_by restarter.now row.now }
{
    match restarter {
        None => true,
        Some(restarter) => row.shown.restarter == *restarter,
    }
}

/// The rows of the instances that a restarter runs, or all if none is asked for.
pub(crate) fn rows_run_by(
    alloc: Global,
    restarter: &Option<InstanceFmri>,
    rows: Vec<TableRow>,
) -> Result<Vec<TableRow>, AllocError>
    ensures { IfOk result (λ kept. kept.items ≡ rows_run_by restarter.now rows.items) }
{
    let mut kept = Vec::new(alloc);
    for row in rows {
        if is_run_by(restarter, &row) {
            kept.push(row)?;
        }
    }
    Ok(kept)
}

/// Compares numbers. What is not told goes before them.
fn compare_numbers(one: Option<u64>, other: Option<u64>) -> Ordering
    ensures { result ≡ compare_numbers one other }
{
    match one {
        None => match other {
            None => Ordering::Equal,
            Some(_) => Ordering::Less,
        },
        Some(one) => match other {
            None => Ordering::Greater,
            Some(other) => one.cmp(&other),
        },
    }
}

/// Compares what stands in a column: times and numbers by their values, all else in byte order.
fn compare_cells(column: Column, one: &TableRow, other: &TableRow) -> Ordering
    ensures { result ≡ compare_cells column one.now other.now }
{
    match column {
        Column::Since => compare_numbers(one.since.value, other.since.value),
        Column::Restarts => compare_numbers(one.restarts.value, other.restarts.value),
        Column::Contract => compare_numbers(one.contract.value, other.contract.value),
        _ => cell(column, one).cmp(cell(column, other)),
    }
}

fn compare_at(key: &SortKey, one: &TableRow, other: &TableRow) -> Ordering
    ensures { result ≡ compare_at key.now one.now other.now }
{
    match key.direction {
        Direction::Rising => compare_cells(key.column, one, other),
        Direction::Falling => compare_cells(key.column, other, one),
    }
}

/// True if a row goes before another.
fn goes_before(keys: &[SortKey], one: &TableRow, other: &TableRow) -> bool
    ensures { result ≡ goes_before keys.now one.now other.now }
{
    for key in keys {
        match compare_at(key, one, other) {
            Ordering::Less => return true,
            Ordering::Equal => {}
            Ordering::Greater => return false,
        }
    }
    false
}

/// The place of the first row that a row goes before.
fn place_of(keys: &[SortKey], row: &TableRow, rows: &[TableRow]) -> Option<usize>
    ensures place { result ≡ position (goes_before keys.now row.now) rows.now }
    ensures within { IfSome result (λ place. place < length rows.now) }
{
    rows.iter().position(|other| goes_before(keys, row, other))
}

/// Puts a row before the first one that it goes before.
fn put_row(rows: &mut Vec<TableRow>, keys: &[SortKey], row: TableRow) -> Result<(), AllocError>
    ensures { OnOk result (rows.new.items ≡ with_row keys.now row rows.old.items) }
{
    match place_of(keys, &row, rows.as_slice()) {
        None => rows.push(row)?,
        Some(place) => rows.insert(place, row)?,
    }
    Ok(())
}

/// The rows in order. Rows that no key tells apart stand as they stood.
pub(crate) fn sorted_rows(
    alloc: Global,
    keys: &[SortKey],
    rows: Vec<TableRow>,
) -> Result<Vec<TableRow>, AllocError>
    ensures { IfOk result (λ sorted. sorted.items ≡ sorted_rows keys.now rows.items) }
{
    let mut sorted = Vec::new(alloc);
    for row in rows {
        put_row(&mut sorted, keys, row)?;
    }
    Ok(sorted)
}
