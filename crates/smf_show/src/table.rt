//! Tables of instances.

ghost use Rattle.std.specs.List.{flat_map, list_any};
ghost use Rattle.std.specs.Prelude.{◌≡◌, ◌++◌, length, IfOk, OnOk, string_bytes};
ghost use Rattle.smf_show.specs.Columns.{header_word, starred_cell, tells_next};
ghost use Rattle.smf_show.specs.Tables.{first_width, has_stars, header_line, later_cells, line_of, lines_at, place_of, places_of, row_line, rows_of, table_of, table_text, width_of};

use crate::columns::{Column, cell_len, put_cell};
use crate::row::TableRow;
use crate::rows::{SortKey, rows_run_by, sorted_rows};
use smf_admin::put_blanks;
use smf_fmri::{InstanceFmri, Items, Ordered, Text};
use std::alloc::{AllocError, Global};

/// A column with the length of the longest cell in it.
#[derive(Clone, Copy)]
struct Place {
    column: Column,
    width: usize,
}

/// What a table shows of instances, and in which order.
#[derive(Drop)]
pub struct TableOptions {
    pub columns: Items<Column>,
    /// The first key counts most. Rows that no key tells apart stand in the byte order of their names.
    pub keys: Items<SortKey>,
    pub header: bool,
    /// If it is there, only the instances that it runs are shown.
    pub restarter: Option<InstanceFmri>,
}

// ---- how wide the columns are

fn first_width(header: bool, column: Column) -> usize
    ensures { result ≡ first_width header column }
{
    if header { column.header().len() } else { 0 }
}

fn width_of(stars: bool, header: bool, rows: &[TableRow], column: Column) -> usize
    ensures { result ≡ width_of stars header rows.now column }
{
    let mut width = first_width(header, column);
    for row in rows {
        width = width.max(cell_len(stars, row, column));
    }
    width
}

fn place_of(stars: bool, header: bool, rows: &[TableRow], column: Column) -> Place
    ensures { result ≡ place_of stars header rows.now column }
{
    Place {
        column,
        width: width_of(stars, header, rows, column),
    }
}

fn places_of(
    alloc: Global,
    stars: bool,
    header: bool,
    columns: &[Column],
    rows: &[TableRow],
) -> Result<Vec<Place>, AllocError>
    ensures { IfOk result (λ places. places.items ≡ places_of stars header columns.now rows.now) }
{
    let mut places = Vec::new(alloc);
    for column in columns {
        places.push(place_of(stars, header, rows, *column))?;
    }
    Ok(places)
}

// ---- lines

/// Puts the cells of a row after the first one, which is so many blanks short.
fn put_later_cells(
    out: &mut String,
    stars: bool,
    row: &TableRow,
    short: usize,
    places: &[Place],
) -> Result<(), AllocError>
    ensures { OnOk result
        (string_bytes out.new ≡ string_bytes out.old ++ later_cells (starred_cell stars row.now) short places.now) }
{
    let mut due = short;
    for place in places {
        put_blanks(out, due)?;
        out.push(' ')?;
        put_cell(out, stars, row, place.column)?;
        due = place
            .width
            .saturating_sub(cell_len(stars, row, place.column));
    }
    Ok(())
}

fn put_row_line(
    out: &mut String,
    stars: bool,
    places: &[Place],
    row: &TableRow,
) -> Result<(), AllocError>
    ensures { OnOk result (string_bytes out.new ≡ string_bytes out.old ++ row_line stars places.now row.now) }
{
    let [first, later @ ..] = places else {
        return out.push('\n');
    };
    put_cell(out, stars, row, first.column)?;
    let short = first
        .width
        .saturating_sub(cell_len(stars, row, first.column));
    put_later_cells(out, stars, row, short, later)?;
    out.push('\n')
}

/// Puts the words above the columns after the first one, which is so many blanks short.
fn put_later_headers(out: &mut String, short: usize, places: &[Place]) -> Result<(), AllocError>
    ensures { OnOk result
        (string_bytes out.new ≡ string_bytes out.old ++ later_cells header_word short places.now) }
{
    let mut due = short;
    for place in places {
        put_blanks(out, due)?;
        out.push(' ')?;
        let word = place.column.header();
        out.push_str(word)?;
        due = place.width.saturating_sub(word.len());
    }
    Ok(())
}

fn put_header_line(out: &mut String, places: &[Place]) -> Result<(), AllocError>
    ensures { OnOk result (string_bytes out.new ≡ string_bytes out.old ++ line_of header_word places.now) }
{
    let [first, later @ ..] = places else {
        return out.push('\n');
    };
    let word = first.column.header();
    out.push_str(word)?;
    put_later_headers(out, first.width.saturating_sub(word.len()), later)?;
    out.push('\n')
}

fn put_header(out: &mut String, header: bool, places: &[Place]) -> Result<(), AllocError>
    ensures { OnOk result (string_bytes out.new ≡ string_bytes out.old ++ header_line header places.now) }
{
    if header {
        put_header_line(out, places)?;
    }
    Ok(())
}

fn put_rows(
    out: &mut String,
    stars: bool,
    places: &[Place],
    rows: &[TableRow],
) -> Result<(), AllocError>
    ensures { OnOk result
        (string_bytes out.new ≡ string_bytes out.old ++ flat_map (row_line stars places.now) rows.now) }
{
    for row in rows {
        put_row_line(out, stars, places, row)?;
    }
    Ok(())
}

// ---- the table

fn has_next_column(columns: &[Column]) -> bool
    ensures { result ≡ list_any tells_next columns.now }
{
    columns.iter().any(|column| column.tells_next())
}

fn table_of(
    alloc: Global,
    stars: bool,
    header: bool,
    columns: &[Column],
    rows: &[TableRow],
) -> Result<Text, AllocError>
    ensures { IfOk result (λ text. text ≡ table_of stars header columns.now rows.now) }
{
    let places = places_of(alloc, stars, header, columns, rows)?;
    let mut out = String::new(alloc);
    put_header(&mut out, header, places.as_slice())?;
    put_rows(&mut out, stars, places.as_slice(), rows)?;
    Ok(Text::from_string(out))
}

/// The rows that options ask for, in order.
fn rows_of(
    alloc: Global,
    options: &TableOptions,
    all: Vec<TableRow>,
) -> Result<Vec<TableRow>, AllocError>
    ensures { IfOk result (λ rows. rows.items ≡ rows_of options.now all.items) }
{
    let rows = rows_run_by(alloc, &options.restarter, all)?;
    sorted_rows(alloc, options.keys.as_slice(), rows)
}

/// A table of instances, which are given in the byte order of their names.
#[tactic(auto, unfolding(crate::specs::Tables::table_text))]
pub fn table_text(
    alloc: Global,
    options: &TableOptions,
    all: Ordered<TableRow>,
) -> Result<Text, AllocError>
    ensures { IfOk result (λ text. text ≡ table_text options.now all) }
{
    let rows = rows_of(alloc, options, all.into_vec())?;
    let columns = options.columns.as_slice();
    let stars = !has_next_column(columns);
    table_of(alloc, stars, options.header, columns, rows.as_slice())
}
