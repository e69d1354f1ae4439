//! The columns of a table of instances.

ghost use Rattle.std.specs.Prelude.{◌≡◌, length, unwrap_or, [], OnOk, string_bytes, ◌++◌};
ghost use Rattle.smf_fmri.specs.Patterns.{instance_of};
ghost use Rattle.smf_show.specs.Columns.{cell, header_word, is_word, next_sta_text, next_text, read_column, sta_text, star, starred_cell, tells_next, tells_past, tells_state, truth_text};

use crate::row::TableRow;
use smf_fmri::InstanceFmri;
use smf_state::State;
use std::alloc::AllocError;

/// A column, as svcs(1) has them.
#[derive(Clone, Copy, PartialEq, Eq)]
pub enum Column {
    Fmri,
    /// The components of the service.
    Service,
    Instance,
    State,
    /// The state in up to three letters.
    Sta,
    NextState,
    /// The next state in up to three letters.
    NextSta,
    Enabled,
    Restarter,
    /// When the instance came into its state.
    Since,
    /// How often it was started again.
    Restarts,
    /// The contract of its start.
    Contract,
}

#[tactic(auto, unfolding(crate::specs::Columns::is_word))]
fn is_word(text: &str, word: &str) -> bool
    ensures { result ≡ is_word text.now word.now }
{
    text.as_bytes().eq_ignore_ascii_case(word.as_bytes())
}

impl Column {
    /// The column of a name, in whatever case.
    pub fn parse(text: &str) -> Option<Column>
        ensures { result ≡ read_column text.now }
    {
        if is_word(text, "fmri") {
            Some(Column::Fmri)
        } else if is_word(text, "svc") {
            Some(Column::Service)
        } else if is_word(text, "inst") {
            Some(Column::Instance)
        } else if is_word(text, "state") {
            Some(Column::State)
        } else if is_word(text, "sta") {
            Some(Column::Sta)
        } else if is_word(text, "nstate") {
            Some(Column::NextState)
        } else if is_word(text, "nsta") {
            Some(Column::NextSta)
        } else if is_word(text, "enabled") {
            Some(Column::Enabled)
        } else if is_word(text, "restarter") {
            Some(Column::Restarter)
        } else if is_word(text, "stime") {
            Some(Column::Since)
        } else if is_word(text, "nrstrt") {
            Some(Column::Restarts)
        } else if is_word(text, "ctid") {
            Some(Column::Contract)
        } else {
            None
        }
    }

    /// The word above the column.
    pub fn header(self) -> &'static str
        ensures { result.now ≡ header_word self }
    {
        match self {
            Column::Fmri => "FMRI",
            Column::Service => "SVC",
            Column::Instance => "INST",
            Column::State => "STATE",
            Column::Sta => "STA",
            Column::NextState => "NSTATE",
            Column::NextSta => "NSTA",
            Column::Enabled => "ENABLED",
            Column::Restarter => "RESTARTER",
            Column::Since => "STIME",
            Column::Restarts => "NRSTRT",
            Column::Contract => "CTID",
        }
    }

    fn tells_state(self) -> bool
        ensures { result ≡ tells_state self }
    {
        matches!(self, Column::State | Column::Sta)
    }

    pub(crate) fn tells_next(self) -> bool
        ensures { result ≡ tells_next self }
    {
        matches!(self, Column::NextState | Column::NextSta)
    }

    /// True if the column has what a chronicle tells.
    pub fn tells_past(self) -> bool
        ensures { result ≡ tells_past self }
    {
        matches!(self, Column::Since | Column::Restarts | Column::Contract)
    }
}

fn sta_text(state: State) -> &'static str
    ensures { result.now ≡ sta_text state }
{
    match state {
        State::Uninitialized => "UN",
        State::Disabled => "DIS",
        State::Offline => "OFF",
        State::Online => "ON",
        State::Degraded => "DGD",
        State::Maintenance => "MNT",
    }
}

fn next_text(next: Option<State>) -> &'static str
    ensures { result.now ≡ next_text next }
{
    match next {
        None => "-",
        Some(state) => state.text(),
    }
}

fn next_sta_text(next: Option<State>) -> &'static str
    ensures { result.now ≡ next_sta_text next }
{
    match next {
        None => "-",
        Some(state) => sta_text(state),
    }
}

pub(crate) fn truth_text(truth: bool) -> &'static str
    ensures { result.now ≡ truth_text truth }
{
    if truth { "true" } else { "false" }
}

fn instance_text(name: &InstanceFmri) -> &str
    ensures { result.now ≡ unwrap_or (instance_of name.now) [] }
{
    match name.as_fmri().instance() {
        None => "",
        Some(text) => text,
    }
}

/// What stands in a column, without a star.
pub(crate) fn cell(column: Column, row: &TableRow) -> &str
    ensures { result.now ≡ cell column row.now }
{
    match column {
        Column::Fmri => row.shown.name.print(),
        Column::Service => row.shown.name.as_fmri().service(),
        Column::Instance => instance_text(&row.shown.name),
        Column::State => row.shown.state.text(),
        Column::Sta => sta_text(row.shown.state),
        Column::NextState => next_text(row.shown.next),
        Column::NextSta => next_sta_text(row.shown.next),
        Column::Enabled => truth_text(row.shown.enabled),
        Column::Restarter => row.shown.restarter.print(),
        Column::Since => row.since.text.as_str(),
        Column::Restarts => row.restarts.text.as_str(),
        Column::Contract => row.contract.text.as_str(),
    }
}

fn star(stars: bool, row: &TableRow, column: Column) -> &'static str
    ensures { result.now ≡ star stars row.now column }
{
    if stars && column.tells_state() && row.shown.next.is_some() {
        "*"
    } else {
        ""
    }
}

pub(crate) fn cell_len(stars: bool, row: &TableRow, column: Column) -> usize
    ensures { result ≡ length (starred_cell stars row.now column) }
{
    let text = cell(column, row);
    let star = star(stars, row, column);
    text.len() + star.len()
}

pub(crate) fn put_cell(
    out: &mut String,
    stars: bool,
    row: &TableRow,
    column: Column,
) -> Result<(), AllocError>
    ensures { OnOk result (string_bytes out.new ≡ string_bytes out.old ++ starred_cell stars row.now column) }
{
    out.push_str(cell(column, row))?;
    out.push_str(star(stars, row, column))
}
