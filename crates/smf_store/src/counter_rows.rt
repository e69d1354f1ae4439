ghost use Rattle.std.specs.Ordering.{int_eq};
ghost use Rattle.std.specs.Prelude.{◌≡◌, pos, false, codes, IfOk, IfSome, IsTrue};
ghost use Rattle.std.specs.List.{list_all};
ghost use Rattle.sqlite.specs.declared.types.Value.TheVariants.{Text};
ghost use Rattle.sqlite.specs.Order.{Row as AnyRow, column};
ghost use Rattle.sqlite_rules.specs.Lists.{Has};
ghost use Rattle.smf_store.specs.CounterRows.{AreCounters, Finds, HasLayout, IsKnown, LooksAt, number_of_version};
ghost use Rattle.smf_store.specs.Begun.{empty_with_counters};
ghost use Rattle.smf_store.specs.RowValues.{text_in};
ghost use Rattle.smf_store.specs.Judged.{counters_said, has_layout, has_text, is_known, is_within, look, may_stand, number_of, number_said, value_of, version_said};

use crate::cells::{integer_at, text_at};
use crate::refusal::{OpenFault, StoreTable};
use smf_fmri::{Items, Number};
use smf_model::{Change, Tables};
use sqlite::Row;
use std::alloc::{AllocError, Global};

/// The versions of a store that are read here. Only the second has a layout, and is written.
#[derive(Clone, Copy, PartialEq, Eq)]
pub(crate) enum StoreVersion {
    First,
    Second,
}

/// The counters of a store, its version and its layout aside.
#[derive(Clone, Copy)]
pub(crate) struct Counters {
    pub(crate) revision: Number,
    pub(crate) next_instance: Number,
    pub(crate) next_snapshot: Number,
}

/// The greatest number that may come next for an instance.
pub(crate) const MAX_NEXT_INSTANCE: u64 = 0x100_0000;

/// True if a row has a key.
fn has_key(row: &Row, key: &str) -> bool
    ensures exact { result ≡ has_text key.now (text_in (column row.now 1)) }
    ensures same { IsTrue result → column row.now 1 ≡ Text key.now }
    ensures other { result ≡ false → column row.now 1 ≡ Text key.now → ⊥ }
{
    let Some(text) = text_at(row, 1) else {
        return false;
    };
    text == key
}

/// The value found of a key, with one row more.
#[tactic(auto, unfolding(crate::specs::Judged::look))]
fn look_at(row: &Row, key: &str, found: Option<i64>) -> Option<Option<i64>>
    ensures exact { result ≡ look key.now found row.now }
    ensures looks { IfSome result (λ new. LooksAt key.now row.now found new) }
{
    if !has_key(row, key) {
        return Some(found);
    }
    let Some(value) = integer_at(row, 2) else {
        return None;
    };
    match found {
        None => Some(Some(value)),
        Some(_) => None,
    }
}

/// The value of a key that one row has.
#[tactic(auto, unfolding(crate::specs::Judged::value_of))]
fn value_of(rows: &[Row], key: &str) -> Option<i64>
    ensures exact { result ≡ value_of key.now rows.now }
    ensures found { IfSome result (λ v. Finds key.now v rows.now) }
{
    let mut found: Option<i64> = None;
    for row in rows {
        let Some(more) = look_at(row, key, found) else {
            return None;
        };
        found = more;
    }
    found
}

fn number_of(value: i64) -> Option<Number>
    ensures exact { result ≡ number_of value }
    ensures same { IfSome result (λ n. value ≡ pos n) }
{
    if value < 0 {
        return None;
    }
    Number::new(value as u64)
}

/// The number of a key.
#[tactic(auto, unfolding(crate::specs::Judged::number_said))]
fn number_said(rows: &[Row], key: &str) -> Option<Number>
    ensures exact { result ≡ number_said key.now rows.now }
    ensures found { IfSome result (λ n. Finds key.now (pos n) rows.now) }
{
    let Some(value) = value_of(rows, key) else {
        return None;
    };
    number_of(value)
}

fn is_same(value: i64, other: i64) -> bool
    ensures exact { result ≡ int_eq value other }
    ensures same { IsTrue result → value ≡ other }
{
    value == other
}

/// The version that the rows show.
#[tactic(auto, unfolding(crate::specs::Judged::version_said))]
pub(crate) fn version_said(rows: &[Row]) -> Result<StoreVersion, OpenFault>
    ensures exact { result ≡ version_said rows.now }
    ensures found { IfOk result (λ version. Finds (codes "version") (pos (number_of_version version)) rows.now) }
{
    let Some(version) = value_of(rows, "version") else {
        return Err(OpenFault::Damaged(StoreTable::Meta));
    };
    if is_same(version, 2) {
        return Ok(StoreVersion::Second);
    }
    if is_same(version, 1) {
        return Ok(StoreVersion::First);
    }
    Err(OpenFault::Version(version))
}

/// True if a key may stand in a store of this version.
fn may_stand(version: StoreVersion, text: &str) -> bool
    ensures { result ≡ may_stand version text.now }
{
    match version {
        StoreVersion::First => text != "layout",
        StoreVersion::Second => true,
    }
}

/// True if the key of a row is a text and may stand there.
#[tactic(auto, unfolding(crate::specs::Judged::is_known))]
fn is_known(version: StoreVersion, row: &Row) -> bool
    ensures { result ≡ is_known version row.now }
{
    match text_at(row, 1) {
        None => false,
        Some(text) => may_stand(version, text),
    }
}

fn are_keys(version: StoreVersion, rows: &[Row]) -> bool
    ensures { result ≡ list_all (is_known version) rows.now }
{
    rows.iter().all(|row| is_known(version, row))
}

/// True if the key of each row is a text and may stand there.
fn are_known(version: StoreVersion, rows: &[Row]) -> bool
    ensures exact { result ≡ list_all (is_known version) rows.now }
    ensures known { IsTrue result → (r : AnyRow) → Has rows.now r → IsKnown version r }
{
    are_keys(version, rows)
}

/// True if the rows show the layout of their version.
#[tactic(auto, unfolding(crate::specs::Judged::has_layout))]
fn has_layout(version: StoreVersion, rows: &[Row]) -> bool
    ensures exact { result ≡ has_layout version rows.now }
    ensures found { IsTrue result → HasLayout version rows.now }
{
    match version {
        StoreVersion::First => true,
        StoreVersion::Second => match value_of(rows, "layout") {
            None => false,
            Some(layout) => is_same(layout, 2),
        },
    }
}

/// True if there are numbers for so many instances. A store of the first version is judged after all of it was read.
fn is_within(version: StoreVersion, next: Number) -> bool
    ensures { result ≡ is_within version next }
{
    match version {
        StoreVersion::First => true,
        StoreVersion::Second => next.get() <= MAX_NEXT_INSTANCE,
    }
}

/// The counters that the rows show, if they keep the rules of their version.
#[tactic(auto, unfolding(crate::specs::Judged::counters_said))]
pub(crate) fn counters_said(version: StoreVersion, rows: &[Row]) -> Option<Counters>
    ensures exact { result ≡ counters_said version rows.now }
    ensures counters { IfSome result (λ c. Finds (codes "version") (pos (number_of_version version)) rows.now
        → AreCounters version c rows.now) }
{
    let Some(revision) = number_said(rows, "revision") else {
        return None;
    };
    let Some(next_instance) = number_said(rows, "next_instance") else {
        return None;
    };
    let Some(next_snapshot) = number_said(rows, "next_snapshot") else {
        return None;
    };
    if !are_known(version, rows) || !has_layout(version, rows) {
        return None;
    }
    if next_instance.get() < 1 || next_snapshot.get() < 1 || !is_within(version, next_instance) {
        return None;
    }
    Some(Counters {
        revision,
        next_instance,
        next_snapshot,
    })
}

/// Nothing held, with these counters.
pub(crate) fn begin(alloc: Global, counters: &Counters) -> Result<Tables, AllocError>
    ensures { IfOk result (λ h. h ≡ empty_with_counters counters.now) }
{
    let mut changes = Items::new(alloc);
    changes.push(Change::SetRevision(counters.revision))?;
    changes.push(Change::NextInstance(counters.next_instance))?;
    changes.push(Change::NextSnapshot(counters.next_snapshot))?;
    let mut tables = Tables::new(alloc);
    tables.make(changes)?;
    Ok(tables)
}
