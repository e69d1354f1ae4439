ghost use Rattle.std.specs.Prelude.{◌≡◌, ◌↔◌, [], ◌∷◌, IsTrue, Some};
ghost use Rattle.std.specs.List.{slice_get};
ghost use Rattle.std.specs.Option.{option_copied};
ghost use Rattle.sqlite_value.specs.Keys.{plain};
ghost use Rattle.smf_tables.specs.Layout.{HasKeys, HasNoMore, HasRowKey, StandsSomewhere, count_of_tree, first_named, to_service};
ghost use Rattle.smf_tables.specs.Schema.{column, grp_at, instance_at, meta_at, restarter_at, service_at, snap_at};

use sqlite_items::Items;
use sqlite_schema::schema::{Action, Column, Kind, Reference, Schema, Table};
use sqlite_value::keys::{Collation, Order};
use sqlite_value::value::{Bytes, Value};

/// True if a column of a STRICT table has this name and type.
fn is_column(it: &Column, name: &str, kind: Kind, not_null: bool) -> bool
    ensures { IsTrue result ↔ (it.now ≡ column name.now kind not_null) }
{
    if it.name.as_slice() != name.as_bytes() || it.kind != kind {
        return false;
    }
    if !it.is_strict || it.not_null != not_null {
        return false;
    }
    if !matches!(it.default, Value::Null) {
        return false;
    }
    it.collation == Collation::Binary
}

/// True if a table has this name and this tree, and no rules beside its columns and keys.
fn has_no_more(table: &Table, name: &str, tree: u32) -> bool
    ensures { IsTrue result ↔ (HasNoMore table.now name.now tree) }
{
    if table.name.as_slice() != name.as_bytes() || table.tree != tree || table.is_counted {
        return false;
    }
    if !table.checks.roots.is_empty() || !table.computed.is_empty() {
        return false;
    }
    if !table.stamps.places.is_empty() || !table.stamps.terms.roots.is_empty() {
        return false;
    }
    table.stamps.formats.is_empty()
}

/// True if there is one unique key, of these columns.
fn is_only(uniques: &[Items<usize>], unique: &[usize]) -> bool
    ensures { IsTrue result ↔ (uniques.now ≡ unique.now ∷ []) }
{
    let [only] = uniques else {
        return false;
    };
    if only.as_slice() != unique {
        return false;
    }
    true
}

/// True if there is one order, and it is the plain one.
fn is_plain(orders: &[Order]) -> bool
    ensures { IsTrue result ↔ (orders.now ≡ plain ∷ []) }
{
    let [order] = orders else {
        return false;
    };
    if order.digits != 0 {
        return false;
    }
    true
}

/// True if a table has these keys.
fn has_keys(table: &Table, key: Option<usize>, primary: &[usize], unique: &[usize]) -> bool
    ensures { IsTrue result ↔ (HasKeys table.now key primary.now unique.now) }
{
    if table.key != key || table.primary.as_slice() != primary {
        return false;
    }
    if !is_only(table.uniques.as_slice(), unique) {
        return false;
    }
    is_plain(table.orders.as_slice())
}

/// True if a table has a row key alone.
fn has_row_key(table: &Table) -> bool
    ensures { IsTrue result ↔ (HasRowKey table.now) }
{
    if table.key != Some(0) || table.primary.as_slice() != [0].as_slice() {
        return false;
    }
    table.uniques.is_empty() && table.orders.is_empty()
}

/// True if the names of a reference's columns are this one alone.
fn is_name(names: &[Bytes], name: &str) -> bool
    ensures { IsTrue result ↔ (names.now ≡ name.now ∷ []) }
{
    let [only] = names else {
        return false;
    };
    if only.as_slice() != name.as_bytes() {
        return false;
    }
    true
}

/// True if this is the reference of an instance to its service.
fn is_reference(it: &Reference) -> bool
    ensures { IsTrue result ↔ (it.now ≡ to_service) }
{
    if it.columns.as_slice() != [2].as_slice() || it.parent.as_slice() != "service".as_bytes() {
        return false;
    }
    if !is_name(it.parent_columns.as_slice(), "name") || it.is_deferred {
        return false;
    }
    it.on_delete == Action::NoAction && it.on_update == Action::NoAction
}

/// True if a table has this reference and no other.
fn has_reference(table: &Table) -> bool
    ensures { IsTrue result ↔ (table.now.references ≡ to_service ∷ []) }
{
    let [only] = table.references.as_slice() else {
        return false;
    };
    if !is_reference(only) {
        return false;
    }
    true
}

/// True if these are the columns of the table of counters.
fn are_meta_columns(columns: &[Column]) -> bool
    ensures { IsTrue result ↔ (columns.now ≡ (meta_at 0).columns) }
{
    let [a, b] = columns else {
        return false;
    };
    if !is_column(a, "k", Kind::Text, true) {
        return false;
    }
    if !is_column(b, "v", Kind::Integer, true) {
        return false;
    }
    true
}

/// True if this is the table of counters, with this tree.
fn is_meta(table: &Table, tree: u32) -> bool
    ensures { IsTrue result ↔ (table.now ≡ meta_at tree) }
{
    if !has_no_more(table, "meta", tree) || !has_keys(table, None, &[1], &[1]) {
        return false;
    }
    if !are_meta_columns(table.columns.as_slice()) {
        return false;
    }
    table.references.is_empty()
}

/// True if these are the columns of the table of services.
fn are_service_columns(columns: &[Column]) -> bool
    ensures { IsTrue result ↔ (columns.now ≡ (service_at 0).columns) }
{
    let [a] = columns else {
        return false;
    };
    if !is_column(a, "name", Kind::Text, true) {
        return false;
    }
    true
}

/// True if this is the table of services, with this tree.
fn is_service(table: &Table, tree: u32) -> bool
    ensures { IsTrue result ↔ (table.now ≡ service_at tree) }
{
    if !has_no_more(table, "service", tree) || !has_keys(table, None, &[1], &[1]) {
        return false;
    }
    if !are_service_columns(table.columns.as_slice()) {
        return false;
    }
    table.references.is_empty()
}

/// True if these are the columns of the table of instances.
fn are_instance_columns(columns: &[Column]) -> bool
    ensures { IsTrue result ↔ (columns.now ≡ (instance_at 0).columns) }
{
    let [a, b, c, d, e, f] = columns else {
        return false;
    };
    if !is_column(a, "id", Kind::Integer, false) {
        return false;
    }
    if !is_column(b, "service", Kind::Text, true) {
        return false;
    }
    if !is_column(c, "name", Kind::Text, true) {
        return false;
    }
    if !is_column(d, "rowtext", Kind::Text, true) {
        return false;
    }
    if !is_column(e, "start_snap", Kind::Integer, false) {
        return false;
    }
    if !is_column(f, "previous_snap", Kind::Integer, false) {
        return false;
    }
    true
}

/// True if this is the table of instances, with this tree.
fn is_instance(table: &Table, tree: u32) -> bool
    ensures { IsTrue result ↔ (table.now ≡ instance_at tree) }
{
    if !has_no_more(table, "instance", tree) || !has_keys(table, Some(0), &[0], &[2, 3]) {
        return false;
    }
    if !are_instance_columns(table.columns.as_slice()) {
        return false;
    }
    has_reference(table)
}

/// True if these are the columns of the table of groups.
fn are_grp_columns(columns: &[Column]) -> bool
    ensures { IsTrue result ↔ (columns.now ≡ (grp_at 0).columns) }
{
    let [a, b, c, d] = columns else {
        return false;
    };
    if !is_column(a, "service", Kind::Text, true) {
        return false;
    }
    if !is_column(b, "instance", Kind::Integer, true) {
        return false;
    }
    if !is_column(c, "name", Kind::Text, true) {
        return false;
    }
    if !is_column(d, "body", Kind::Blob, true) {
        return false;
    }
    true
}

/// True if this is the table of groups, with this tree.
fn is_grp(table: &Table, tree: u32) -> bool
    ensures { IsTrue result ↔ (table.now ≡ grp_at tree) }
{
    if !has_no_more(table, "grp", tree) || !has_keys(table, None, &[1, 2, 3], &[1, 2, 3]) {
        return false;
    }
    if !are_grp_columns(table.columns.as_slice()) {
        return false;
    }
    table.references.is_empty()
}

/// True if these are the columns of the table of snapshots.
fn are_snap_columns(columns: &[Column]) -> bool
    ensures { IsTrue result ↔ (columns.now ≡ (snap_at 0).columns) }
{
    let [a, b, c] = columns else {
        return false;
    };
    if !is_column(a, "id", Kind::Integer, false) {
        return false;
    }
    if !is_column(b, "instance", Kind::Integer, true) {
        return false;
    }
    if !is_column(c, "body", Kind::Blob, true) {
        return false;
    }
    true
}

/// True if this is the table of snapshots, with this tree.
fn is_snap(table: &Table, tree: u32) -> bool
    ensures { IsTrue result ↔ (table.now ≡ snap_at tree) }
{
    if !has_no_more(table, "snap", tree) || !has_row_key(table) {
        return false;
    }
    if !are_snap_columns(table.columns.as_slice()) {
        return false;
    }
    table.references.is_empty()
}

/// True if these are the columns of the table of restarters.
fn are_restarter_columns(columns: &[Column]) -> bool
    ensures { IsTrue result ↔ (columns.now ≡ (restarter_at 0).columns) }
{
    let [a, b] = columns else {
        return false;
    };
    if !is_column(a, "name", Kind::Text, true) {
        return false;
    }
    if !is_column(b, "launch", Kind::Integer, true) {
        return false;
    }
    true
}

/// True if this is the table of restarters, with this tree.
fn is_restarter(table: &Table, tree: u32) -> bool
    ensures { IsTrue result ↔ (table.now ≡ restarter_at tree) }
{
    if !has_no_more(table, "restarter", tree) || !has_keys(table, None, &[1], &[1]) {
        return false;
    }
    if !are_restarter_columns(table.columns.as_slice()) {
        return false;
    }
    table.references.is_empty()
}

/// The table at a place of a schema, counted from 0.
fn table_at(schema: &Schema, place: usize) -> Option<&Table>
    ensures { option_copied result ≡ slice_get schema.now.tables place }
{
    schema.tables.as_slice().get(place)
}

/// How many tables of a schema have this tree.
fn count_of_tree(schema: &Schema, tree: u32) -> usize
    ensures { result ≡ count_of_tree schema.now tree }
{
    schema
        .tables
        .as_slice()
        .iter()
        .filter(|table| table.tree == tree)
        .count()
}

/// True if one table of a schema has this tree.
fn is_one(schema: &Schema, tree: u32) -> bool
    ensures { IsTrue result ↔ (count_of_tree schema.now tree ≡ 1) }
{
    count_of_tree(schema, tree) == 1
}

/// The first table of a schema that has this name.
fn first_named<'a>(schema: &'a Schema, name: &str) -> Option<&'a Table>
    ensures { option_copied result ≡ first_named schema.now name.now }
{
    let Some(place) = schema.table_named(name.as_bytes()) else {
        return None;
    };
    table_at(schema, place)
}

/// True if the first table with the name of the table of counters is one, and no other has its tree.
pub fn has_meta_table(schema: &Schema) -> bool
    ensures { IsTrue result ↔ StandsSomewhere schema.now meta_at }
{
    let Some(table) = first_named(schema, "meta") else {
        return false;
    };
    if !is_meta(table, table.tree) {
        return false;
    }
    is_one(schema, table.tree)
}

/// True if the first table with the name of the table of services is one, and no other has its tree.
pub fn has_service_table(schema: &Schema) -> bool
    ensures { IsTrue result ↔ StandsSomewhere schema.now service_at }
{
    let Some(table) = first_named(schema, "service") else {
        return false;
    };
    if !is_service(table, table.tree) {
        return false;
    }
    is_one(schema, table.tree)
}

/// True if the first table with the name of the table of instances is one, and no other has its tree.
pub fn has_instance_table(schema: &Schema) -> bool
    ensures { IsTrue result ↔ StandsSomewhere schema.now instance_at }
{
    let Some(table) = first_named(schema, "instance") else {
        return false;
    };
    if !is_instance(table, table.tree) {
        return false;
    }
    is_one(schema, table.tree)
}

/// True if the first table with the name of the table of groups is one, and no other has its tree.
pub fn has_grp_table(schema: &Schema) -> bool
    ensures { IsTrue result ↔ StandsSomewhere schema.now grp_at }
{
    let Some(table) = first_named(schema, "grp") else {
        return false;
    };
    if !is_grp(table, table.tree) {
        return false;
    }
    is_one(schema, table.tree)
}

/// True if the first table with the name of the table of snapshots is one, and no other has its tree.
pub fn has_snap_table(schema: &Schema) -> bool
    ensures { IsTrue result ↔ StandsSomewhere schema.now snap_at }
{
    let Some(table) = first_named(schema, "snap") else {
        return false;
    };
    if !is_snap(table, table.tree) {
        return false;
    }
    is_one(schema, table.tree)
}

/// True if the first table with the name of the table of restarters is one, and no other has its tree.
pub fn has_restarter_table(schema: &Schema) -> bool
    ensures { IsTrue result ↔ StandsSomewhere schema.now restarter_at }
{
    let Some(table) = first_named(schema, "restarter") else {
        return false;
    };
    if !is_restarter(table, table.tree) {
        return false;
    }
    is_one(schema, table.tree)
}
