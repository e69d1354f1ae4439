ghost use Rattle.std.specs.Prelude.{◌≡◌};
ghost use Rattle.smf_store.specs.FirstOther.{earlier, is_before, place_of, reads_snapshots};

use crate::refusal::StoreTable;

/// The place of a table among the six, counted from 0.
fn place_of(table: StoreTable) -> usize
    ensures { result ≡ place_of table }
{
    match table {
        StoreTable::Meta => 0,
        StoreTable::Service => 1,
        StoreTable::Instance => 2,
        StoreTable::Group => 3,
        StoreTable::Snapshot => 4,
        StoreTable::Restarter => 5,
    }
}

/// True if a table comes before the first that is absent or another.
pub(crate) fn is_before(table: StoreTable, other: StoreTable) -> bool
    ensures { result ≡ is_before table other }
{
    place_of(table) < place_of(other)
}

/// True if the snapshots are read: they come before the first table that is absent or another. If that is the table of
/// groups, they are read too, if their table is there.
pub(crate) fn reads_snapshots(other: StoreTable, are_there: bool) -> bool
    ensures { result ≡ reads_snapshots other are_there }
{
    match other {
        StoreTable::Group => are_there,
        _ => is_before(StoreTable::Snapshot, other),
    }
}

/// The first of two tables.
pub(crate) fn earlier(table: StoreTable, other: StoreTable) -> StoreTable
    ensures { result ≡ earlier table other }
{
    if is_before(table, other) {
        return table;
    }
    other
}
