ghost use Rattle.std.specs.Prelude.{◌≡◌, IfOk, IsTrue};
ghost use Rattle.std.specs.List.{list_all};
ghost use Rattle.smf_store.specs.Agreement.{AreLaunched, NameOwn};
ghost use Rattle.smf_store.specs.Gathered.{GathersLaunches, GathersSnapshots};
ghost use Rattle.smf_store.specs.Judged.{Takes, entry_names_own, is_launched, is_own, launches_said, names_own, snapshots_said};

use crate::additions::{gather_launches, gather_snapshots};
use smf_fmri::Number;
use smf_model::{Instance, InstanceEntry, Tables};
use sqlite::Row;
use std::alloc::{AllocError, Global};

/// True if a snapshot that is named is there, and is of the instance of this number, or none is named.
fn is_own(tables: &Tables, number: u64, snapshot: Option<u64>) -> bool
    ensures { result ≡ is_own tables.now number snapshot }
{
    match snapshot {
        None => true,
        Some(snapshot) => match tables.snapshot(snapshot) {
            None => false,
            Some(stored) => stored.snapshot().instance.get() == number,
        },
    }
}

/// The same of a number that is held.
fn is_held(tables: &Tables, number: u64, snapshot: Option<Number>) -> bool
    ensures { result ≡ is_own tables.now number snapshot }
{
    match snapshot {
        None => true,
        Some(snapshot) => is_own(tables, number, Some(snapshot.get())),
    }
}

/// True if each snapshot that an instance names is there, and is its own.
fn names_own(tables: &Tables, instance: &Instance) -> bool
    ensures { result ≡ names_own tables.now instance.now }
{
    let number = instance.number.get();
    if !is_held(tables, number, instance.start) || !is_held(tables, number, instance.previous) {
        return false;
    }
    is_own(tables, number, instance.row.running) && is_own(tables, number, instance.row.begun)
}

/// True if this holds for each instance.
fn all_name_own(tables: &Tables) -> bool
    ensures { result ≡ list_all (entry_names_own tables.now) tables.now.instances }
{
    tables
        .entries()
        .iter()
        .all(|entry| names_own(tables, &entry.instance))
}

/// The snapshots that the rows show, if all of them may stand there and each that an instance names is its own.
#[tactic(auto, unfolding(crate::specs::Judged::snapshots_said))]
pub(crate) fn gather_own(
    alloc: Global,
    rows: &[Row],
    tables: &mut Tables,
) -> Result<bool, AllocError>
    ensures exact { IfOk result (λ taken. Takes taken (snapshots_said rows.now tables.old) tables.new) }
    ensures gathered { IfOk result (λ taken. IsTrue taken → GathersSnapshots rows.now tables.old tables.new) }
    ensures named { IfOk result (λ taken. IsTrue taken → NameOwn tables.new) }
{
    let taken = gather_snapshots(alloc, rows, tables)?;
    if !taken {
        return Ok(false);
    }
    let own = all_name_own(tables);
    if !own {
        return Ok(false);
    }
    Ok(true)
}

/// True if the launch of an instance's row is not past the last of its restarter.
fn is_launched(tables: &Tables, entry: &InstanceEntry) -> bool
    ensures { result ≡ is_launched tables.now entry.now }
{
    let row = &entry.instance.row;
    row.launch <= tables.launch_of(&row.owner)
}

/// True if this holds for each instance.
fn are_launched(tables: &Tables) -> bool
    ensures { result ≡ list_all (is_launched tables.now) tables.now.instances }
{
    tables
        .entries()
        .iter()
        .all(|entry| is_launched(tables, entry))
}

/// The launches that the rows show, if all of them may stand there and no row of an instance has a later one.
#[tactic(auto, unfolding(crate::specs::Judged::launches_said))]
pub(crate) fn gather_counted(
    alloc: Global,
    rows: &[Row],
    tables: &mut Tables,
) -> Result<bool, AllocError>
    ensures exact { IfOk result (λ taken. Takes taken (launches_said rows.now tables.old) tables.new) }
    ensures gathered { IfOk result (λ taken. IsTrue taken → GathersLaunches rows.now tables.old tables.new) }
    ensures launched { IfOk result (λ taken. IsTrue taken → AreLaunched tables.new) }
{
    let taken = gather_launches(alloc, rows, tables)?;
    if !taken {
        return Ok(false);
    }
    let launched = are_launched(tables);
    if !launched {
        return Ok(false);
    }
    Ok(true)
}
