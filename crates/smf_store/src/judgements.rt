ghost use Rattle.std.specs.Prelude.{◌≡◌, false, Err, IfOk, IsTrue, Ok, OnOk};
ghost use Rattle.smf_model.specs.Laws.{IsNumbered};
ghost use Rattle.smf_store.specs.Agreement.{AreLaunched, NameOwn};
ghost use Rattle.smf_store.specs.Gathered.{AreRead, GathersAll, rows_of};
ghost use Rattle.smf_store.specs.Judged.{IsBroken, IsJudged, IsRead, broken_by, first_broken, holdings_within_limit, verdict_on_rows, tables_said};

use crate::additions::{gather_groups, gather_named, gather_services};
use crate::agreement::{gather_counted, gather_own};
use crate::counter_rows::{MAX_NEXT_INSTANCE, StoreVersion, begin, counters_said, version_said};
use crate::places::earlier;
use crate::refusal::{OpenFault, StoreTable};
use smf_model::Tables;
use sqlite::Row;
use std::alloc::Global;

/// All rows of the six tables.
#[derive(Drop)]
pub(crate) struct StoreRows {
    pub(crate) counts: Vec<Row>,
    pub(crate) services: Vec<Row>,
    pub(crate) instances: Vec<Row>,
    pub(crate) groups: Vec<Row>,
    pub(crate) snapshots: Vec<Row>,
    pub(crate) launches: Vec<Row>,
}

/// The contents of a store, and its version.
#[derive(Drop)]
pub(crate) struct Judgement {
    pub(crate) version: StoreVersion,
    pub(crate) tables: Tables,
}

/// Puts in what the tables after that of the counters show.
#[tactic(auto, unfolding(crate::specs::Judged::tables_said))]
fn read_tables(alloc: Global, rows: &StoreRows, tables: &mut Tables) -> Result<(), OpenFault>
    ensures exact { IsRead result tables.new (tables_said rows.now tables.old) }
    ensures read { OnOk result (GathersAll rows.now tables.old tables.new) }
    ensures named { OnOk result (NameOwn tables.new) }
    ensures launched { OnOk result (AreLaunched tables.new) }
{
    let Ok(services) = gather_services(alloc, &rows.services, tables) else {
        return Err(OpenFault::Memory);
    };
    if !services {
        return Err(OpenFault::Damaged(StoreTable::Service));
    }
    let Ok(instances) = gather_named(alloc, &rows.instances, &rows.snapshots, tables) else {
        return Err(OpenFault::Memory);
    };
    if !instances {
        return Err(OpenFault::Damaged(StoreTable::Instance));
    }
    let Ok(groups) = gather_groups(alloc, &rows.groups, tables) else {
        return Err(OpenFault::Memory);
    };
    if !groups {
        return Err(OpenFault::Damaged(StoreTable::Group));
    }
    let Ok(snapshots) = gather_own(alloc, &rows.snapshots, tables) else {
        return Err(OpenFault::Memory);
    };
    if !snapshots {
        return Err(OpenFault::Damaged(StoreTable::Snapshot));
    }
    let Ok(launches) = gather_counted(alloc, &rows.launches, tables) else {
        return Err(OpenFault::Memory);
    };
    if !launches {
        return Err(OpenFault::Damaged(StoreTable::Restarter));
    }
    Ok(())
}

/// True if a store of the first version has given more numbers than there are for instances.
fn is_past(version: StoreVersion, tables: &Tables) -> bool
    ensures past { IsTrue result → holdings_within_limit version tables.now ≡ Err OpenFault.TooManyInstances }
    ensures fits { result ≡ false → holdings_within_limit version tables.now ≡ Ok tables.now }
{
    match version {
        StoreVersion::First => tables.next_instance().get() > MAX_NEXT_INSTANCE,
        StoreVersion::Second => false,
    }
}

/// The value that the rows of a store show, and its version.
#[tactic(auto, unfolding(crate::specs::Judged::verdict_on_rows))]
pub(crate) fn judge(alloc: Global, rows: &StoreRows) -> Result<Judgement, OpenFault>
    ensures exact { IsJudged result (verdict_on_rows rows.now) }
    ensures read { IfOk result (λ j. AreRead (rows_of j.version rows.now) j.tables) }
    ensures numbered { IfOk result (λ j. IsNumbered j.tables) }
    ensures named { IfOk result (λ j. NameOwn j.tables) }
    ensures launched { IfOk result (λ j. AreLaunched j.tables) }
{
    let version = match version_said(&rows.counts) {
        Ok(version) => version,
        Err(fault) => return Err(fault),
    };
    let Some(counters) = counters_said(version, &rows.counts) else {
        return Err(OpenFault::Damaged(StoreTable::Meta));
    };
    let mut tables = match begin(alloc, &counters) {
        Ok(tables) => tables,
        Err(_) => return Err(OpenFault::Memory),
    };
    match read_tables(alloc, rows, &mut tables) {
        Ok(()) => {}
        Err(fault) => return Err(fault),
    }
    if is_past(version, &tables) {
        return Err(OpenFault::TooManyInstances);
    }
    Ok(Judgement { version, tables })
}

/// The fault to report. `other` is the first table that is absent or another.
fn broken_by(fault: OpenFault, other: StoreTable) -> OpenFault
    ensures { result ≡ broken_by other fault }
{
    match fault {
        OpenFault::Memory => OpenFault::Memory,
        OpenFault::Version(version) => OpenFault::Version(version),
        OpenFault::Damaged(table) => OpenFault::Damaged(earlier(table, other)),
        _ => OpenFault::Damaged(other),
    }
}

/// The fault that names the first table that breaks a rule. `other` is the first table that is absent or another, and
/// those before it have these rows.
#[tactic(auto, using(crate::proofs::Verdicts::broken_none, crate::proofs::Verdicts::broken_some))]
pub(crate) fn find_broken(alloc: Global, rows: &StoreRows, other: StoreTable) -> OpenFault
    ensures { IsBroken result (first_broken other (verdict_on_rows rows.now)) }
{
    let fault = match judge(alloc, rows) {
        Ok(_) => return OpenFault::Damaged(other),
        Err(fault) => fault,
    };
    broken_by(fault, other)
}
