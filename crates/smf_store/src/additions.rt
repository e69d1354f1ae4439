ghost use Rattle.std.specs.Prelude.{ℕ, ◌≡◌, ◌<◌, ◌≤◌, [], ◌∷◌, ◌++◌, ◌==◌, ◌&&◌, None, Some, length, nat_lt, IfOk, IfSome, IsTrue, OnOk, is_none, is_some, string_bytes};
ghost use Rattle.sqlite.specs.declared.types.Value.TheVariants.{Text};
ghost use Rattle.sqlite.specs.Order.{column};
ghost use Rattle.smf_model.specs.Dates.{EventKind, revision_of};
ghost use Rattle.smf_model.specs.Look.{holdings_after_change, instance_by_name};
ghost use Rattle.smf_model.specs.Look.{instance as instance_of};
ghost use Rattle.smf_store.specs.Shown.{IsSplit, ShowsInstance, ShowsLaunch, ShowsSnapshot};
ghost use Rattle.smf_fmri.specs.Patterns.{service_of};
ghost use Rattle.smf_fmri.specs.Name.{short};
ghost use Rattle.smf_store.specs.Cells.{IsOwnerUnder, PutsGroup, ShowsBody, ShowsState, ShowsWhole};
ghost use Rattle.std.specs.BTreeSet.{contains};
ghost use Rattle.std.specs.List.{list_all, list_any};
ghost use Rattle.std.specs.Ordering.{nat_cmp};
ghost use Rattle.smf_fmri.specs.ByKey.{has_key, list_with_item};
ghost use Rattle.smf_value.specs.Groups.{by_group};
ghost use Rattle.smf_model.specs.Look.{by_launch, group_in as group_among};
ghost use Rattle.smf_model.specs.Next.{most_groups};
ghost use Rattle.smf_store.specs.RowValues.{group_said, instance_said, joined_name, launch_said, name_said, number_in, only, service_said, short_service, snapshot_said, state_said};
ghost use Rattle.smf_store.specs.Judged.{Takes, add_all, add_group, add_instance, add_launch, add_service, add_snapshot, has_row, instances_said, is_new, is_right, is_there, is_up_to, names_held, names_snapshots, owner_said, put_group, with_instance};
ghost use Rattle.smf_store.specs.Gathered.{AddsGroupOf, AddsInstanceRow, AddsLaunchRow, AddsServiceRow, AddsSnapshotRow, GathersGroups, GathersInstances, GathersLaunches, GathersServices, GathersSnapshots};

use crate::cells::{bytes_at, count_at, number_at, optional_at, text_at};
use smf_fmri::limits::{MAX_COUNT, MAX_GROUPS, MAX_RUN};
use smf_fmri::{Fmri, FmriFault, InstanceFmri, Items, Number, Ordered, ServiceFmri};
use smf_model::{
    Change, Instance, InstanceEntry, InstanceName, Launch, Owner, Service, Snapshot,
    StoredSnapshot, Tables,
};
use smf_snap::decode_snapshot;
use smf_state::{Row as StateRow, RowFault, SharedRow};
use smf_value::{BodyFault, Group, decode};
use sqlite::Row;
use std::alloc::{AllocError, Global};
use std::collections::BTreeSet;

/// The service that a text names in the short form.
#[tactic(auto, unfolding(crate::specs::RowValues::short_service))]
fn service_named(alloc: Global, text: &str) -> Result<Option<ServiceFmri>, AllocError>
    ensures exact { IfOk result (λ found. found ≡ short_service text.now) }
    ensures same { IfOk result (λ found. IfSome found (λ name. name ≡ text.now)) }
{
    let name = match Fmri::parse(alloc, text) {
        Ok(name) => name,
        Err(FmriFault::Memory) => return Err(AllocError),
        Err(_) => return Ok(None),
    };
    if name.print() != text {
        return Ok(None);
    }
    Ok(ServiceFmri::of(name))
}

/// Makes one change.
fn make_one(alloc: Global, tables: &mut Tables, change: Change) -> Result<(), AllocError>
    ensures { OnOk result (tables.new ≡ holdings_after_change tables.old change) }
{
    let mut changes = Items::new(alloc);
    changes.push(change)?;
    tables.make(changes)?;
    Ok(())
}

/// The service that a row shows.
#[tactic(auto, unfolding(crate::specs::RowValues::service_said))]
fn service_said(alloc: Global, row: &Row) -> Result<Option<ServiceFmri>, AllocError>
    ensures exact { IfOk result (λ found. found ≡ service_said row.now) }
    ensures shows { IfOk result (λ found. IfSome found (λ name. column row.now 1 ≡ Text name)) }
{
    let Some(text) = text_at(row, 1) else {
        return Ok(None);
    };
    let name = service_named(alloc, text)?;
    Ok(name)
}

/// Puts in the service of a row, if it may stand there.
#[tactic(auto, unfolding(crate::specs::Judged::add_service))]
fn add_service(alloc: Global, row: &Row, tables: &mut Tables) -> Result<bool, AllocError>
    ensures exact { IfOk result (λ taken. Takes taken (add_service tables.old row.now) tables.new) }
    ensures added { IfOk result (λ taken. IsTrue taken → AddsServiceRow row.now tables.old tables.new) }
{
    let Some(name) = service_said(alloc, row)? else {
        return Ok(false);
    };
    if tables.service(&name).is_some() {
        return Ok(false);
    }
    let service = Service {
        name,
        groups: Ordered::new(alloc),
    };
    make_one(alloc, tables, Change::AddService(service))?;
    Ok(true)
}

/// The services that the rows show, if all of them may stand there.
pub(crate) fn gather_services(
    alloc: Global,
    rows: &[Row],
    tables: &mut Tables,
) -> Result<bool, AllocError>
    ensures exact { IfOk result (λ taken. Takes taken (add_all add_service tables.old rows.now) tables.new) }
    ensures gathered { IfOk result (λ taken. IsTrue taken → GathersServices rows.now tables.old tables.new) }
{
    for row in rows {
        let taken = add_service(alloc, row, tables)?;
        if !taken {
            return Ok(false);
        }
    }
    Ok(true)
}

/// Two texts with a colon between.
fn text_with_colon(alloc: Global, front: &str, behind: &str) -> Result<String, AllocError>
    ensures { IfOk result (λ whole. string_bytes whole ≡ front.now ++ 58 ∷ behind.now) }
{
    let mut whole = String::new(alloc);
    whole.push_str(front)?;
    whole.push_str(":")?;
    whole.push_str(behind)?;
    Ok(whole)
}

/// The service of an instance, by its name.
fn service_in(alloc: Global, name: &InstanceFmri) -> Result<ServiceFmri, AllocError>
    ensures { IfOk result (λ service. service ≡ short ++ service_of name.now) }
{
    name.as_fmri().service_fmri(alloc)
}

/// The name of an instance, if the first of the texts is its service.
#[tactic(auto, unfolding(crate::specs::RowValues::joined_name))]
fn name_of_parts(
    alloc: Global,
    front: &str,
    behind: &str,
) -> Result<Option<InstanceFmri>, AllocError>
    ensures exact { IfOk result (λ found. found ≡ joined_name front.now behind.now) }
    ensures split { IfOk result (λ found. IfSome found (λ name. IsSplit name front.now behind.now)) }
{
    let whole = text_with_colon(alloc, front, behind)?;
    let Some(name) = InstanceFmri::read_short(alloc, &whole)? else {
        return Ok(None);
    };
    let service = service_in(alloc, &name)?;
    if service.print() != front {
        return Ok(None);
    }
    Ok(Some(name))
}

/// The name of an instance, of which two columns hold the parts.
#[tactic(auto, unfolding(crate::specs::RowValues::name_said))]
fn name_said(alloc: Global, row: &Row) -> Result<Option<InstanceFmri>, AllocError>
    ensures exact { IfOk result (λ found. found ≡ name_said row.now) }
    ensures shows { IfOk result (λ found. IfSome found (λ name. ShowsWhole name row.now)) }
{
    let Some(service) = text_at(row, 2) else {
        return Ok(None);
    };
    let Some(name) = text_at(row, 3) else {
        return Ok(None);
    };
    let found = name_of_parts(alloc, service, name)?;
    Ok(found)
}

/// The row of an instance.
#[tactic(auto, unfolding(crate::specs::RowValues::state_said))]
fn state_said(alloc: Global, row: &Row) -> Result<Option<StateRow>, AllocError>
    ensures exact { IfOk result (λ found. found ≡ state_said row.now) }
    ensures shows { IfOk result (λ found. IfSome found (λ read. ShowsState read row.now)) }
{
    let Some(text) = text_at(row, 4) else {
        return Ok(None);
    };
    match StateRow::read(alloc, text) {
        Ok(read) => Ok(Some(read)),
        Err(RowFault::Memory) => Err(AllocError),
        Err(RowFault::BadRow(_)) => Ok(None),
    }
}

/// True if a run is not past the last.
fn is_up_to(last: u64, run: Option<u64>) -> bool
    ensures { result ≡ is_up_to last run }
{
    match run {
        None => true,
        Some(run) => run <= last,
    }
}

/// True if a row keeps revisions up to this alone, runs up to its last, and numbers within their limits. Its base is no
/// revision of an event, and is not judged.
fn is_right(row: &StateRow, revision: u64) -> bool
    ensures exact { result ≡ is_right revision row.now }
    ensures dated { IsTrue result → (kind : EventKind) → revision_of kind row.now ≤ revision }
{
    if row.err > revision || row.stop > revision {
        return false;
    }
    if row.refresh > revision || row.start > revision {
        return false;
    }
    if !is_up_to(row.last, row.live) || !is_up_to(row.last, row.side) {
        return false;
    }
    if row.last > MAX_RUN || row.number > MAX_COUNT {
        return false;
    }
    row.launch <= Number::MAX && row.serial <= Number::MAX
}

/// The instance that a row shows.
#[tactic(auto, unfolding(crate::specs::RowValues::instance_said))]
fn instance_said(alloc: Global, row: &Row) -> Result<Option<Instance>, AllocError>
    ensures exact { IfOk result (λ found. found ≡ instance_said row.now) }
    ensures shows { IfOk result (λ found. IfSome found (λ i. ShowsInstance i row.now)) }
{
    let Some(number) = number_at(row, 0) else {
        return Ok(None);
    };
    let Some(name) = name_said(alloc, row)? else {
        return Ok(None);
    };
    let Some(read) = state_said(alloc, row)? else {
        return Ok(None);
    };
    let Some(start) = optional_at(row, 5) else {
        return Ok(None);
    };
    let Some(previous) = optional_at(row, 6) else {
        return Ok(None);
    };
    Ok(Some(Instance {
        number,
        name,
        row: SharedRow::of(alloc, read)?,
        start,
        previous,
    }))
}

/// True if an instance may be held beside those that are. Its number was given, no other has its number or its name,
/// its service is there, and its row is right.
fn is_new(alloc: Global, tables: &Tables, instance: &Instance) -> Result<bool, AllocError>
    ensures exact { IfOk result (λ new. new ≡ is_new tables.now instance.now) }
    ensures above { IfOk result (λ new. IsTrue new → 0 < instance.now.number) }
    ensures below { IfOk result (λ new. IsTrue new → instance.now.number < tables.now.next_instance) }
    ensures none { IfOk result (λ new. IsTrue new → instance_of tables.now instance.now.number ≡ None) }
    ensures unnamed { IfOk result (λ new. IsTrue new → instance_by_name tables.now instance.now.name ≡ None) }
    ensures dated { IfOk result (λ new. IsTrue new → (kind : EventKind)
        → revision_of kind instance.now.row ≤ tables.now.revision) }
{
    let service = service_in(alloc, &instance.name)?;
    let number = instance.number.get();
    if number == 0 || number >= tables.next_instance().get() {
        return Ok(false);
    }
    if tables.instance(number).is_some() || tables.instance_by_name(&instance.name).is_some() {
        return Ok(false);
    }
    if tables.service(&service).is_none() {
        return Ok(false);
    }
    if !is_right(&instance.row, tables.revision().get()) {
        return Ok(false);
    }
    Ok(true)
}

/// Puts an instance and its name among those that are held.
fn make_instance(alloc: Global, tables: &mut Tables, instance: Instance) -> Result<(), AllocError>
    ensures { OnOk result (tables.new ≡ with_instance tables.old instance) }
{
    let name = InstanceName {
        name: instance.name.clone()?,
        number: instance.number,
    };
    let entry = InstanceEntry {
        instance,
        groups: Ordered::new(alloc),
    };
    make_one(alloc, tables, Change::AddInstance(entry))?;
    make_one(alloc, tables, Change::PutName(name))?;
    Ok(())
}

/// Puts in the instance of a row, if it may stand there.
#[tactic(auto, unfolding(crate::specs::Judged::add_instance))]
fn add_instance(alloc: Global, row: &Row, tables: &mut Tables) -> Result<bool, AllocError>
    ensures exact { IfOk result (λ taken. Takes taken (add_instance tables.old row.now) tables.new) }
    ensures added { IfOk result (λ taken. IsTrue taken → AddsInstanceRow row.now tables.old tables.new) }
{
    let Some(instance) = instance_said(alloc, row)? else {
        return Ok(false);
    };
    let new = is_new(alloc, tables, &instance)?;
    if !new {
        return Ok(false);
    }
    make_instance(alloc, tables, instance)?;
    Ok(true)
}

/// The instances that the rows show, if all of them may stand there.
fn gather_instances(alloc: Global, rows: &[Row], tables: &mut Tables) -> Result<bool, AllocError>
    ensures exact { IfOk result (λ taken. Takes taken (add_all add_instance tables.old rows.now) tables.new) }
    ensures gathered { IfOk result (λ taken. IsTrue taken → GathersInstances rows.now tables.old tables.new) }
{
    for row in rows {
        let taken = add_instance(alloc, row, tables)?;
        if !taken {
            return Ok(false);
        }
    }
    Ok(true)
}

/// The only group of a body.
fn only_group(groups: &Ordered<Group>) -> Result<Option<Group>, AllocError>
    ensures exact { IfOk result (λ found. found ≡ only groups.now) }
    ensures alone { IfOk result (λ found. IfSome found (λ g. groups.now ≡ g ∷ [])) }
{
    match groups.as_slice() {
        [group] => Ok(Some(group.clone()?)),
        _ => Ok(None),
    }
}

/// The group that a row shows.
#[tactic(auto, unfolding(crate::specs::RowValues::group_said))]
fn group_said(alloc: Global, row: &Row) -> Result<Option<Group>, AllocError>
    ensures exact { IfOk result (λ found. found ≡ group_said row.now) }
    ensures shows { IfOk result (λ found. IfSome found (λ g. ShowsBody g row.now)) }
{
    let Some(name) = text_at(row, 3) else {
        return Ok(None);
    };
    let Some(body) = bytes_at(row, 4) else {
        return Ok(None);
    };
    let groups = match decode(alloc, body) {
        Ok(groups) => groups,
        Err(BodyFault::Memory) => return Err(AllocError),
        Err(BodyFault::BadBody(_)) => return Ok(None),
    };
    let Some(group) = only_group(&groups)? else {
        return Ok(None);
    };
    if group.name().as_str() != name {
        return Ok(None);
    }
    Ok(Some(group))
}

/// The launch that a row shows.
#[tactic(auto, unfolding(crate::specs::RowValues::launch_said))]
fn launch_said(alloc: Global, row: &Row) -> Result<Option<Launch>, AllocError>
    ensures exact { IfOk result (λ found. found ≡ launch_said row.now) }
    ensures shows { IfOk result (λ found. IfSome found (λ l. ShowsLaunch l row.now)) }
{
    let Some(text) = text_at(row, 1) else {
        return Ok(None);
    };
    let Some(count) = number_at(row, 2) else {
        return Ok(None);
    };
    let Some(restarter) = InstanceFmri::read_short(alloc, text)? else {
        return Ok(None);
    };
    Ok(Some(Launch { restarter, count }))
}

/// The snapshot that a row shows.
#[tactic(auto, unfolding(crate::specs::RowValues::snapshot_said))]
fn snapshot_said(alloc: Global, row: &Row) -> Result<Option<Snapshot>, AllocError>
    ensures exact { IfOk result (λ found. found ≡ snapshot_said row.now) }
    ensures shows { IfOk result (λ found. IfSome found (λ s. ShowsSnapshot s row.now)) }
{
    let Some(number) = number_at(row, 0) else {
        return Ok(None);
    };
    let Some(instance) = number_at(row, 2) else {
        return Ok(None);
    };
    let Some(body) = bytes_at(row, 3) else {
        return Ok(None);
    };
    let read = match decode_snapshot(alloc, body) {
        Ok(read) => read,
        Err(BodyFault::Memory) => return Err(AllocError),
        Err(BodyFault::BadBody(_)) => return Ok(None),
    };
    Ok(Some(Snapshot {
        number,
        instance,
        service_groups: read.service,
        instance_groups: read.instance,
    }))
}

/// Puts in the snapshot of a row, if it may stand there.
#[tactic(auto, unfolding(crate::specs::Judged::add_snapshot))]
fn add_snapshot(alloc: Global, row: &Row, tables: &mut Tables) -> Result<bool, AllocError>
    ensures exact { IfOk result (λ taken. Takes taken (add_snapshot tables.old row.now) tables.new) }
    ensures added { IfOk result (λ taken. IsTrue taken → AddsSnapshotRow row.now tables.old tables.new) }
{
    let Some(snapshot) = snapshot_said(alloc, row)? else {
        return Ok(false);
    };
    let (number, instance) = (snapshot.number.get(), snapshot.instance.get());
    if number == 0 || number >= tables.next_snapshot().get() {
        return Ok(false);
    }
    if tables.snapshot(number).is_some() || tables.instance(instance).is_none() {
        return Ok(false);
    }
    let stored = StoredSnapshot::new(alloc, snapshot)?;
    make_one(alloc, tables, Change::AddSnapshot(stored))?;
    Ok(true)
}

/// The snapshots that the rows show, if all of them may stand there.
pub(crate) fn gather_snapshots(
    alloc: Global,
    rows: &[Row],
    tables: &mut Tables,
) -> Result<bool, AllocError>
    ensures exact { IfOk result (λ taken. Takes taken (add_all add_snapshot tables.old rows.now) tables.new) }
    ensures gathered { IfOk result (λ taken. IsTrue taken → GathersSnapshots rows.now tables.old tables.new) }
{
    for row in rows {
        let taken = add_snapshot(alloc, row, tables)?;
        if !taken {
            return Ok(false);
        }
    }
    Ok(true)
}

/// The owner's groups with one more, which was not among them.
fn with_one(groups: &Ordered<Group>, group: Group) -> Result<Option<Ordered<Group>>, AllocError>
    ensures exact { IfOk result
        (λ found. is_some found
        ≡ (is_none (group_among groups.now group.name) && nat_lt (length groups.now) most_groups)) }
    ensures none { IfOk result (λ found. IfSome found (λ _. group_among groups.now group.name ≡ None)) }
    ensures put { IfOk result (λ found. IfSome found (λ all. all ≡ list_with_item by_group group groups.now)) }
{
    if groups.get(group.name()).is_some() || groups.as_slice().len() >= MAX_GROUPS {
        return Ok(None);
    }
    let mut all = groups.clone()?;
    all.put(group)?;
    Ok(Some(all))
}

/// Puts a group among those of an owner, if it is there and has none of its name.
#[tactic(auto, unfolding(crate::specs::Judged::put_group))]
fn put_group(
    alloc: Global,
    tables: &mut Tables,
    owner: Owner,
    group: Group,
) -> Result<bool, AllocError>
    ensures exact { IfOk result (λ taken. Takes taken (put_group tables.old owner group) tables.new) }
    ensures added { IfOk result (λ taken. IsTrue taken → PutsGroup owner group tables.old tables.new) }
{
    let Some(groups) = tables.groups_if_there(&owner) else {
        return Ok(false);
    };
    let Some(groups) = with_one(groups, group)? else {
        return Ok(false);
    };
    make_one(alloc, tables, Change::PutGroups(owner, groups))?;
    Ok(true)
}

/// The owner whose groups stand under this service and this number, 0 for the service itself.
#[tactic(auto, unfolding(crate::specs::Judged::owner_said))]
fn owner_said(
    alloc: Global,
    tables: &Tables,
    text: &str,
    number: Number,
) -> Result<Option<Owner>, AllocError>
    ensures exact { IfOk result (λ found. found ≡ owner_said tables.now text.now number) }
    ensures owns { IfOk result (λ found. IfSome found (IsOwnerUnder tables.now text.now number)) }
{
    let id = number.get();
    if id == 0 {
        return match service_named(alloc, text)? {
            None => Ok(None),
            Some(name) => Ok(Some(Owner::Service(name))),
        };
    }
    let Some(instance) = tables.instance(id) else {
        return Ok(None);
    };
    let service = service_in(alloc, &instance.name)?;
    if service.print() != text {
        return Ok(None);
    }
    Ok(Some(Owner::Instance(number)))
}

/// Puts in the group of a row, if it may stand there.
#[tactic(auto, unfolding(crate::specs::Judged::add_group))]
fn add_group(alloc: Global, row: &Row, tables: &mut Tables) -> Result<bool, AllocError>
    ensures exact { IfOk result (λ taken. Takes taken (add_group tables.old row.now) tables.new) }
    ensures added { IfOk result (λ taken. IsTrue taken → AddsGroupOf row.now tables.old tables.new) }
{
    let Some(group) = group_said(alloc, row)? else {
        return Ok(false);
    };
    let Some(text) = text_at(row, 1) else {
        return Ok(false);
    };
    let Some(number) = number_at(row, 2) else {
        return Ok(false);
    };
    let Some(owner) = owner_said(alloc, tables, text, number)? else {
        return Ok(false);
    };
    let taken = put_group(alloc, tables, owner, group)?;
    Ok(taken)
}

/// The groups that the rows show, if all of them may stand there.
pub(crate) fn gather_groups(
    alloc: Global,
    rows: &[Row],
    tables: &mut Tables,
) -> Result<bool, AllocError>
    ensures exact { IfOk result (λ taken. Takes taken (add_all add_group tables.old rows.now) tables.new) }
    ensures gathered { IfOk result (λ taken. IsTrue taken → GathersGroups rows.now tables.old tables.new) }
{
    for row in rows {
        let taken = add_group(alloc, row, tables)?;
        if !taken {
            return Ok(false);
        }
    }
    Ok(true)
}

/// True if a restarter was launched.
fn was_launched(launches: &[Launch], restarter: &InstanceFmri) -> bool
    ensures { result ≡ list_any (has_key by_launch restarter.now) launches.now }
{
    launches
        .iter()
        .any(|launch| launch.restarter.cmp(restarter).is_eq())
}

/// Puts in the launch of a row, if it may stand there.
#[tactic(auto, unfolding(crate::specs::Judged::add_launch))]
fn add_launch(alloc: Global, row: &Row, tables: &mut Tables) -> Result<bool, AllocError>
    ensures exact { IfOk result (λ taken. Takes taken (add_launch tables.old row.now) tables.new) }
    ensures added { IfOk result (λ taken. IsTrue taken → AddsLaunchRow row.now tables.old tables.new) }
{
    let Some(launch) = launch_said(alloc, row)? else {
        return Ok(false);
    };
    if was_launched(tables.launches(), &launch.restarter) {
        return Ok(false);
    }
    make_one(alloc, tables, Change::PutLaunch(launch))?;
    Ok(true)
}

/// The launches that the rows show, if all of them may stand there.
pub(crate) fn gather_launches(
    alloc: Global,
    rows: &[Row],
    tables: &mut Tables,
) -> Result<bool, AllocError>
    ensures exact { IfOk result (λ taken. Takes taken (add_all add_launch tables.old rows.now) tables.new) }
    ensures gathered { IfOk result (λ taken. IsTrue taken → GathersLaunches rows.now tables.old tables.new) }
{
    for row in rows {
        let taken = add_launch(alloc, row, tables)?;
        if !taken {
            return Ok(false);
        }
    }
    Ok(true)
}

/// The number of a row of snapshots.
fn snapshot_number(row: &Row) -> Option<u64>
    ensures { result ≡ number_in (column row.now 0) }
{
    match number_at(row, 0) {
        None => None,
        Some(number) => Some(number.get()),
    }
}

/// The numbers of the rows of snapshots, whatever else these hold.
fn numbers_of(alloc: Global, rows: &[Row]) -> Result<BTreeSet<u64>, AllocError>
    ensures { IfOk result (λ numbers. (n : ℕ) → contains nat_cmp numbers n ≡ has_row rows.now n) }
{
    rows.iter()
        .filter_map(|row| snapshot_number(row))
        .collect(alloc)
}

/// True if a snapshot that is named is there, or none is named.
fn is_there(numbers: &BTreeSet<u64>, number: Option<u64>) -> bool
    ensures { result ≡ is_there (contains nat_cmp numbers.now) number }
{
    match number {
        None => true,
        Some(number) => numbers.contains(&number),
    }
}

/// The same of a number that is held.
fn has(numbers: &BTreeSet<u64>, number: Option<Number>) -> bool
    ensures { result ≡ is_there (contains nat_cmp numbers.now) number }
{
    match number {
        None => true,
        Some(number) => numbers.contains(number.as_u64()),
    }
}

/// True if the snapshots that an instance names are there.
fn names_snapshots(numbers: &BTreeSet<u64>, instance: &Instance) -> bool
    ensures { result ≡ names_snapshots (contains nat_cmp numbers.now) instance.now }
{
    if !has(numbers, instance.start) || !has(numbers, instance.previous) {
        return false;
    }
    is_there(numbers, instance.row.running) && is_there(numbers, instance.row.begun)
}

/// True if the snapshots that these instances name are there.
fn name_held(numbers: &BTreeSet<u64>, entries: &[InstanceEntry]) -> bool
    ensures { result ≡ list_all (names_held (contains nat_cmp numbers.now)) entries.now }
{
    entries
        .iter()
        .all(|entry| names_snapshots(numbers, &entry.instance))
}

/// True if each snapshot that an instance names has a row.
fn have_rows(alloc: Global, tables: &Tables, snapshots: &[Row]) -> Result<bool, AllocError>
    ensures { IfOk result (λ all. all ≡ list_all (names_held (has_row snapshots.now)) tables.now.instances) }
{
    let numbers = numbers_of(alloc, snapshots)?;
    Ok(name_held(&numbers, tables.entries()))
}

/// The instances that the rows show, if all of them may stand there and each snapshot that they name has a row.
#[tactic(auto, unfolding(crate::specs::Judged::instances_said))]
pub(crate) fn gather_named(
    alloc: Global,
    rows: &[Row],
    snapshots: &[Row],
    tables: &mut Tables,
) -> Result<bool, AllocError>
    ensures exact { IfOk result (λ taken. Takes taken (instances_said rows.now snapshots.now tables.old) tables.new) }
    ensures gathered { IfOk result (λ taken. IsTrue taken → GathersInstances rows.now tables.old tables.new) }
{
    let taken = gather_instances(alloc, rows, tables)?;
    if !taken {
        return Ok(false);
    }
    let all = have_rows(alloc, tables, snapshots)?;
    if !all {
        return Ok(false);
    }
    Ok(true)
}
