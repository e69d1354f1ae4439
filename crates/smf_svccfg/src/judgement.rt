ghost use Rattle.std.specs.Prelude.{◌≡◌, IfOk, Ok, option_map};
ghost use Rattle.smf_model.specs.declared.command.Edit.TheVariants as edits;
ghost use Rattle.smf_svccfg.specs.declared.selection.Judged.TheVariants as judgements;
ghost use Rattle.smf_svccfg.specs.Lines.{name_in};
ghost use Rattle.smf_svccfg.specs.Judged.{Fits, Gives, added_instance, after_delete, deleted_by_name, delete_edit, is_owner, is_snapshot, judgement_of, judged_add, judged_add_group, judged_delete, judged_delete_group, judged_line, judged_property, judged_revert, judged_select, judged_snapshot, judged_unselect, named_by, owner_of, judged_print, revert_by_selection, reverting_to, snapshot_in, snapshot_named};
ghost use Rattle.smf_svccfg.specs.Listed.{children_text, groups_in, groups_text, properties_text, snapshots_in, snapshots_text};

use crate::arguments::name_in;
use crate::command::CfgCommand;
use crate::entities::{
    above, above_instance, instance_in, named_by, owner_of, selection_of, service_of_word,
};
use crate::fault::CfgFault;
use crate::line::{Line, parse_line};
use crate::output::{
    children_text, groups_in, groups_text, properties_text, snapshots_in, snapshots_text,
};
use crate::selection::{Judged, Selection};
use smf_fmri::{Number, ServiceFmri, Text};
use smf_model::{Client, Edit, Owner, PropertyChange};
use smf_snap::SnapshotName;
use smf_value::Name;
use std::alloc::{AllocError, Global};

// ---- lines that select

fn select<C: Client>(
    alloc: Global,
    repository: &C,
    selection: &Selection,
    word: &str,
) -> Result<Judged, CfgFault>
    ensures { Gives result (judged_select (named_by (C.held repository.now) selection.now word.now)) }
{
    match named_by(alloc, repository, selection, word)? {
        None => Err(CfgFault::NoSuch),
        Some(owner) => Ok(Judged::Select(selection_of(owner))),
    }
}

fn unselect<C: Client>(
    alloc: Global,
    repository: &C,
    selection: &Selection,
) -> Result<Judged, CfgFault>
    ensures { Gives result (judged_unselect (C.held repository.now) selection.now) }
{
    match selection {
        Selection::Nothing => Err(CfgFault::NotSelected),
        Selection::Service(_) => Ok(Judged::Select(Selection::Nothing)),
        Selection::Instance(number) => {
            let above = above_instance(alloc, repository, *number)?;
            Ok(Judged::Select(above))
        }
        Selection::Snapshot { instance, .. } => {
            let above = above_instance(alloc, repository, *instance)?;
            Ok(Judged::Select(above))
        }
    }
}

fn snapshot_named<C: Client>(
    repository: &C,
    instance: Number,
    name: Option<SnapshotName>,
) -> Result<Judged, CfgFault>
    ensures { result ≡ snapshot_named (C.held repository.now) instance name }
{
    match name {
        None => Err(CfgFault::NoSuch),
        Some(name) => {
            if repository.snapshot_number(instance.get(), name).is_some() {
                Ok(Judged::Select(Selection::Snapshot { instance, name }))
            } else {
                Err(CfgFault::NoSuch)
            }
        }
    }
}

/// A snapshot of an instance by its name, or the instance again.
fn snapshot_in<C: Client>(
    repository: &C,
    instance: Number,
    word: &Option<Text>,
) -> Result<Judged, CfgFault>
    ensures { result ≡ snapshot_in (C.held repository.now) instance word.now }
{
    match word {
        None => Ok(Judged::Select(Selection::Instance(instance))),
        Some(word) => snapshot_named(repository, instance, SnapshotName::parse(word.as_str())),
    }
}

fn select_snapshot<C: Client>(
    repository: &C,
    instance: Option<Number>,
    word: &Option<Text>,
) -> Result<Judged, CfgFault>
    ensures { result ≡ judged_snapshot (C.held repository.now) instance word.now }
{
    match instance {
        None => Err(CfgFault::NotSelected),
        Some(instance) => snapshot_in(repository, instance, word),
    }
}

// ---- edits

fn add_instance(alloc: Global, service: &ServiceFmri, word: &str) -> Result<Judged, CfgFault>
    ensures { Gives result (added_instance service.now (name_in word.now)) }
{
    let Some(name) = name_in(alloc, word)? else {
        return Err(CfgFault::Usage(CfgCommand::Add));
    };
    let service = service.clone()?;
    let after = Selection::Service(service.clone()?);
    Ok(Judged::Edit(Edit::AddInstance { service, name }, after))
}

fn add(alloc: Global, selection: &Selection, word: &str) -> Result<Judged, CfgFault>
    ensures { Gives result (judged_add selection.now word.now) }
{
    match selection {
        Selection::Nothing => match service_of_word(alloc, word)? {
            Some(name) => Ok(Judged::Edit(Edit::AddService(name), Selection::Nothing)),
            None => Err(CfgFault::Limit),
        },
        Selection::Service(service) => add_instance(alloc, service, word),
        Selection::Instance(_) => Err(CfgFault::Usage(CfgCommand::Add)),
        Selection::Snapshot { .. } => Err(CfgFault::Usage(CfgCommand::Add)),
    }
}

fn is_snapshot(selection: &Selection) -> bool
    ensures { result ≡ is_snapshot selection.now }
{
    match selection {
        Selection::Snapshot { .. } => true,
        _ => false,
    }
}

/// True if this service or this instance is selected.
fn is_owner(selection: &Selection, owner: &Owner) -> bool
    ensures { result ≡ is_owner selection.now owner.now }
{
    match (selection, owner) {
        (Selection::Service(a), Owner::Service(b)) => *a == *b,
        (Selection::Instance(a), Owner::Instance(b)) => *a == *b,
        _ => false,
    }
}

/// The selection after a delete.
fn after_delete<C: Client>(
    alloc: Global,
    repository: &C,
    selection: &Selection,
    owner: &Owner,
) -> Result<Selection, AllocError>
    ensures { IfOk result (λ after. after ≡ after_delete (C.held repository.now) selection.now owner.now) }
{
    if is_owner(selection, owner) {
        above(alloc, repository, owner)
    } else {
        selection.clone()
    }
}

fn delete_edit(owner: Owner) -> Edit
    ensures { result ≡ delete_edit owner }
{
    match owner {
        Owner::Service(name) => Edit::DeleteService(name),
        Owner::Instance(number) => Edit::DeleteInstance(number.get()),
    }
}

fn delete_by_name<C: Client>(
    alloc: Global,
    repository: &C,
    selection: &Selection,
    word: &str,
) -> Result<Judged, CfgFault>
    ensures { Gives result (deleted_by_name (C.held repository.now) selection.now word.now) }
{
    let Some(owner) = named_by(alloc, repository, selection, word)? else {
        return Err(CfgFault::NoSuch);
    };
    let after = after_delete(alloc, repository, selection, &owner)?;
    Ok(Judged::Edit(delete_edit(owner), after))
}

fn delete<C: Client>(
    alloc: Global,
    repository: &C,
    selection: &Selection,
    word: &str,
) -> Result<Judged, CfgFault>
    ensures { Gives result (judged_delete (C.held repository.now) selection.now word.now) }
{
    if is_snapshot(selection) {
        return Err(CfgFault::ReadOnly);
    }
    delete_by_name(alloc, repository, selection, word)
}

fn add_group(
    selection: &Selection,
    name: Name,
    group_type: Name,
    non_persistent: bool,
) -> Result<Judged, CfgFault>
    ensures { Gives result (judged_add_group selection.now (owner_of selection.now) name group_type non_persistent) }
{
    let owner = owner_of(selection)?;
    let after = selection.clone()?;
    let edit = Edit::AddGroup {
        owner,
        name,
        group_type,
        non_persistent,
    };
    Ok(Judged::Edit(edit, after))
}

fn delete_group(selection: &Selection, name: Name) -> Result<Judged, CfgFault>
    ensures { Gives result (judged_delete_group selection.now (owner_of selection.now) name) }
{
    let owner = owner_of(selection)?;
    let after = selection.clone()?;
    Ok(Judged::Edit(Edit::DeleteGroup { owner, name }, after))
}

fn change_property(
    selection: &Selection,
    group: Name,
    change: PropertyChange,
) -> Result<Judged, CfgFault>
    ensures { Gives result (judged_property selection.now (owner_of selection.now) group change) }
{
    let owner = owner_of(selection)?;
    let after = selection.clone()?;
    let edit = Edit::Property {
        owner,
        group,
        change,
    };
    Ok(Judged::Edit(edit, after))
}

/// Back to the selected snapshot, else to the running one.
fn revert_by_selection(selection: &Selection) -> Result<Judged, CfgFault>
    ensures { result ≡ revert_by_selection selection.now }
{
    match selection {
        Selection::Nothing => Err(CfgFault::NotSelected),
        Selection::Service(_) => Err(CfgFault::NotSelected),
        Selection::Instance(number) => Ok(revert_edit(
            *number,
            SnapshotName::Running,
            Selection::Instance(*number),
        )),
        Selection::Snapshot { instance, name } => Ok(revert_edit(
            *instance,
            *name,
            Selection::Instance(*instance),
        )),
    }
}

fn revert_edit(instance: Number, snapshot: SnapshotName, after: Selection) -> Judged
    ensures { result ≡ judgements.Edit (edits.Revert instance snapshot) after }
{
    let instance = instance.get();
    Judged::Edit(Edit::Revert { instance, snapshot }, after)
}

fn reverting_to(
    selection: &Selection,
    instance: Number,
    name: Option<SnapshotName>,
) -> Result<Judged, CfgFault>
    ensures { Gives result (reverting_to selection.now instance name) }
{
    let Some(name) = name else {
        return Err(CfgFault::NoSuch);
    };
    let after = selection.clone()?;
    Ok(revert_edit(instance, name, after))
}

fn revert(selection: &Selection, word: &Option<Text>) -> Result<Judged, CfgFault>
    ensures { Gives result (judged_revert selection.now word.now) }
{
    let Some(word) = word else {
        return revert_by_selection(selection);
    };
    match instance_in(selection) {
        None => Err(CfgFault::NotSelected),
        Some(instance) => { reverting_to(selection, instance, SnapshotName::parse(word.as_str())) }
    }
}

// ---- listings

fn list_groups<C: Client>(
    alloc: Global,
    repository: &C,
    selection: &Selection,
) -> Result<Judged, CfgFault>
    ensures { Gives result (judged_print (option_map groups_text (groups_in (C.held repository.now) selection.now))) }
{
    match groups_in(alloc, repository, selection)? {
        None => Err(CfgFault::NotSelected),
        Some(groups) => Ok(Judged::Print(groups_text(alloc, groups.as_slice())?)),
    }
}

fn list_properties<C: Client>(
    alloc: Global,
    repository: &C,
    selection: &Selection,
) -> Result<Judged, CfgFault>
    ensures { Gives result
        (judged_print (option_map properties_text (groups_in (C.held repository.now) selection.now))) }
{
    match groups_in(alloc, repository, selection)? {
        None => Err(CfgFault::NotSelected),
        Some(groups) => Ok(Judged::Print(properties_text(alloc, groups.as_slice())?)),
    }
}

fn list_snapshots<C: Client>(
    alloc: Global,
    repository: &C,
    instance: Option<Number>,
) -> Result<Judged, CfgFault>
    ensures { Gives result (judged_print (option_map snapshots_text (snapshots_in (C.held repository.now) instance))) }
{
    match snapshots_in(repository, instance)? {
        None => Err(CfgFault::NotSelected),
        Some(names) => Ok(Judged::Print(snapshots_text(alloc, names.as_slice())?)),
    }
}

fn list<C: Client>(alloc: Global, repository: &C, selection: &Selection) -> Result<Judged, CfgFault>
    ensures { Gives result (Ok (judgements.Print (children_text (C.held repository.now) selection.now))) }
{
    let text = children_text(alloc, repository, selection)?;
    Ok(Judged::Print(text))
}

// ---- the whole

/// Judges a line, which stands without its end. The repository may still refuse the edit.
pub fn judge<C: Client>(
    alloc: Global,
    repository: &C,
    selection: &Selection,
    line: &str,
) -> Result<Judged, CfgFault>
    // The new selection is present, or stands above what is left. An edit is of what is selected or is there. If a
    // snapshot is selected, the edit is a revert.
    ensures fits { IfOk result (λ j. Fits (C.held repository.now) selection.now j) }
    ensures exact { Gives result (judgement_of (C.held repository.now) selection.now line.now) }
{
    judge_exact(alloc, repository, selection, line)
}

#[tactic(auto, unfolding(crate::specs::Judged::judgement_of))]
fn judge_exact<C: Client>(
    alloc: Global,
    repository: &C,
    selection: &Selection,
    line: &str,
) -> Result<Judged, CfgFault>
    ensures { Gives result (judgement_of (C.held repository.now) selection.now line.now) }
{
    let line = parse_line(alloc, line)?;
    judge_line(alloc, repository, selection, line)
}

fn judge_line<C: Client>(
    alloc: Global,
    repository: &C,
    selection: &Selection,
    line: Line,
) -> Result<Judged, CfgFault>
    ensures { Gives result (judged_line (C.held repository.now) selection.now line) }
{
    match line {
        Line::Nothing => Ok(Judged::Nothing),
        Line::Select(word) => select(alloc, repository, selection, word.as_str()),
        Line::Delete(word) => delete(alloc, repository, selection, word.as_str()),
        Line::Unselect => unselect(alloc, repository, selection),
        Line::List => list(alloc, repository, selection),
        Line::ListGroups => list_groups(alloc, repository, selection),
        Line::ListProperties => list_properties(alloc, repository, selection),
        Line::ListSnapshots => list_snapshots(alloc, repository, instance_in(selection)),
        Line::Add(word) => add(alloc, selection, word.as_str()),
        Line::AddGroup {
            name,
            group_type,
            non_persistent,
        } => add_group(selection, name, group_type, non_persistent),
        Line::DeleteGroup(name) => delete_group(selection, name),
        Line::Property { group, change } => change_property(selection, group, change),
        Line::SelectSnapshot(word) => select_snapshot(repository, instance_in(selection), &word),
        Line::Revert(word) => revert(selection, &word),
        Line::End => Ok(Judged::End),
    }
}
