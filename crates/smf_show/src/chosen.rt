//! The instances that words mean, of those that a repository holds.

ghost use Rattle.std.specs.Option.{option_copied};
ghost use Rattle.std.specs.Prelude.{◌≡◌, [], map, IfOk};
ghost use Rattle.smf_fmri.specs.ByKey.{put_all};
ghost use Rattle.smf_model.specs.Next.{named_snapshot};
ghost use Rattle.smf_snap.specs.Composed.{composition};
ghost use Rattle.smf_show.specs.Chosen.{by_configured, by_shown, configured_instances, configured_of, groups_at, groups_in, is_meant_by, items_by, meant_items, running_instances, running_of, shown_instances, shown_of};
ghost use Rattle.smf_show.specs.TableRows.{by_row, row_of_item, table_rows};

use crate::row::{DatedChronicle, TableRow, row_of};
use crate::shown::{Configured, Shown};
use smf_admin::{is_named, patterns_of};
use smf_fmri::{InstanceFmri, Items, Ordered, Pattern, Text};
use smf_model::{Journal, Plain, Snapshot};
use smf_state::ViewItem;
use smf_value::Group;
use std::alloc::{AllocError, Global};

fn is_meant_by(is_all: bool, patterns: &[Pattern], name: &InstanceFmri) -> bool
    ensures { result ≡ is_meant_by is_all patterns.now name.now }
{
    is_all || is_named(patterns, name)
}

fn shown_of(item: &ViewItem) -> Result<Shown, AllocError>
    ensures { IfOk result (λ shown. shown ≡ shown_of item.now) }
{
    let name = item.name.clone()?;
    let restarter = item.row.owner.clone()?;
    Ok(Shown {
        name,
        enabled: item.enabled,
        state: item.row.state,
        next: item.row.next,
        restarter,
    })
}

/// The items that are meant.
fn items_by(
    alloc: Global,
    is_all: bool,
    patterns: &[Pattern],
    items: &[ViewItem],
) -> Result<Items<ViewItem>, AllocError>
    ensures { IfOk result (λ kept. kept ≡ items_by is_all patterns.now items.now) }
{
    let mut kept = Items::new(alloc);
    for item in items {
        if is_meant_by(is_all, patterns, &item.name) {
            kept.push(item.clone()?)?;
        }
    }
    Ok(kept)
}

/// What is seen of the instances that words mean, in number order.
fn meant_items<J: Journal>(
    alloc: Global,
    repository: &Plain<J>,
    words: &[Text],
) -> Result<Items<ViewItem>, AllocError>
    ensures { IfOk result (λ items. items ≡ meant_items repository.now.held words.now) }
{
    let patterns = patterns_of(alloc, words)?;
    let items = repository.rows()?;
    items_by(
        alloc,
        words.is_empty(),
        patterns.as_slice(),
        items.as_slice(),
    )
}

/// Instances in the byte order of their names.
fn shown_by_name(alloc: Global, items: &[ViewItem]) -> Result<Ordered<Shown>, AllocError>
    ensures { IfOk result (λ all. all ≡ put_all by_shown (map shown_of items.now) []) }
{
    let mut all = Ordered::new(alloc);
    for item in items {
        all.put(shown_of(item)?)?;
    }
    Ok(all)
}

/// The instances that one of the words matches, or all without words, in the byte order of their names.
#[tactic(auto, unfolding(crate::specs::Chosen::shown_instances))]
pub fn shown_instances<J: Journal>(
    alloc: Global,
    repository: &Plain<J>,
    words: &[Text],
) -> Result<Ordered<Shown>, AllocError>
    ensures { IfOk result (λ all. all ≡ shown_instances repository.now.held words.now) }
{
    let items = meant_items(alloc, repository, words)?;
    shown_by_name(alloc, items.as_slice())
}

/// The row of an instance in a table.
fn row_of_item(
    alloc: Global,
    chronicle: &DatedChronicle,
    item: &ViewItem,
) -> Result<TableRow, AllocError>
    ensures { IfOk result (λ row. row ≡ row_of_item chronicle.now item.now) }
{
    row_of(alloc, chronicle, item.instance, shown_of(item)?)
}

/// Rows in the byte order of the names of their instances.
fn rows_by_name(
    alloc: Global,
    chronicle: &DatedChronicle,
    items: &[ViewItem],
) -> Result<Ordered<TableRow>, AllocError>
    ensures { IfOk result (λ all. all ≡ put_all by_row (map (row_of_item chronicle.now) items.now) []) }
{
    let mut all = Ordered::new(alloc);
    for item in items {
        all.put(row_of_item(alloc, chronicle, item)?)?;
    }
    Ok(all)
}

/// The rows of the same instances, in the byte order of their names.
#[tactic(auto, unfolding(crate::specs::TableRows::table_rows))]
pub fn table_rows<J: Journal>(
    alloc: Global,
    repository: &Plain<J>,
    words: &[Text],
    chronicle: &DatedChronicle,
) -> Result<Ordered<TableRow>, AllocError>
    ensures { IfOk result
        (λ all. all ≡ table_rows chronicle.now repository.now.held words.now) }
{
    let items = meant_items(alloc, repository, words)?;
    rows_by_name(alloc, chronicle, items.as_slice())
}

/// The groups of an instance.
fn groups_at<J: Journal>(
    alloc: Global,
    repository: &Plain<J>,
    number: u64,
) -> Result<Ordered<Group>, AllocError>
    ensures { IfOk result (λ groups. groups ≡ groups_at repository.now.held number) }
{
    match repository.composed_groups(number)? {
        None => Ok(Ordered::new(alloc)),
        Some(groups) => Ok(groups),
    }
}

fn configured_of<J: Journal>(
    alloc: Global,
    repository: &Plain<J>,
    item: &ViewItem,
) -> Result<Configured, AllocError>
    ensures { IfOk result (λ configured. configured ≡ configured_of repository.now.held item.now) }
{
    let shown = shown_of(item)?;
    let groups = groups_at(alloc, repository, item.instance)?;
    Ok(Configured { shown, groups })
}

fn configured_by_name<J: Journal>(
    alloc: Global,
    repository: &Plain<J>,
    items: &[ViewItem],
) -> Result<Ordered<Configured>, AllocError>
    ensures { IfOk result
        (λ all. all ≡ put_all by_configured (map (configured_of repository.now.held) items.now) []) }
{
    let mut all = Ordered::new(alloc);
    for item in items {
        all.put(configured_of(alloc, repository, item)?)?;
    }
    Ok(all)
}

/// The same instances with the groups that they have configured, in the byte order of their names.
#[tactic(auto, unfolding(crate::specs::Chosen::configured_instances))]
pub fn configured_instances<J: Journal>(
    alloc: Global,
    repository: &Plain<J>,
    words: &[Text],
) -> Result<Ordered<Configured>, AllocError>
    ensures { IfOk result (λ all. all ≡ configured_instances repository.now.held words.now) }
{
    let items = meant_items(alloc, repository, words)?;
    configured_by_name(alloc, repository, items.as_slice())
}

/// An instance's own groups over those of its service.
fn composed(service: Ordered<Group>, own: Ordered<Group>) -> Result<Ordered<Group>, AllocError>
    ensures { IfOk result (λ groups. groups ≡ composition own service) }
{
    let mut groups = service;
    for group in own.into_vec() {
        groups.put(group)?;
    }
    Ok(groups)
}

/// The snapshot of a number, if there is a number.
fn snapshot_of<J: Journal>(repository: &Plain<J>, number: Option<u64>) -> Option<&Snapshot>
    ensures { option_copied result ≡ named_snapshot repository.now.held number }
{
    match number {
        None => None,
        Some(number) => repository.snapshot(number),
    }
}

fn groups_in(alloc: Global, snapshot: Option<&Snapshot>) -> Result<Ordered<Group>, AllocError>
    ensures { IfOk result (λ groups. groups ≡ groups_in (option_copied snapshot.entry)) }
{
    match snapshot {
        None => Ok(Ordered::new(alloc)),
        Some(snapshot) => {
            let service = snapshot.service_groups.clone()?;
            let own = snapshot.instance_groups.clone()?;
            composed(service, own)
        }
    }
}

fn running_of<J: Journal>(
    alloc: Global,
    repository: &Plain<J>,
    item: &ViewItem,
) -> Result<Configured, AllocError>
    ensures { IfOk result (λ running. running ≡ running_of repository.now.held item.now) }
{
    let shown = shown_of(item)?;
    let groups = groups_in(alloc, snapshot_of(repository, item.row.running))?;
    Ok(Configured { shown, groups })
}

fn running_by_name<J: Journal>(
    alloc: Global,
    repository: &Plain<J>,
    items: &[ViewItem],
) -> Result<Ordered<Configured>, AllocError>
    ensures { IfOk result
        (λ all. all ≡ put_all by_configured (map (running_of repository.now.held) items.now) []) }
{
    let mut all = Ordered::new(alloc);
    for item in items {
        all.put(running_of(alloc, repository, item)?)?;
    }
    Ok(all)
}

/// The same instances with the groups of their snapshots `running`, in the byte order of their names.
#[tactic(auto, unfolding(crate::specs::Chosen::running_instances))]
pub fn running_instances<J: Journal>(
    alloc: Global,
    repository: &Plain<J>,
    words: &[Text],
) -> Result<Ordered<Configured>, AllocError>
    ensures { IfOk result (λ all. all ≡ running_instances repository.now.held words.now) }
{
    let items = meant_items(alloc, repository, words)?;
    running_by_name(alloc, repository, items.as_slice())
}
