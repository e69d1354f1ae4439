//! What a server notices of instances that fail: their ends, the causes of maintenance, and retries.

ghost use Rattle.smf_watch.specs.Causes.{by_instance};
ghost use Rattle.smf_watch.specs.Loops.{hasty, is_kept, seen_by};
ghost use Rattle.smf_watch.specs.Remedies.{clears_of, marks_of};
ghost use Rattle.smf_watch.specs.Retries.{any_waits, owed, tried, with_marks};
ghost use Rattle.smf_watch.specs.Troubles.{noticed, noticed_after, noticed_at_first, retries_marked, tracked, tracked_item, tracked_items, tracked_of, tracked_row};
ghost use Rattle.std.specs.Prelude.{◌≡◌, ◌++◌, [], drop, filter, length, IfOk, OnOk};

use crate::bounds::bounds_of;
use crate::causes::{KnownRow, ShownRow, known_after};
use crate::ends::{End, drop_old, forget, hasty, push_ends};
use crate::last_start::failed_for_good;
use crate::remedies::{Remedy, remedies_of};
use crate::retries::{Retry, any_waits, owed, put_marks, put_retry, retry_after, retry_of, tried};
use smf_contract::ContractTable;
use smf_fmri::{Items, Ordered};
use smf_model::{Journal, Plain};
use smf_world::Item;
use std::alloc::{AllocError, Global};
use std::time::Duration;

/// What was noticed of instances that fail, and how many items of the trail were looked at for it.
#[derive(Drop)]
pub struct Troubles {
    pub looked: usize,
    /// The ends that were seen lately.
    pub ends: Vec<End>,
    /// The newest row of each instance that a trail showed.
    pub known: Ordered<KnownRow>,
    /// The instances that are tried again.
    pub retries: Vec<Retry>,
}

/// What a look finds: the instances that ended too often, each once, what is to be done about these and about those that
/// are tried again now, and what stands then.
#[derive(Drop)]
pub struct Found {
    pub numbers: Items<u64>,
    pub remedies: Vec<Remedy>,
    pub left: Troubles,
}

/// The newest rows, and what stands of the instances that are tried again.
#[derive(Drop)]
struct Tracked {
    known: Ordered<KnownRow>,
    retries: Vec<Retry>,
}

fn track_row<J: Journal>(
    repository: &Plain<J>,
    table: &ContractTable,
    now: Duration,
    instance: u64,
    row: ShownRow,
    into: &mut Tracked,
) -> Result<(), AllocError>
    ensures { OnOk result (tracked into.new
        ≡ tracked_row repository.now.held table.now.table now instance row (tracked into.old)) }
{
    let known = known_after(into.known.get(&instance), instance, row);
    let bounds = bounds_of(repository, instance);
    let fatal = failed_for_good(table, instance);
    let retry = retry_after(
        &bounds,
        now,
        fatal,
        retry_of(&into.retries, instance),
        &known,
    );
    into.known.put(known)?;
    put_retry(&mut into.retries, instance, retry)
}

fn track_item<J: Journal>(
    repository: &Plain<J>,
    table: &ContractTable,
    now: Duration,
    item: &Item,
    into: &mut Tracked,
) -> Result<(), AllocError>
    ensures { OnOk result (tracked into.new
        ≡ tracked_item repository.now.held table.now.table now item.now (tracked into.old)) }
{
    match item {
        Item::Committed {
            instance,
            number,
            state,
            next,
        } => track_row(
            repository,
            table,
            now,
            *instance,
            ShownRow {
                number: *number,
                state: *state,
                next: *next,
            },
            into,
        ),
        _ => Ok(()),
    }
}

fn track_items<J: Journal>(
    repository: &Plain<J>,
    table: &ContractTable,
    now: Duration,
    items: &[Item],
    into: &mut Tracked,
) -> Result<(), AllocError>
    ensures { OnOk result (tracked into.new
        ≡ tracked_items repository.now.held table.now.table now items.now (tracked into.old)) }
{
    for item in items {
        track_item(repository, table, now, item, into)?;
    }
    Ok(())
}

/// What a trail shows after so many items.
fn items_after(trail: &[Item], count: usize) -> &[Item]
    ensures { result.now ≡ drop count trail.now }
{
    &trail[count.min(trail.len())..]
}

impl Troubles {
    ghost use Rattle.std.specs.Prelude.{[]};

    /// Nothing was looked at yet, and these are tried again.
    pub fn new(alloc: Global, retries: Vec<Retry>) -> Troubles
        ensures looked { result.looked ≡ 0 }
        ensures noticed { noticed result ≡ noticed_at_first retries.items }
    {
        Troubles {
            looked: 0,
            ends: Vec::new(alloc),
            known: Ordered::new(alloc),
            retries,
        }
    }

    /// Whether an instance waits for a retry.
    pub fn any_waits(&self) -> bool
        ensures { result ≡ any_waits self.now.retries.items }
    {
        any_waits(&self.retries)
    }

    fn copy_of_known(&self, alloc: Global) -> Result<Ordered<KnownRow>, AllocError>
        ensures { IfOk result (λ known. known ≡ self.now.known) }
    {
        let rows = Vec::from_slice(alloc, self.known.as_slice())?;
        Ok(Ordered::from_vec(rows))
    }

    /// The newest rows, and the instances that are tried again, once a trail was looked at.
    fn track<J: Journal>(
        &self,
        alloc: Global,
        now: Duration,
        trail: &[Item],
        repository: &Plain<J>,
        table: &ContractTable,
    ) -> Result<Tracked, AllocError>
        ensures { IfOk result (λ t. tracked t ≡ tracked_items repository.now.held table.now.table now
            (drop self.now.looked trail.now) (tracked_of (noticed self.now))) }
    {
        let known = self.copy_of_known(alloc)?;
        let retries = Vec::from_slice(alloc, &self.retries)?;
        let mut tracked = Tracked { known, retries };
        track_items(
            repository,
            table,
            now,
            items_after(trail, self.looked),
            &mut tracked,
        )?;
        Ok(tracked)
    }

    /// The ends of the last periods, those that the trail shows anew among them.
    fn see<J: Journal>(
        &self,
        alloc: Global,
        now: Duration,
        trail: &[Item],
        repository: &Plain<J>,
    ) -> Result<Vec<End>, AllocError>
        ensures { IfOk result (λ ends. ends.items
            ≡ seen_by repository.now.held now trail.now self.now.looked self.now.ends.items) }
    {
        let mut seen = Vec::from_slice(alloc, &self.ends)?;
        drop_old(repository, &mut seen, now);
        if self.looked < trail.len() {
            let count = trail.len() - self.looked;
            push_ends(&mut seen, trail, now, self.looked, count)?;
        }
        Ok(seen)
    }

    /// Looks at the items of a trail that are new, by the bounds that stand in a repository and by how starts ended. Finds
    /// the instances that ended too often, whose ends are dropped, and those that are tried again now. Nothing is kept of a
    /// look that fails, or whose finding is let go.
    pub fn look<J: Journal>(
        &self,
        alloc: Global,
        now: Duration,
        trail: &[Item],
        repository: &Plain<J>,
        table: &ContractTable,
    ) -> Result<Found, AllocError>
        ensures numbers { IfOk result (λ found. found.numbers
            ≡ hasty repository.now.held (seen_by repository.now.held now trail.now self.now.looked self.now.ends.items)) }
        ensures remedies { IfOk result (λ found. found.remedies.items ≡ marks_of found.numbers
            ++ clears_of (owed repository.now.held now
            (retries_marked repository.now.held table.now.table now found.numbers (drop self.now.looked trail.now) (noticed self.now)))) }
        ensures looked { IfOk result (λ found. found.left.looked ≡ length trail.now) }
        ensures kept { IfOk result (λ found. noticed found.left
            ≡ noticed_after repository.now.held table.now.table now found.numbers trail.now self.now.looked (noticed self.now)) }
    {
        let mut seen = self.see(alloc, now, trail, repository)?;
        let numbers = hasty(alloc, repository, &seen)?;
        let Tracked { known, mut retries } = self.track(alloc, now, trail, repository, table)?;
        put_marks(repository, now, numbers.as_slice(), &mut retries)?;
        let owed = owed(alloc, repository, now, &retries)?;
        let remedies = remedies_of(alloc, numbers.as_slice(), owed.as_slice())?;
        let retries = tried(alloc, repository, now, &retries)?;
        forget(&mut seen, numbers.as_slice());
        Ok(Found {
            numbers,
            remedies,
            left: Troubles {
                looked: trail.len(),
                ends: seen,
                known,
                retries,
            },
        })
    }
}
