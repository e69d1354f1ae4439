ghost use Rattle.std.specs.Option.{option_copied};
ghost use Rattle.std.specs.Prelude.{◌≡◌, ◌∷◌, [], ◌-◌, ◌<◌, ◌||◌, nat_lt, if◌then◌else◌, length, map, option_map, take};
ghost use Rattle.std.specs.Prelude.{IfOk, OnErr, OnOk, Some, None, vec_len, vec_capacity};
ghost use Rattle.smf_model.specs.Look.{holdings_after_changes};
ghost use Rattle.smf_state.specs.Patched.{view_after_changes};
ghost use Rattle.smf_changes.specs.Changes.{as_it_is, changes_since, most_recent};
ghost use Rattle.smf_changes.specs.ChangeRecord.{AreUpTo, IsKept, lists_of};
ghost use Rattle.smf_changes.specs.Owned.{AreTold};
ghost use Rattle.smf_changes.specs.Recorded.{newest, old_items, settled_view, with_stale};

use crate::candidates::all_candidates;
use crate::lists::{items_of, newest_together, touched_by};
use crate::row_owners::Owners;
use crate::snapshot_bounds::greatest_of;
use smf_fmri::Items;
use smf_fmri::limits::MOST_RECENT;
use smf_model::{Change, Journal, Plain};
use smf_state::{ChangedItem, HeldView};
use std::alloc::{AllocError, Global};

/// The record of the newest changes.
pub(crate) struct Kept {
    /// The numbers of the instances that each of the newest commits touched, newest first.
    pub(crate) recent: Vec<Items<u64>>,
    /// The items before the newest commit of all that it may have touched, until its list is worked out of them.
    pub(crate) stale: Option<Items<ChangedItem>>,
    /// The view before that commit, if it was asked to be kept.
    pub(crate) shown: Option<HeldView>,
    /// No row names a snapshot above it as `running`, so no row waits for one above it.
    pub(crate) greatest_running: u64,
    /// The owners of all rows, as far as they are known.
    pub(crate) owners: Owners,
}

/// Crates above call this, and prove nothing of the parts that go.
impl Drop for Kept {
    fn drop(self) {
        let Kept {
            recent: _recent,
            stale: _stale,
            shown: _shown,
            greatest_running: _greatest_running,
            owners: _owners,
        } = self;
    }
}

/// Brings a view that is kept up to date. If memory runs out it is as it was.
fn patch_shown<J: Journal>(
    shown: &mut Option<HeldView>,
    alloc: Global,
    plain: &Plain<J>,
    touched: &[u64],
) -> Result<(), AllocError>
    ensures ok { OnOk result
        (shown.new ≡ option_map
        (λ v. view_after_changes v plain.now.held.revision (map (as_it_is plain.now.held) touched.now)) shown.old) }
    ensures err { OnErr result (shown.new ≡ shown.old) }
{
    let Some(view) = shown else {
        return Ok(());
    };
    let items = items_of(alloc, plain, touched)?;
    view.patch(alloc, plain.revision().get(), items.as_slice())
}

/// Puts a list before the others, and drops the oldest if they are too many. There is room for it.
fn put_newest(recent: &mut Vec<Items<u64>>, newest: Items<u64>)
    requires { vec_len recent.old < vec_capacity recent.old }
    ensures { recent.new.items ≡ take most_recent (newest ∷ recent.old.items) }
{
    recent.insert(0, newest).unwrap();
    recent.truncate(MOST_RECENT);
}

/// Counts the lists that were made since a revision, if all of them are kept.
fn lists_since(revision: u64, from: u64, kept: usize) -> Option<usize>
    ensures { result
        ≡ (if nat_lt revision from || nat_lt kept (revision - from) then None else Some (revision - from)) }
{
    if revision < from {
        return None;
    }
    let count = (revision - from) as usize;
    if kept < count {
        return None;
    }
    Some(count)
}

impl Kept {
    /// Nothing is recorded.
    pub(crate) fn over<J: Journal>(alloc: Global, plain: &Plain<J>) -> Kept
        ensures recent { result.recent.items ≡ [] }
        ensures stale { result.stale ≡ None }
        ensures shown { result.shown ≡ None }
        ensures runs { AreUpTo result.greatest_running plain.now.held.instances }
        ensures told { AreTold result.owners plain.now.held.instances }
    {
        let greatest_running = greatest_of(plain.entries());
        Kept {
            recent: Vec::new(alloc),
            stale: None,
            shown: None,
            greatest_running,
            owners: Owners::unknown(),
        }
    }

    /// Works out the newest list, if it is still to be worked out.
    fn settle<J: Journal>(&mut self, alloc: Global, plain: &Plain<J>) -> Result<(), AllocError>
        requires { IsKept self.old plain.now.held }
        ensures kept { IsKept self.new plain.now.held }
        ensures lists { lists_of self.new plain.now.held ≡ lists_of self.old plain.now.held }
        ensures settled { OnOk result (self.new.stale ≡ None) }
    {
        let Some(olds) = &self.stale else {
            return Ok(());
        };
        let touched = touched_by(alloc, plain, olds.as_slice())?;
        self.recent.reserve(1)?;
        patch_shown(&mut self.shown, alloc, plain, touched.as_slice())?;
        put_newest(&mut self.recent, touched);
        self.stale = None;
        Ok(())
    }

    /// The items of all that changes may touch, before they are made. Notes the owners that they put, after it has worked
    /// out the newest list.
    pub(crate) fn prepare<J: Journal>(
        &mut self,
        alloc: Global,
        plain: &Plain<J>,
        changes: &[Change],
    ) -> Result<Items<ChangedItem>, AllocError>
        requires { IsKept self.old plain.now.held }
        ensures kept { IsKept self.new plain.now.held }
        ensures lists { lists_of self.new plain.now.held ≡ lists_of self.old plain.now.held }
        ensures settled { OnOk result (self.new.stale ≡ None) }
        ensures olds { IfOk result (λ olds. olds ≡ old_items plain.now.held changes.now) }
        ensures told { OnOk result
            (AreTold self.new.owners (holdings_after_changes plain.now.held changes.now).instances) }
    {
        self.settle(alloc, plain)?;
        let olds = old_items(alloc, plain, self.greatest_running, changes)?;
        self.owners.note(changes);
        Ok(olds)
    }

    /// Keeps the view, brought up to date, and finds the owners of rows if they are not known.
    pub(crate) fn keep_view<J: Journal>(
        &mut self,
        alloc: Global,
        plain: &Plain<J>,
    ) -> Result<(), AllocError>
        requires { IsKept self.old plain.now.held }
        ensures kept { IsKept self.new plain.now.held }
        ensures lists { lists_of self.new plain.now.held ≡ lists_of self.old plain.now.held }
    {
        self.settle(alloc, plain)?;
        self.owners.find(alloc, plain.entries())?;
        if self.shown.is_none() {
            let view = plain.view()?;
            self.shown = Some(HeldView::of(alloc, view));
        }
        Ok(())
    }

    /// The view that is kept, if it is up to date.
    pub(crate) fn up_to_date(&self) -> Option<&HeldView>
        ensures { option_copied result ≡ settled_view self.now.stale self.now.shown }
    {
        if self.stale.is_some() {
            return None;
        }
        self.shown.as_ref()
    }

    /// The newest list, if it is still to be worked out.
    fn newest<J: Journal>(
        &self,
        alloc: Global,
        plain: &Plain<J>,
    ) -> Result<Option<Items<u64>>, AllocError>
        ensures { IfOk result (λ ns. ns ≡ newest plain.now.held self.now.stale) }
    {
        match &self.stale {
            None => Ok(None),
            Some(olds) => {
                let touched = touched_by(alloc, plain, olds.as_slice())?;
                Ok(Some(touched))
            }
        }
    }

    /// The revision of today, and the items of today of all that was touched since another.
    #[tactic(auto, unfolding(crate::specs::Changes::changes_since))]
    pub(crate) fn since<J: Journal>(
        &self,
        alloc: Global,
        plain: &Plain<J>,
        from: u64,
    ) -> Result<Option<(u64, Items<ChangedItem>)>, AllocError>
        ensures { IfOk result (λ c. c ≡ changes_since (lists_of self.now plain.now.held) plain.now.held from) }
    {
        let newest = self.newest(alloc, plain)?;
        let revision = plain.revision().get();
        let Some(count) = lists_since(revision, from, lists_kept(&newest, &self.recent)) else {
            return Ok(None);
        };
        let numbers = newest_together(alloc, &newest, &self.recent, count)?;
        let items = items_of(alloc, plain, numbers.as_slice())?;
        Ok(Some((revision, items)))
    }
}

/// Counts the lists, with the newest.
fn lists_kept(newest: &Option<Items<u64>>, older: &[Items<u64>]) -> usize
    ensures { result ≡ length (with_stale newest.now older.now) }
{
    match newest {
        None => older.len(),
        Some(_) if older.len() < MOST_RECENT => older.len() + 1,
        Some(_) => MOST_RECENT,
    }
}

/// The items of all that changes may touch.
#[tactic(auto, unfolding(crate::specs::Recorded::old_items))]
fn old_items<J: Journal>(
    alloc: Global,
    plain: &Plain<J>,
    top: u64,
    changes: &[Change],
) -> Result<Items<ChangedItem>, AllocError>
    requires { AreUpTo top plain.now.held.instances }
    ensures { IfOk result (λ olds. olds ≡ old_items plain.now.held changes.now) }
{
    let numbers = all_candidates(alloc, plain, top, changes)?;
    items_of(alloc, plain, numbers.as_slice())
}
