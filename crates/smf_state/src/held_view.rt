ghost use Rattle.std.specs.Option.{option_copied};
ghost use Rattle.std.specs.Prelude.{◌≡◌, ◌+◌, ◌<◌, ◌≤◌, IfOk, None, OnErr, OnOk, vec_len};
ghost use Rattle.smf_fmri.specs.ByKey.{Rises, lookup};
ghost use Rattle.smf_state.specs.Patched.{by_item, items_held, view_after_changes, with_item, with_items};

use crate::view::{ChangedItem, View, ViewItem};
use smf_fmri::{SharedOrdered, Table};
use std::alloc::{AllocError, Global};
use std::marker::Model;

/// A view that is brought up to date in place. Its items are copied once, before the first change, if others share them.
#[derive(Drop)]
pub struct HeldView {
    revision: u64,
    /// The items as they came, until something changes.
    shared: Option<SharedOrdered<ViewItem>>,
    own: Table<ViewItem>,
}

impl Model for HeldView {
    ghost use Rattle.smf_state.specs.declared.view.View.{View as AnyView};
    ghost use Rattle.smf_state.specs.Patched.{items_held};

    ghost Value = { AnyView };

    ghost view = { λ h. record { revision = h.revision; items = items_held h.shared h.own } };
}

impl HeldView {
    /// A view as it came.
    pub fn of(alloc: Global, view: View) -> HeldView
        ensures { result ≡ view }
    {
        HeldView {
            revision: view.revision,
            shared: Some(view.items),
            own: Table::new(alloc),
        }
    }

    pub fn revision(&self) -> u64
        ensures { result ≡ self.now.revision }
    {
        self.revision
    }

    /// The items, in number order.
    pub fn items(&self) -> &[ViewItem]
        ensures all { result.now ≡ self.now.items }
        ensures rises { Rises by_item self.now.items }
    {
        match &self.shared {
            None => self.own.as_slice(),
            Some(shared) => shared.as_slice(),
        }
    }

    /// The item of an instance.
    pub fn item(&self, instance: u64) -> Option<&ViewItem>
        ensures { option_copied result ≡ lookup by_item self.now.items instance }
    {
        match &self.shared {
            None => self.own.get(&instance),
            Some(shared) => shared.get(&instance),
        }
    }

    /// Puts each changed item in its place, or takes it out. The view is then that of another revision. If memory runs
    /// out, it is as it was.
    #[tactic(auto, unfolding(crate::specs::Patched::view_after_changes))]
    pub fn patch(
        &mut self,
        alloc: Global,
        to: u64,
        changes: &[ChangedItem],
    ) -> Result<(), AllocError>
        ensures ok { OnOk result (self.new ≡ view_after_changes self.old to changes.now) }
        ensures err { OnErr result (self.new ≡ self.old) }
    {
        let copies = copies_of(alloc, changes)?;
        own_items(&mut self.shared, &mut self.own)?;
        self.own.reserve(changes.len())?;
        put_all(&mut self.own, copies);
        self.revision = to;
        Ok(())
    }
}

fn copies_of(alloc: Global, changes: &[ChangedItem]) -> Result<Vec<ChangedItem>, AllocError>
    ensures { IfOk result (λ copies. copies.items ≡ changes.now) }
{
    changes.to_vec(alloc)
}

/// Copies the items if others share them. If memory runs out, nothing is changed.
fn own_items(
    shared: &mut Option<SharedOrdered<ViewItem>>,
    own: &mut Table<ViewItem>,
) -> Result<(), AllocError>
    ensures held { items_held shared.new own.new ≡ items_held shared.old own.old }
    ensures own { OnOk result (shared.new ≡ None) }
{
    if let Some(items) = &*shared {
        *own = Table::from_ordered(items.to_ordered()?);
        *shared = None;
    }
    Ok(())
}

/// Makes one change after another. There is room for all.
fn put_all(own: &mut Table<ViewItem>, changes: Vec<ChangedItem>)
    requires { vec_len changes ≤ own.old.room }
    ensures { own.new.items ≡ with_items changes.items own.old.items }
{
    for change in changes {
        put_one(own, change);
    }
}

/// Puts an item in its place, or takes it out. There is room for it.
fn put_one(own: &mut Table<ViewItem>, change: ChangedItem)
    requires { 0 < own.old.room }
    ensures items { own.new.items ≡ with_item change.instance change.item own.old.items }
    ensures room { own.old.room ≤ own.new.room + 1 }
{
    match change.item {
        None => own.remove(&change.instance),
        Some(item) => own.put(item),
    }
}
