ghost use Rattle.std.specs.Prelude.{◌≡◌, IfOk, refl};
ghost use Rattle.smf_state.specs.Patched.{by_item};

use crate::shared_row::SharedRow;
use smf_fmri::{Bytes, ExactClone, InstanceFmri, Keyed, SharedOrdered};
use std::alloc::AllocError;

/// An instance, as svc.startd's graph sees it.
#[derive(Drop)]
pub struct ViewItem {
    pub instance: u64,
    pub name: InstanceFmri,
    pub enabled: bool,
    /// True if the instance's restarter property could be read.
    pub readable: bool,
    pub row: SharedRow,
    /// The body of the running snapshot, if there is one.
    pub body: Option<Bytes>,
}

impl Keyed for ViewItem {
    type Key = u64;

    ghost by = { by_item };

    fn key(&self) -> &u64 {
        &self.instance
    }

    ghost same = { refl };
}

impl Clone for ViewItem {
    ghost is_clone = { λ s copy. copy ≡ s };

    fn clone(&self) -> Result<ViewItem, AllocError> {
        let name = self.name.clone()?;
        let row = self.row.clone()?;
        let body = copy_of(&self.body)?;
        Ok(ViewItem {
            instance: self.instance,
            name,
            enabled: self.enabled,
            readable: self.readable,
            row,
            body,
        })
    }
}

impl ExactClone for ViewItem {
    ghost exact = { λ item copy same. same };
}

fn copy_of(body: &Option<Bytes>) -> Result<Option<Bytes>, AllocError>
    ensures { IfOk result (λ copy. copy ≡ body.now) }
{
    match body {
        None => Ok(None),
        Some(bytes) => Ok(Some(bytes.clone()?)),
    }
}

/// The repository, as svc.startd's graph sees it.
#[derive(Drop)]
pub struct View {
    /// How many commands the repository had accepted. In a message it is any number.
    pub revision: u64,
    /// One for each instance, in number order.
    pub items: SharedOrdered<ViewItem>,
}

impl Clone for View {
    ghost is_clone = { λ s copy. copy ≡ s };

    fn clone(&self) -> Result<View, AllocError> {
        let items = self.items.clone()?;
        Ok(View {
            revision: self.revision,
            items,
        })
    }
}

/// An instance of which svc.startd's graph sees something else than before.
#[derive(Drop)]
pub struct ChangedItem {
    pub instance: u64,
    /// The item of today; none if the instance is gone.
    pub item: Option<ViewItem>,
}

impl Clone for ChangedItem {
    ghost is_clone = { λ s copy. copy ≡ s };

    fn clone(&self) -> Result<ChangedItem, AllocError> {
        let item = match &self.item {
            None => None,
            Some(item) => Some(item.clone()?),
        };
        Ok(ChangedItem {
            instance: self.instance,
            item,
        })
    }
}
