ghost use Rattle.std.specs.Option.{option_copied};
ghost use Rattle.std.specs.Prelude.{◌≡◌, length, IfOk};
ghost use Rattle.smf_fmri.specs.ByKey.{Rises, lookup};

use crate::keyed::{ExactClone, Keyed};
use crate::ordered::Ordered;
use std::alloc::{AllocError, Global};
use std::marker::Model;
use std::rc::Rc;

/// A list in the order of its keys that is not changed any more, which contracts see as one. A copy of it takes no memory.
/// It fails only if there are as many copies as can be counted.
#[derive(Drop)]
pub struct SharedOrdered<T: Keyed> {
    items: Rc<Ordered<T>>,
}

impl<T: Keyed> Model for SharedOrdered<T> {
    ghost use Rattle.std.specs.Prelude.{List};

    ghost Value = { List T };

    ghost view = { λ s. s.items.value };
}

impl<T: Keyed + Drop> SharedOrdered<T> {
    pub fn of(alloc: Global, items: Ordered<T>) -> Result<SharedOrdered<T>, AllocError>
        ensures { IfOk result (λ s. s ≡ items) }
    {
        match Rc::new(alloc, items) {
            Ok(items) => Ok(SharedOrdered { items }),
            Err(_items) => Err(AllocError),
        }
    }

    /// The items, in order.
    pub fn as_slice(&self) -> &[T]
        ensures all { result.now ≡ self.now }
        ensures rises { Rises T.by self.now }
    {
        self.items.as_slice()
    }

    pub fn len(&self) -> usize
        ensures { result ≡ length self.now }
    {
        self.items.len()
    }

    /// The item that has the key.
    pub fn get(&self, key: &T::Key) -> Option<&T>
        ensures { option_copied result ≡ lookup T.by self.now key.now }
    {
        self.items.get(key)
    }

    /// A copy that can be changed.
    pub fn to_ordered(&self) -> Result<Ordered<T>, AllocError>
    where
        T: ExactClone,
        ensures { IfOk result (λ items. items ≡ self.now) }
    {
        let items: &Ordered<T> = &self.items;
        items.clone()
    }
}

impl<T: Keyed + Drop> Clone for SharedOrdered<T> {
    ghost is_clone = { λ s copy. copy ≡ s };

    fn clone(&self) -> Result<SharedOrdered<T>, AllocError> {
        let items = self.items.clone()?;
        Ok(SharedOrdered { items })
    }
}
