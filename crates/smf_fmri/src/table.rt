ghost use Rattle.std.specs.Fn.{CalledAt};
ghost use Rattle.std.specs.List.Retain.{IsFiltered};
ghost use Rattle.std.specs.Option.{option_copied};
ghost use Rattle.std.specs.Prelude.{◌≡◌, ◌↔◌, ◌+◌, ◌<◌, ◌≤◌, [], length, IsTrue, OnOk};
ghost use Rattle.smf_fmri.specs.ByKey.{Rises, amend, by_text, lookup, list_with_item, without};

use crate::keyed::{ExactClone, HasPart, Keyed, TextKeyed};
use crate::ordered::{Ordered, copy_of_items};
use crate::sorted::{amend_in, find_in, find_text_in, put_in, take_from};
use std::alloc::{AllocError, Global};
use std::marker::Model;

/// A list in the order of its keys, with room that is made beforehand, so that a put cannot fail. Contracts see the
/// items and the room.
#[derive(Drop)]
pub struct Table<T: Keyed> {
    items: Vec<T>,
}

impl<T: Keyed> Model for Table<T> {
    ghost use Rattle.std.specs.Prelude.{◌-◌, vec_len, vec_capacity};
    ghost use Rattle.smf_fmri.specs.ByKey.{WithRoom, Rises};

    ghost Value = { WithRoom T };

    ghost view = { λ t. record { items = t.items.items; room = vec_capacity t.items - vec_len t.items } };

    ghost invariant = { λ t. Rises T.by t.items.items };
}

impl<T: Keyed> Table<T> {
    /// A list of nothing, with no room.
    pub fn new(alloc: Global) -> Self
        ensures { result.items ≡ [] }
    {
        Table {
            items: Vec::new(alloc),
        }
    }

    /// The items of an ordered list.
    pub fn from_ordered(items: Ordered<T>) -> Self
        ensures { result.items ≡ items }
    {
        Table {
            items: items.into_vec(),
        }
    }

    pub fn len(&self) -> usize
        ensures { result ≡ length self.now.items }
    {
        self.items.len()
    }

    pub fn is_empty(&self) -> bool
        ensures { IsTrue result ↔ (self.now.items ≡ []) }
    {
        self.items.is_empty()
    }

    /// The items, in order.
    pub fn as_slice(&self) -> &[T]
        ensures all { result.now ≡ self.now.items }
        ensures rises { Rises T.by self.now.items }
    {
        self.items.as_slice()
    }

    /// The item that has the key.
    pub fn get(&self, key: &T::Key) -> Option<&T>
        ensures { option_copied result ≡ lookup T.by self.now.items key.now }
    {
        find_in(&self.items, key)
    }

    /// The item that has the text as its key.
    pub fn get_text(&self, text: &str) -> Option<&T>
    where
        T: TextKeyed,
        ensures { option_copied result ≡ lookup (by_text T.text) self.now.items text.now }
    {
        find_text_in(&self.items, text)
    }

    /// Makes room for so many more. If memory runs out, the list is as it was.
    pub fn reserve(&mut self, more: usize) -> Result<(), AllocError>
        ensures items { self.new.items ≡ self.old.items }
        ensures room { OnOk result (more ≤ self.new.room) }
    {
        self.items.reserve(more)?;
        Ok(())
    }

    /// Puts an item in its place, over the one that has its key. There is room for it.
    #[tactic(auto, using(crate::proofs::KeyOrder::rises_put))]
    pub fn put(&mut self, item: T)
    where
        T: Drop,
        requires { 0 < self.old.room }
        ensures put { self.new.items ≡ list_with_item T.by item self.old.items }
        ensures room { self.old.room ≤ self.new.room + 1 }
    {
        put_in(&mut self.items, item);
    }

    /// Takes out the item that has the key, if there is one.
    #[tactic(auto, using(crate::proofs::KeyOrder::rises_without))]
    pub fn remove(&mut self, key: &T::Key)
    where
        T: Drop,
        ensures removed { self.new.items ≡ without T.by key.now self.old.items }
        ensures room { self.old.room ≤ self.new.room }
    {
        take_from(&mut self.items, key);
    }

    /// Keeps the items that pass the test.
    pub fn retain<F: FnMut(&T) -> bool>(&mut self, keep: F)
    where
        T: Drop,
        requires { F.IsAlwaysCallable keep }
        ensures filtered { IsFiltered (CalledAt F.FnMut) keep self.old.items self.new.items }
        ensures room { self.old.room ≤ self.new.room }
    {
        self.items.retain(keep);
    }

    /// Gives a part to the item that has the key, if there is one.
    pub fn amend(&mut self, key: &T::Key, part: T::Part)
    where
        T: HasPart + Drop,
        ensures amend { self.new.items ≡ amend T.by key.now (λ x. T.with_part x part) self.old.items }
        ensures room { self.old.room ≤ self.new.room }
    {
        amend_in(&mut self.items, key, part);
    }
}

impl<T: Keyed + ExactClone> Clone for Table<T> {
    ghost is_clone = { λ s copy. copy.items ≡ s.items };

    fn clone(&self) -> Result<Table<T>, AllocError> {
        let items = copy_of_items(&self.items)?;
        Ok(Table { items })
    }
}
