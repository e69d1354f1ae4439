ghost use Rattle.std.specs.Fn.{CalledAt};
ghost use Rattle.std.specs.List.Retain.{IsFiltered};
ghost use Rattle.std.specs.Option.{option_copied};
ghost use Rattle.std.specs.Prelude.{◌≡◌, ◌↔◌, [], length, IsTrue, IfOk, OnOk, OnErr};
ghost use Rattle.smf_fmri.specs.ByKey.{Rises, amend, by_text, lookup, list_with_item, without};

use crate::keyed::{ExactClone, HasPart, Keyed, TextKeyed};
use crate::sorted::{amend_in, find_in, find_text_in, put_in, take_from};
use std::alloc::{AllocError, Global};
use std::marker::Model;

/// A list in the order of its keys, each of which comes once. Contracts see it as a list.
#[derive(Drop)]
pub struct Ordered<T: Keyed> {
    items: Vec<T>,
}

impl<T: Keyed> Model for Ordered<T> {
    ghost use Rattle.std.specs.Prelude.{List};
    ghost use Rattle.smf_fmri.specs.ByKey.{Rises};

    ghost Value = { List T };

    ghost view = { λ t. t.items.items };

    ghost invariant = { λ t. Rises T.by t.items.items };
}

impl<T: Keyed> Ordered<T> {
    /// A list of nothing.
    pub fn new(alloc: Global) -> Self
        ensures { result ≡ [] }
    {
        Ordered {
            items: Vec::new(alloc),
        }
    }

    /// A list of items that are known to stand in order.
    pub fn from_vec(items: Vec<T>) -> Self
        requires { Rises T.by items.items }
        ensures { result ≡ items.items }
    {
        Ordered { items }
    }

    /// The items, in order.
    pub fn into_vec(self) -> Vec<T>
        ensures all { result.items ≡ self }
        ensures rises { Rises T.by self }
    {
        self.items
    }

    pub fn len(&self) -> usize
        ensures { result ≡ length self.now }
    {
        self.items.len()
    }

    pub fn is_empty(&self) -> bool
        ensures { IsTrue result ↔ (self.now ≡ []) }
    {
        self.items.is_empty()
    }

    /// The items, in order.
    pub fn as_slice(&self) -> &[T]
        ensures all { result.now ≡ self.now }
        ensures rises { Rises T.by self.now }
    {
        self.items.as_slice()
    }

    /// The item that has the key.
    pub fn get(&self, key: &T::Key) -> Option<&T>
        ensures { option_copied result ≡ lookup T.by self.now key.now }
    {
        find_in(&self.items, key)
    }

    /// The item that has the text as its key.
    pub fn get_text(&self, text: &str) -> Option<&T>
    where
        T: TextKeyed,
        ensures { option_copied result ≡ lookup (by_text T.text) self.now text.now }
    {
        find_text_in(&self.items, text)
    }

    /// Puts an item in its place, over the one that has its key. If memory runs out, the list is as it was.
    #[tactic(auto, using(crate::proofs::KeyOrder::rises_put))]
    pub fn put(&mut self, item: T) -> Result<(), AllocError>
    where
        T: Drop,
        ensures ok { OnOk result (self.new ≡ list_with_item T.by item self.old) }
        ensures err { OnErr result (self.new ≡ self.old) }
    {
        self.items.reserve(1)?;
        put_in(&mut self.items, item);
        Ok(())
    }

    /// Takes out the item that has the key, if there is one.
    #[tactic(auto, using(crate::proofs::KeyOrder::rises_without))]
    pub fn remove(&mut self, key: &T::Key)
    where
        T: Drop,
        ensures { self.new ≡ without T.by key.now self.old }
    {
        take_from(&mut self.items, key);
    }

    /// Keeps the items that pass the test.
    pub fn retain<F: FnMut(&T) -> bool>(&mut self, keep: F)
    where
        T: Drop,
        requires { F.IsAlwaysCallable keep }
        ensures filtered { IsFiltered (CalledAt F.FnMut) keep self.old self.new }
    {
        self.items.retain(keep);
    }

    /// Gives a part to the item that has the key, if there is one.
    pub fn amend(&mut self, key: &T::Key, part: T::Part)
    where
        T: HasPart + Drop,
        ensures amend { self.new ≡ amend T.by key.now (λ x. T.with_part x part) self.old }
    {
        amend_in(&mut self.items, key, part);
    }
}

impl<T: Keyed + ExactClone> Clone for Ordered<T> {
    ghost is_clone = { λ s copy. copy ≡ s };

    fn clone(&self) -> Result<Ordered<T>, AllocError> {
        let items = copy_of_items(&self.items)?;
        Ok(Ordered { items })
    }
}

#[tactic(auto, using(crate::proofs::Copies::same_items))]
pub(crate) fn copy_of_items<T: ExactClone>(items: &Vec<T>) -> Result<Vec<T>, AllocError>
    ensures { IfOk result (λ copy. copy.items ≡ items.now.items) }
{
    items.clone()
}
