//! Vectors in the order of a key.

ghost use Rattle.std.specs.Cmp.Lexicographic.{slice_cmp};
ghost use Rattle.std.specs.Option.{option_copied};
ghost use Rattle.std.specs.Ordering.{nat_cmp};
ghost use Rattle.std.specs.Prelude.{◌≡◌, ◌+◌, ◌<◌, ◌≤◌, vec_len, vec_capacity};
ghost use Rattle.smf_fmri.specs.ByKey.{IsPlaced, Rises, amend, by_text, has_key, lookup, list_with_item, without};

use crate::keyed::{HasPart, Keyed, TextKeyed};
use std::cmp::Ordering;

fn compare<T: Keyed>(item: &T, key: &T::Key) -> Ordering
    ensures { result ≡ T.by.cmp (T.by.key item.now) key.now }
{
    item.key().cmp(key)
}

/// The place of the key, or else the place that it would have.
pub(crate) fn place_in<T: Keyed>(items: &[T], key: &T::Key) -> Result<usize, usize>
    requires { Rises T.by items.now }
    ensures { IsPlaced T.by key.now items.now result }
{
    items.binary_search_by(|item| compare(item, key))
}

pub(crate) fn find_in<'a, T: Keyed>(items: &'a [T], key: &T::Key) -> Option<&'a T>
    requires { Rises T.by items.now }
    ensures { option_copied result ≡ lookup T.by items.now key.now }
{
    match place_in(items, key) {
        Ok(at) => Some(&items[at]),
        Err(_) => None,
    }
}

fn compare_text<T: TextKeyed>(item: &T, text: &str) -> Ordering
    ensures { result ≡ slice_cmp nat_cmp (T.text item.now) text.now }
{
    item.key_text().cmp(text)
}

/// The place of the item that has the text as its key, or else the place that it would have.
fn place_of_text<T: TextKeyed>(items: &[T], text: &str) -> Result<usize, usize>
    requires { Rises (by_text T.text) items.now }
    ensures { IsPlaced (by_text T.text) text.now items.now result }
{
    items.binary_search_by(|item| compare_text(item, text))
}

/// Up to this many items, a search one after another finds a text sooner than a search by halves.
const FEW: usize = 8;

fn has_text<T: TextKeyed>(item: &T, text: &str) -> bool
    ensures { result ≡ has_key (by_text T.text) text.now item.now }
{
    item.key_text() == text
}

fn find_among_few<'a, T: TextKeyed>(items: &'a [T], text: &str) -> Option<&'a T>
    ensures { option_copied result ≡ lookup (by_text T.text) items.now text.now }
{
    items.iter().find(|item| has_text(*item, text))
}

pub(crate) fn find_text_in<'a, T: TextKeyed>(items: &'a [T], text: &str) -> Option<&'a T>
    requires { Rises (by_text T.text) items.now }
    ensures { option_copied result ≡ lookup (by_text T.text) items.now text.now }
{
    if items.len() <= FEW {
        find_among_few(items, text)
    } else {
        find_by_halves(items, text)
    }
}

fn find_by_halves<'a, T: TextKeyed>(items: &'a [T], text: &str) -> Option<&'a T>
    requires { Rises (by_text T.text) items.now }
    ensures { option_copied result ≡ lookup (by_text T.text) items.now text.now }
{
    match place_of_text(items, text) {
        Ok(at) => Some(&items[at]),
        Err(_) => None,
    }
}

/// Puts an item in its place, over the one that has its key. There is room for it.
pub(crate) fn put_in<T: Keyed + Drop>(items: &mut Vec<T>, item: T)
    requires rises { Rises T.by items.old.items }
    requires room { vec_len items.old < vec_capacity items.old }
    ensures put { items.new.items ≡ list_with_item T.by item items.old.items }
    ensures len { vec_len items.new ≤ vec_len items.old + 1 }
    ensures capacity { vec_capacity items.old ≤ vec_capacity items.new }
{
    match place_in(items, item.key()) {
        Ok(at) => items[at] = item,
        Err(at) => items.insert(at, item).unwrap(),
    }
}

/// Takes out the item that has the key.
pub(crate) fn take_from<T: Keyed + Drop>(items: &mut Vec<T>, key: &T::Key)
    requires { Rises T.by items.old.items }
    ensures removed { items.new.items ≡ without T.by key.now items.old.items }
    ensures len { vec_len items.new ≤ vec_len items.old }
    ensures capacity { vec_capacity items.old ≤ vec_capacity items.new }
{
    if let Ok(at) = place_in(items, key) {
        items.remove(at);
    }
}

/// Gives a part to the item that has the key.
pub(crate) fn amend_in<T: HasPart + Drop>(items: &mut Vec<T>, key: &T::Key, part: T::Part)
    requires { Rises T.by items.old.items }
    ensures amend { items.new.items ≡ amend T.by key.now (λ x. T.with_part x part) items.old.items }
    ensures len { vec_len items.new ≡ vec_len items.old }
    ensures capacity { vec_capacity items.new ≡ vec_capacity items.old }
{
    if let Ok(at) = place_in(items, key) {
        items[at].set_part(part);
    }
}
