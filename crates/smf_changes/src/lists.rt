ghost use Rattle.std.specs.Prelude.{◌≡◌, ◌≤◌, map, take, length, IfOk, OnOk};
ghost use Rattle.smf_fmri.specs.ByKey.{put_all};
ghost use Rattle.smf_changes.specs.Changes.{as_it_is, by_itself, item, together};
ghost use Rattle.smf_changes.specs.Recorded.{differs, touched_by, with_stale};

use crate::same::are_same_items;
use smf_fmri::{Items, Ordered};
use smf_model::{Journal, Plain};
use smf_state::{ChangedItem, ViewItem};
use std::alloc::{AllocError, Global};

/// Puts numbers in their places among others.
pub(crate) fn put_numbers(all: &mut Ordered<u64>, numbers: &[u64]) -> Result<(), AllocError>
    ensures { OnOk result (all.new ≡ put_all by_itself numbers.now all.old) }
{
    for number in numbers {
        all.put(*number)?;
    }
    Ok(())
}

/// The item of today of an instance.
#[tactic(auto, using(crate::proofs::Merges::item_at))]
fn item_of<J: Journal>(plain: &Plain<J>, number: u64) -> Result<Option<ViewItem>, AllocError>
    ensures { IfOk result (λ i. i ≡ item plain.now.held number) }
{
    plain.view_item(number)
}

fn as_it_is<J: Journal>(plain: &Plain<J>, number: u64) -> Result<ChangedItem, AllocError>
    ensures { IfOk result (λ c. c ≡ as_it_is plain.now.held number) }
{
    let item = item_of(plain, number)?;
    Ok(ChangedItem {
        instance: number,
        item,
    })
}

/// The items of today of instances.
pub(crate) fn items_of<J: Journal>(
    alloc: Global,
    plain: &Plain<J>,
    numbers: &[u64],
) -> Result<Items<ChangedItem>, AllocError>
    ensures { IfOk result (λ all. all ≡ map (as_it_is plain.now.held) numbers.now) }
{
    let mut all = Items::new(alloc);
    for number in numbers {
        all.push(as_it_is(plain, *number)?)?;
    }
    Ok(all)
}

/// An item is no longer as it was.
fn differs<J: Journal>(plain: &Plain<J>, old: &ChangedItem) -> Result<bool, AllocError>
    ensures { IfOk result (λ b. b ≡ differs plain.now.held old.now) }
{
    let number = old.instance;
    let item = item_of(plain, number)?;
    Ok(!are_same_items(&old.item, &item))
}

/// The numbers of the items that are no longer as they were.
pub(crate) fn touched_by<J: Journal>(
    alloc: Global,
    plain: &Plain<J>,
    olds: &[ChangedItem],
) -> Result<Items<u64>, AllocError>
    ensures { IfOk result (λ ns. ns ≡ touched_by plain.now.held olds.now) }
{
    let mut numbers = Items::new(alloc);
    for old in olds {
        if differs(plain, old)? {
            numbers.push(old.instance)?;
        }
    }
    Ok(numbers)
}

/// The numbers of all lists.
fn together(alloc: Global, lists: &[Items<u64>]) -> Result<Ordered<u64>, AllocError>
    ensures { IfOk result (λ all. all ≡ together lists.now) }
{
    let mut all = Ordered::new(alloc);
    let mut left = lists.len();
    while left > 0 {
        left -= 1;
        put_numbers(&mut all, lists[left].as_slice())?;
    }
    Ok(all)
}

/// The numbers of so many of the newest lists.
pub(crate) fn newest_together(
    alloc: Global,
    newest: &Option<Items<u64>>,
    older: &[Items<u64>],
    count: usize,
) -> Result<Ordered<u64>, AllocError>
    requires { count ≤ length (with_stale newest.now older.now) }
    ensures { IfOk result (λ all. all ≡ together (take count (with_stale newest.now older.now))) }
{
    let Some(newest) = newest else {
        return together(alloc, &older[..count]);
    };
    if count == 0 {
        return Ok(Ordered::new(alloc));
    }
    let mut all = together(alloc, &older[..count - 1])?;
    put_numbers(&mut all, newest.as_slice())?;
    Ok(all)
}
