//! Takes stamps away if their support is gone, and gives them to parked instances.

ghost use Rattle.std.specs.Prelude.{◌≡◌, [], ◌∷◌, ◌++◌, ◌+◌, ◌^◌, ◌≤◌, ◌<◌, ℕ, true, drop, length, slice_index, slice_set, vec_capacity};
ghost use Rattle.smf_links.specs.Blockage.{IsOut};
ghost use Rattle.smf_links.specs.Stamps.{Adds, AddsBy, IsComplete, IsLoosening, IsSound, Spreads, citing_at, drops, gains, stamps_by};
ghost use Rattle.smf_links.specs.Wires.{IsTallied};

use crate::blockage::{parks, stamp_at};
use crate::index::citing_of;
use crate::link::GraphNode;
use crate::tallies::put_stamp;
use crate::tally::NodeTallies;
use crate::wires::Spot;
use smf_fmri::Items;

#[tactic(auto, unfolding(crate::specs::Stamps::drops))]
fn drops(
    nodes: &[GraphNode],
    stamps: &[usize],
    entries: &[Items<Spot>],
    tallies: &[NodeTallies],
    place: usize,
) -> bool
    requires { IsTallied nodes.now stamps.now entries.now tallies.now }
    ensures { result ≡ drops nodes.now stamps.now place }
{
    let stamp = stamp_at(stamps, place);
    0 < stamp && !parks(nodes, stamps, entries, tallies, stamp, place)
}

#[tactic(auto, unfolding(crate::specs::Stamps::gains))]
fn gains(
    nodes: &[GraphNode],
    stamps: &[usize],
    entries: &[Items<Spot>],
    tallies: &[NodeTallies],
    limit: usize,
    place: usize,
) -> bool
    requires { IsTallied nodes.now stamps.now entries.now tallies.now }
    ensures { result ≡ gains nodes.now stamps.now limit place }
{
    let stamp = stamp_at(stamps, place);
    !(0 < stamp) && parks(nodes, stamps, entries, tallies, limit, place)
}

fn set_stamp(stamps: &mut [usize], place: usize, stamp: usize)
    ensures { stamps.new ≡ slice_set stamps.old place stamp }
{
    if place < stamps.len() {
        stamps[place] = stamp;
    }
}

/// Puts places after others. There has to be room for them.
pub(crate) fn add(work: &mut Vec<usize>, places: &[usize])
    requires { length work.old.items + length places.now ≤ vec_capacity work.old }
    ensures items { work.new.items ≡ work.old.items ++ places.now }
    ensures capacity { vec_capacity work.old ≤ vec_capacity work.new }
{
    let _ = work.extend_from_slice(places);
}

/// Puts a place after others. There has to be room for it.
pub(crate) fn add_one(work: &mut Vec<usize>, place: usize)
    requires { length work.old.items < vec_capacity work.old }
    ensures items { work.new.items ≡ work.old.items ++ place ∷ [] }
    ensures capacity { vec_capacity work.old ≤ vec_capacity work.new }
{
    let _ = work.push(place);
}

/// Puts a place after the work, if it is not among the rest of that. A slot is the index that a place may have there.
fn add_new(work: &mut Vec<usize>, slots: &mut [usize], next: usize, place: usize)
    requires next { next ≤ length work.old.items }
    requires room { length work.old.items < vec_capacity work.old }
    ensures adds { Adds next (place ∷ []) work.old.items work.new.items }
    ensures capacity { vec_capacity work.old ≤ vec_capacity work.new }
{
    let slot = stamp_at(slots, place);
    if stands(work.as_slice(), next, slot, place) {
        return;
    }
    set_stamp(slots, place, work.len());
    add_one(work, place);
}

/// True if a place stands in a slot of the rest.
fn stands(work: &[usize], next: usize, slot: usize, place: usize) -> bool
    ensures { result ≡ true → (a : ℕ) → IsOut a (drop next work.now) → IsOut a (place ∷ []) }
{
    if next <= slot && slot < work.len() {
        return work[slot] == place;
    }
    false
}

fn add_each(work: &mut Vec<usize>, slots: &mut [usize], next: usize, places: &[usize])
    requires next { next ≤ length work.old.items }
    requires room { length work.old.items + length places.now ≤ vec_capacity work.old }
    ensures adds { Adds next places.now work.old.items work.new.items }
    ensures capacity { vec_capacity work.old ≤ vec_capacity work.new }
{
    for place in places {
        add_new(work, slots, next, *place);
    }
}

/// Takes the stamp of a place if those with smaller stamps do not park it.
fn loosen(
    nodes: &[GraphNode],
    citing: &[Items<usize>],
    entries: &[Items<Spot>],
    tallies: &mut [NodeTallies],
    stamps: &mut [usize],
    work: &mut Vec<usize>,
    slots: &mut [usize],
    at: usize,
)
    requires tallied { IsTallied nodes.now stamps.old entries.now tallies.old }
    requires at { at < length work.old.items }
    requires room { drops nodes.now stamps.old (slice_index work.old.items at) ≡ true
        → length work.old.items + length (citing_at citing.now (slice_index work.old.items at)) ≤ vec_capacity
        work.old }
    ensures stamps { stamps.new ≡ stamps_by (drops nodes.now stamps.old (slice_index work.old.items at)) stamps.old
        (slice_index work.old.items at) 0 }
    ensures tallied { IsTallied nodes.now stamps.new entries.now tallies.new }
    ensures work { AddsBy (drops nodes.now stamps.old (slice_index work.old.items at)) (at + 1)
        (citing_at citing.now (slice_index work.old.items at)) work.old.items work.new.items }
    ensures capacity { vec_capacity work.old ≤ vec_capacity work.new }
{
    let place = work[at];
    if drops(nodes, stamps, entries, tallies, place) {
        put_stamp(nodes, stamps, entries, tallies, place, 0);
        add_each(work, slots, at + 1, citing_of(citing, place));
    }
}

/// Gives a stamp to a place if those with a stamp park it.
fn spread(
    nodes: &[GraphNode],
    citing: &[Items<usize>],
    entries: &[Items<Spot>],
    tallies: &mut [NodeTallies],
    stamps: &mut [usize],
    work: &mut Vec<usize>,
    slots: &mut [usize],
    stamp: usize,
    at: usize,
)
    requires tallied { IsTallied nodes.now stamps.old entries.now tallies.old }
    requires at { at < length work.old.items }
    requires room { gains nodes.now stamps.old stamp (slice_index work.old.items at) ≡ true
        → length work.old.items + length (citing_at citing.now (slice_index work.old.items at)) ≤ vec_capacity
        work.old }
    ensures stamps { stamps.new
        ≡ stamps_by (gains nodes.now stamps.old stamp (slice_index work.old.items at)) stamps.old
        (slice_index work.old.items at) stamp }
    ensures tallied { IsTallied nodes.now stamps.new entries.now tallies.new }
    ensures work { AddsBy (gains nodes.now stamps.old stamp (slice_index work.old.items at)) (at + 1)
        (citing_at citing.now (slice_index work.old.items at)) work.old.items work.new.items }
    ensures capacity { vec_capacity work.old ≤ vec_capacity work.new }
{
    let place = work[at];
    if gains(nodes, stamps, entries, tallies, stamp, place) {
        put_stamp(nodes, stamps, entries, tallies, place, stamp);
        add_each(work, slots, at + 1, citing_of(citing, place));
    }
}

/// Makes the stamps right again. Each that may be wrong has to be among the work. New ones begin at the base.
pub(crate) fn settle(
    nodes: &[GraphNode],
    citing: &[Items<usize>],
    entries: &[Items<Spot>],
    tallies: &mut [NodeTallies],
    stamps: &mut [usize],
    work: &mut Vec<usize>,
    slots: &mut [usize],
    base: usize,
)
    requires tallied { IsTallied nodes.now stamps.old entries.now tallies.old }
    requires base { (0 < base) × (base ≤ 2 ^ 62) }
    requires begun { IsLoosening nodes.now citing.now base (vec_capacity work.old) stamps.old work.old.items 0 }
    ensures size { length stamps.new ≡ length nodes.now }
    ensures low { (a : ℕ) → slice_index stamps.new a < base + length work.new.items }
    ensures sound { (a : ℕ) → IsSound nodes.now stamps.new a }
    ensures complete { (a : ℕ) → IsComplete nodes.now stamps.new a }
    ensures tallied { IsTallied nodes.now stamps.new entries.now tallies.new }
    ensures spread { Spreads nodes.now citing.now stamps.old work.old.items stamps.new work.new.items }
    ensures capacity { vec_capacity work.old ≤ vec_capacity work.new }
{
    let mut at = 0;
    'loosening: while at < work.len() {
        loosen(nodes, citing, entries, tallies, stamps, work, slots, at);
        at += 1;
    }
    let mut done = 0;
    'spreading: while done < work.len() {
        spread(
            nodes,
            citing,
            entries,
            tallies,
            stamps,
            work,
            slots,
            base + done,
            done,
        );
        done += 1;
    }
}
