//! One more instance after the others: room, notes and tallies for it. It can go again.

ghost use Rattle.std.specs.Prelude.{◌≡◌, ◌<◌, ◌≤◌, ◌+◌, ◌-◌, ◌*◌, ◌++◌, ◌∷◌, ℕ, [], IfOk, OnOk, length, take, vec_capacity};
ghost use Rattle.smf_links.specs.Blockage.{off_at, runs_at};
ghost use Rattle.smf_links.specs.Stamps.{AreFree, Avoid, IsKept, IsLast, KeepsPlaces, Notes, has_stamp, total};
ghost use Rattle.smf_links.specs.Wires.{EntersLinks, IsTallied, KeepsSpots, tallies_of};

use crate::link::{GraphNode, Link};
use crate::rewire::{prepare, room_for};
use crate::tally::NodeTallies;
use crate::wires::Spot;
use smf_fmri::Items;
use std::alloc::{AllocError, Global};

/// Makes room for the work that there can be with one instance more.
fn make_work_room(count: usize, note_count: usize, work: &mut Vec<usize>) -> Result<(), AllocError>
    ensures capacity { vec_capacity work.old ≤ vec_capacity work.new }
    ensures room { OnOk result (count + 2 + 3 * note_count ≤ vec_capacity work.new) }
{
    let more = count.checked_add(1).ok_or(AllocError)?;
    let room = room_for(more, note_count)?;
    if room > work.capacity() {
        work.clear();
        work.reserve(room)?;
    }
    Ok(())
}

/// Makes room for one instance more.
fn make_place(
    nodes: &mut Vec<GraphNode>,
    stamps: &mut Vec<usize>,
    citing: &mut Vec<Items<usize>>,
    slots: &mut Vec<usize>,
    entries: &mut Vec<Items<Spot>>,
    tallies: &mut Vec<NodeTallies>,
) -> Result<(), AllocError>
    ensures nodes { nodes.new.items ≡ nodes.old.items }
    ensures stamps { stamps.new.items ≡ stamps.old.items }
    ensures citing { citing.new.items ≡ citing.old.items }
    ensures entries { entries.new.items ≡ entries.old.items }
    ensures tallies { tallies.new.items ≡ tallies.old.items }
    ensures node_room { OnOk result (length nodes.new.items < vec_capacity nodes.new) }
    ensures stamp_room { OnOk result (length stamps.new.items < vec_capacity stamps.new) }
    ensures citing_room { OnOk result (length citing.new.items < vec_capacity citing.new) }
    ensures slot_room { OnOk result (length slots.new.items < vec_capacity slots.new) }
    ensures entry_room { OnOk result (length entries.new.items < vec_capacity entries.new) }
    ensures tally_room { OnOk result (length tallies.new.items < vec_capacity tallies.new) }
{
    nodes.reserve(1)?;
    stamps.reserve(1)?;
    citing.reserve(1)?;
    slots.reserve(1)?;
    entries.reserve(1)?;
    tallies.reserve(1)?;
    Ok(())
}

/// Makes room for one instance more, notes and enters its links, and gives their tallies.
pub(crate) fn prepare_arrival(
    alloc: Global,
    nodes: &mut Vec<GraphNode>,
    stamps: &mut Vec<usize>,
    citing: &mut Vec<Items<usize>>,
    slots: &mut Vec<usize>,
    entries: &mut Vec<Items<Spot>>,
    tallies: &mut Vec<NodeTallies>,
    note_count: &mut usize,
    work: &mut Vec<usize>,
    links: &[Link],
) -> Result<NodeTallies, AllocError>
    requires { total citing.old.items ≤ note_count.old }
    ensures nodes { nodes.new.items ≡ nodes.old.items }
    ensures stamps { stamps.new.items ≡ stamps.old.items }
    ensures tallies { tallies.new.items ≡ tallies.old.items }
    ensures citing { KeepsPlaces citing.old.items citing.new.items }
    ensures space { length nodes.old.items + 1 + 3 * total citing.old.items ≤ vec_capacity work.old
        → length nodes.old.items + 1 + 3 * total citing.new.items ≤ vec_capacity work.new }
    ensures note_count { total citing.new.items ≤ note_count.new }
    ensures entries { KeepsSpots entries.old.items entries.new.items }
    ensures notes { OnOk result
        (Notes (λ p. Avoid p links.now) (length nodes.old.items) citing.old.items citing.new.items) }
    ensures enters { OnOk result (EntersLinks entries.new.items (length nodes.old.items) links.now) }
    ensures own { IfOk result (λ ts. ts
        ≡ tallies_of (runs_at nodes.old.items) (off_at nodes.old.items) (has_stamp stamps.old.items) links.now) }
    ensures room { OnOk result (length nodes.old.items + 2 + 3 * total citing.new.items ≤ vec_capacity work.new) }
    ensures node_room { OnOk result (length nodes.new.items < vec_capacity nodes.new) }
    ensures stamp_room { OnOk result (length stamps.new.items < vec_capacity stamps.new) }
    ensures citing_room { OnOk result (length citing.new.items < vec_capacity citing.new) }
    ensures slot_room { OnOk result (length slots.new.items < vec_capacity slots.new) }
    ensures entry_room { OnOk result (length entries.new.items < vec_capacity entries.new) }
    ensures tally_room { OnOk result (length tallies.new.items < vec_capacity tallies.new) }
{
    let place = nodes.len();
    let own = prepare(
        alloc,
        nodes.as_slice(),
        stamps.as_slice(),
        citing,
        entries,
        note_count,
        work,
        place,
        links,
    )?;
    make_work_room(place, *note_count, work)?;
    make_place(nodes, stamps, citing, slots, entries, tallies)?;
    Ok(own)
}

/// Puts an item after others. There has to be room for it.
fn put_last<T: Drop>(items: &mut Vec<T>, item: T)
    requires { length items.old.items < vec_capacity items.old }
    ensures { items.new.items ≡ items.old.items ++ item ∷ [] }
{
    let _ = items.push(item);
}

/// Puts an instance after the others, with no stamp. Its links are entered and have these tallies.
pub(crate) fn add_node(
    alloc: Global,
    nodes: &mut Vec<GraphNode>,
    stamps: &mut Vec<usize>,
    citing: &mut Vec<Items<usize>>,
    slots: &mut Vec<usize>,
    entries: &mut Vec<Items<Spot>>,
    tallies: &mut Vec<NodeTallies>,
    node: GraphNode,
    own: NodeTallies,
)
    requires node_room { length nodes.old.items < vec_capacity nodes.old }
    requires stamp_room { length stamps.old.items < vec_capacity stamps.old }
    requires citing_room { length citing.old.items < vec_capacity citing.old }
    requires slot_room { length slots.old.items < vec_capacity slots.old }
    requires entry_room { length entries.old.items < vec_capacity entries.old }
    requires tally_room { length tallies.old.items < vec_capacity tallies.old }
    requires free { AreFree nodes.old.items node }
    requires tallied { IsTallied nodes.old.items stamps.old.items entries.old.items tallies.old.items }
    requires enters { EntersLinks entries.old.items (length nodes.old.items) node.links }
    requires own { own ≡ tallies_of (runs_at nodes.old.items) (off_at nodes.old.items)
        (has_stamp stamps.old.items) node.links }
    ensures nodes { nodes.new.items ≡ nodes.old.items ++ node ∷ [] }
    ensures stamps { stamps.new.items ≡ stamps.old.items ++ 0 ∷ [] }
    ensures citing { citing.new.items ≡ citing.old.items ++ [] ∷ [] }
    ensures tallied { IsTallied nodes.new.items stamps.new.items entries.new.items tallies.new.items }
{
    put_last(nodes, node);
    put_last(stamps, 0);
    put_last(citing, Items::new(alloc));
    put_last(slots, 0);
    put_last(entries, Items::new(alloc));
    put_last(tallies, own);
}

/// Takes the last item out, if there is one.
fn take_last<T: Drop>(items: &mut Vec<T>)
    ensures { items.new.items ≡ take (length items.old.items - 1) items.old.items }
{
    let _ = items.pop();
}

/// Takes the last instance out, with all that is kept beside it.
pub(crate) fn remove_node(
    nodes: &mut Vec<GraphNode>,
    stamps: &mut Vec<usize>,
    citing: &mut Vec<Items<usize>>,
    slots: &mut Vec<usize>,
    entries: &mut Vec<Items<Spot>>,
    tallies: &mut Vec<NodeTallies>,
)
    requires { IsLast nodes.old.items }
    ensures nodes { nodes.new.items ≡ take (length nodes.old.items - 1) nodes.old.items }
    ensures kept { (next capacity : ℕ) → IsKept nodes.old.items stamps.old.items citing.old.items next capacity
        → IsKept nodes.new.items stamps.new.items citing.new.items next capacity }
    ensures tallied { IsTallied nodes.old.items stamps.old.items entries.old.items tallies.old.items
        → IsTallied nodes.new.items stamps.new.items entries.new.items tallies.new.items }
    ensures total { total citing.new.items ≤ total citing.old.items }
{
    take_last(nodes);
    take_last(stamps);
    take_last(citing);
    take_last(slots);
    take_last(entries);
    take_last(tallies);
}
