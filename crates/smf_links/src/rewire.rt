//! Other links for instances: room, notes, entities and tallies for them.

ghost use Rattle.std.specs.Prelude.{◌≡◌, ◌<◌, ◌≤◌, ◌+◌, ◌*◌, IfOk, OnErr, OnOk, length, slice_set, vec_capacity};
ghost use Rattle.smf_links.specs.Blockage.{off_at, runs_at};
ghost use Rattle.smf_links.specs.Relinks.{ArePrepared, IsPrepared, IsShaped, relink_of, relinks_of};
ghost use Rattle.smf_links.specs.Stamps.{Avoid, KeepsPlaces, Notes, citations, has_stamp, total};
ghost use Rattle.smf_links.specs.Wires.{EntersLinks, IsTallied, KeepsSpots, tallies_of};

use crate::index::{citations_of, note_links, total_of};
use crate::link::{GraphNode, Link, Relink};
use crate::tallies::{recount, retally, tallies_of};
use crate::tally::NodeTallies;
use crate::wires::{Spot, enter_links};
use smf_fmri::Items;
use std::alloc::{AllocError, Global};

/// An instance that is to stand at a place, with tallies for its links.
#[derive(Drop)]
pub struct PlacedNode {
    pub place: usize,
    pub node: GraphNode,
    pub own: NodeTallies,
}

/// How much work there can be at once.
pub(crate) fn room_for(count: usize, total: usize) -> Result<usize, AllocError>
    ensures { IfOk result (λ n. n ≡ count + 1 + 3 * total) }
{
    let triple = total.checked_mul(3).ok_or(AllocError)?;
    let more = count.checked_add(1).ok_or(AllocError)?;
    more.checked_add(triple).ok_or(AllocError)
}

/// Makes room for the work that there can be if further links are noted. It counts what is noted only if there may be
/// no room for that.
fn make_room(
    nodes: &[GraphNode],
    citing: &[Items<usize>],
    links: &[Link],
    note_count: &mut usize,
    work: &mut Vec<usize>,
) -> Result<(), AllocError>
    requires { total citing.now ≤ note_count.old }
    ensures capacity { vec_capacity work.old ≤ vec_capacity work.new }
    ensures note_count { OnOk result (total citing.now + citations links.now ≤ note_count.new) }
    ensures room { OnOk result (length nodes.now + 1 + 3 * note_count.new ≤ vec_capacity work.new) }
    ensures err { OnErr result (note_count.new ≡ note_count.old) }
{
    let more = citations_of(links)?;
    let most = note_count.checked_add(more).ok_or(AllocError)?;
    let most_room = room_for(nodes.len(), most)?;
    if most_room <= work.capacity() {
        *note_count = most;
        return Ok(());
    }
    let before = total_of(citing)?;
    let total = before.checked_add(more).ok_or(AllocError)?;
    let room = room_for(nodes.len(), total)?;
    work.clear();
    work.reserve(room)?;
    *note_count = total;
    Ok(())
}

/// Notes and enters the links that an instance is to have, and gives their tallies.
pub(crate) fn prepare(
    alloc: Global,
    nodes: &[GraphNode],
    stamps: &[usize],
    citing: &mut Vec<Items<usize>>,
    entries: &mut Vec<Items<Spot>>,
    note_count: &mut usize,
    work: &mut Vec<usize>,
    place: usize,
    links: &[Link],
) -> Result<NodeTallies, AllocError>
    requires { total citing.old.items ≤ note_count.old }
    ensures citing { KeepsPlaces citing.old.items citing.new.items }
    ensures space { length nodes.now + 1 + 3 * total citing.old.items ≤ vec_capacity work.old
        → length nodes.now + 1 + 3 * total citing.new.items ≤ vec_capacity work.new }
    ensures note_count { total citing.new.items ≤ note_count.new }
    ensures entries { KeepsSpots entries.old.items entries.new.items }
    ensures notes { OnOk result (Notes (λ p. Avoid p links.now) place citing.old.items citing.new.items) }
    ensures enters { OnOk result (EntersLinks entries.new.items place links.now) }
    ensures tallies { IfOk result
        (λ ts. ts ≡ tallies_of (runs_at nodes.now) (off_at nodes.now) (has_stamp stamps.now) links.now) }
{
    make_room(nodes, citing.as_slice(), links, note_count, work)?;
    note_links(citing, place, true, links)?;
    enter_links(entries, place, true, links)?;
    let tallies = tallies_of(alloc, nodes, stamps, links)?;
    Ok(tallies)
}

/// Notes and enters the links that one instance is to have, and counts their tallies.
fn prepare_node(
    alloc: Global,
    nodes: &[GraphNode],
    stamps: &[usize],
    citing: &mut Vec<Items<usize>>,
    entries: &mut Vec<Items<Spot>>,
    note_count: &mut usize,
    work: &mut Vec<usize>,
    relink: Relink,
) -> Result<PlacedNode, AllocError>
    requires { total citing.old.items ≤ note_count.old }
    ensures citing { KeepsPlaces citing.old.items citing.new.items }
    ensures space { length nodes.now + 1 + 3 * total citing.old.items ≤ vec_capacity work.old
        → length nodes.now + 1 + 3 * total citing.new.items ≤ vec_capacity work.new }
    ensures note_count { total citing.new.items ≤ note_count.new }
    ensures entries { KeepsSpots entries.old.items entries.new.items }
    ensures prepared { IfOk result (λ p. IsPrepared citing.new.items entries.new.items p) }
    ensures same { IfOk result (λ p. relink_of p ≡ relink) }
{
    let Relink { place, node } = relink;
    let links = node.links.as_slice();
    let own = prepare(
        alloc, nodes, stamps, citing, entries, note_count, work, place, links,
    )?;
    Ok(PlacedNode { place, node, own })
}

/// Does all that may fail if instances get other links.
pub(crate) fn prepare_all(
    alloc: Global,
    nodes: &[GraphNode],
    stamps: &[usize],
    citing: &mut Vec<Items<usize>>,
    entries: &mut Vec<Items<Spot>>,
    note_count: &mut usize,
    work: &mut Vec<usize>,
    relinks: Vec<Relink>,
) -> Result<Vec<PlacedNode>, AllocError>
    requires { total citing.old.items ≤ note_count.old }
    ensures citing { KeepsPlaces citing.old.items citing.new.items }
    ensures space { length nodes.now + 1 + 3 * total citing.old.items ≤ vec_capacity work.old
        → length nodes.now + 1 + 3 * total citing.new.items ≤ vec_capacity work.new }
    ensures note_count { total citing.new.items ≤ note_count.new }
    ensures entries { KeepsSpots entries.old.items entries.new.items }
    ensures prepared { IfOk result (λ ps. ArePrepared citing.new.items entries.new.items ps.items) }
    ensures same { IfOk result (λ ps. relinks_of ps.items ≡ relinks.items) }
{
    let mut all = Vec::with_capacity(alloc, relinks.len())?;
    for relink in relinks {
        let placed = prepare_node(
            alloc, nodes, stamps, citing, entries, note_count, work, relink,
        )?;
        all.push(placed)?;
    }
    Ok(all)
}

fn put_node(nodes: &mut Vec<GraphNode>, place: usize, node: GraphNode)
    requires { place < length nodes.old.items }
    ensures { nodes.new.items ≡ slice_set nodes.old.items place node }
{
    nodes[place] = node;
}

fn put_tallies(tallies: &mut [NodeTallies], place: usize, own: NodeTallies)
    requires { place < length tallies.old }
    ensures { tallies.new ≡ slice_set tallies.old place own }
{
    tallies[place] = own;
}

/// Puts another instance at a place, whose links are entered and have these tallies.
pub(crate) fn change_node(
    nodes: &mut Vec<GraphNode>,
    stamps: &[usize],
    entries: &[Items<Spot>],
    tallies: &mut [NodeTallies],
    place: usize,
    node: GraphNode,
    own: NodeTallies,
)
    requires within { place < length nodes.old.items }
    requires tallied { IsTallied nodes.old.items stamps.now entries.now tallies.old }
    requires enters { EntersLinks entries.now place node.links }
    requires own { own
        ≡ tallies_of (runs_at nodes.old.items) (off_at nodes.old.items) (has_stamp stamps.now) node.links }
    ensures nodes { nodes.new.items ≡ slice_set nodes.old.items place node }
    ensures tallied { IsTallied nodes.new.items stamps.now entries.now tallies.new }
{
    put_node(nodes, place, node);
    put_tallies(tallies, place, own);
    retally(nodes.as_slice(), stamps, entries, tallies, place);
}

/// Puts a prepared instance at its place. Counts its tallies anew, since other instances may have changed.
pub(crate) fn put_placed(
    nodes: &mut Vec<GraphNode>,
    stamps: &[usize],
    entries: &[Items<Spot>],
    tallies: &mut [NodeTallies],
    placed: PlacedNode,
)
    requires within { placed.place < length nodes.old.items }
    requires tallied { IsTallied nodes.old.items stamps.now entries.now tallies.old }
    requires enters { EntersLinks entries.now placed.place placed.node.links }
    requires shaped { IsShaped placed.own placed.node.links }
    ensures nodes { nodes.new.items ≡ slice_set nodes.old.items placed.place placed.node }
    ensures tallied { IsTallied nodes.new.items stamps.now entries.now tallies.new }
{
    let PlacedNode {
        place,
        node,
        mut own,
    } = placed;
    recount(nodes.as_slice(), stamps, node.links.as_slice(), &mut own);
    change_node(nodes, stamps, entries, tallies, place, node, own);
}
