//! Instances that depend on other things than before.

ghost use Rattle.std.specs.Prelude.{◌≡◌, ◌<◌, ◌≤◌, ◌+◌, ◌++◌, ◌∷◌, ℕ, [], true, map, drop, take, IfOk, IfSome, OnErr, OnOk, length, slice_set, vec_capacity};
ghost use Rattle.smf_links.specs.Blockage.{IsOut};
ghost use Rattle.smf_links.specs.Relinks.{AreWithin, with_relinks};
ghost use Rattle.smf_dep.specs.Index.{naming_from};
ghost use Rattle.smf_dep.specs.Names.{AreIndexed};
ghost use Rattle.smf_dep.specs.Places.{AreCyclesOf, LeavesOthers, edges_of, flag_at, flags_after, links_of, nodes_of};
ghost use Rattle.smf_dep.specs.Updates.{AreJoined, AreKnown, AreNamed, IsKnownAt, all_relinks, relink_at, relink_of, relinks_at, relinks_from, with_placed};

use crate::arrival::is_due;
use crate::cycle::{Cycles, Turn, flag_at, turn_of};
use crate::link::{copy_of_node, node_of};
use crate::member::{ReadMember, has_same_dependencies};
use crate::names::{NameIndex, Names};
use smf_links::{GraphNode, KeptVerdicts, Relink};
use std::alloc::{AllocError, Global};

/// A member, and the place of that with its number and its name.
#[derive(Drop)]
pub(crate) struct PlacedMember {
    pub member: ReadMember,
    pub place: usize,
}

fn push_place(touched: &mut Vec<usize>, place: usize)
    requires { length touched.old.items < vec_capacity touched.old }
    ensures pushed { touched.new.items ≡ touched.old.items ++ place ∷ [] }
    ensures room { vec_capacity touched.old ≤ vec_capacity touched.new }
{
    let _ = touched.push(place);
}

/// Puts the member at a place after those that get other links, with what it depends on by places.
fn push_relink(
    alloc: Global,
    names: &Names<'_>,
    members: &[ReadMember],
    place: usize,
    relinks: &mut Vec<Relink>,
) -> Result<(), AllocError>
    requires { names.now ≡ members.now }
    ensures { OnOk result (relinks.new.items ≡ relinks.old.items ++ relink_at members.now place) }
{
    match members.get(place) {
        None => Ok(()),
        Some(member) => {
            let node = node_of(alloc, names, member.member(), None)?;
            relinks.push(Relink { place, node })?;
            Ok(())
        }
    }
}

/// The members at some places, with what they depend on by places.
fn relinks_at(
    alloc: Global,
    names: &Names<'_>,
    members: &[ReadMember],
    places: &[u64],
) -> Result<Vec<Relink>, AllocError>
    requires { names.now ≡ members.now }
    ensures { IfOk result (λ all. all.items ≡ relinks_at members.now places.now) }
{
    let mut all = Vec::new(alloc);
    for place in places {
        push_relink(alloc, names, members, *place as usize, &mut all)?;
    }
    Ok(all)
}

/// The instances that came after the first ones and those that name them, with what they depend on by places.
fn relinks_to(
    alloc: Global,
    names: &Names<'_>,
    members: &[ReadMember],
    naming: &[u64],
    count: usize,
) -> Result<Vec<Relink>, AllocError>
    requires names { names.now ≡ members.now }
    requires count { count ≤ length members.now }
    requires naming { naming.now ≡ naming_from (drop count members.now) 0 (take count members.now) }
    ensures { IfOk result
        (λ all. all.items ≡ relinks_from members.now (drop count members.now) count 0 members.now) }
{
    let mut all = relinks_at(alloc, names, members, naming)?;
    for place in count..members.len() {
        push_relink(alloc, names, members, place, &mut all)?;
    }
    Ok(all)
}

/// True if a member depends on what the one at its place does, and names none that came.
fn is_known(
    members: &[ReadMember],
    arrivals: &[ReadMember],
    count: usize,
    one: &PlacedMember,
) -> bool
    ensures { result ≡ true → IsKnownAt members.now arrivals.now count one.now }
{
    match members.get(one.place) {
        None => false,
        Some(before) => {
            !is_due(arrivals, count, one.place, before.member())
                && has_same_dependencies(
                    &before.member().dependencies,
                    &one.member.member().dependencies,
                )
        }
    }
}

/// A copy of what a member depends on by places, if that is known.
fn known_node(
    alloc: Global,
    members: &[ReadMember],
    arrivals: &[ReadMember],
    count: usize,
    kept: &KeptVerdicts,
    one: &PlacedMember,
) -> Result<Option<GraphNode>, AllocError>
    requires { AreKnown members.now arrivals.now count kept.now }
    ensures { IfOk result (λ o. IfSome o (λ n. n.links ≡ links_of members.now one.now.member.dependencies)) }
{
    if !is_known(members, arrivals, count, one) {
        return Ok(None);
    }
    match kept.node(one.place) {
        None => Ok(None),
        Some(node) => Ok(Some(copy_of_node(alloc, node)?)),
    }
}

/// Puts members in other places after those, with what they depend on by places.
fn add_relinks(
    alloc: Global,
    names: &Names<'_>,
    members: &[ReadMember],
    arrivals: &[ReadMember],
    count: usize,
    kept: &KeptVerdicts,
    placed: &[PlacedMember],
    relinks: &mut Vec<Relink>,
) -> Result<(), AllocError>
    requires names { names.now ≡ members.now }
    requires known { AreKnown members.now arrivals.now count kept.now }
    ensures { OnOk result (relinks.new.items ≡ relinks.old.items ++ map (relink_of members.now) placed.now) }
{
    for one in placed {
        let known = known_node(alloc, members, arrivals, count, kept, one)?;
        let node = node_of(alloc, names, one.member.member(), known)?;
        relinks.push(Relink {
            place: one.place,
            node,
        })?;
    }
    Ok(())
}

/// Puts a member in the place of another.
fn set_member(members: &mut Vec<ReadMember>, place: usize, member: ReadMember)
    ensures { members.new.items ≡ slice_set members.old.items place member }
{
    if place < members.len() {
        members[place] = member;
    }
}

/// Puts members in the places of others, one after another.
pub(crate) fn set_members(members: &mut Vec<ReadMember>, placed: Vec<PlacedMember>)
    ensures { members.new.items ≡ with_placed placed.items members.old.items }
{
    for one in placed {
        set_member(members, one.place, one.member);
    }
}

fn put_if_turned(touched: &mut Vec<usize>, place: usize, before: bool, after: bool)
    requires { length touched.old.items < vec_capacity touched.old }
    ensures stays { IsOut place touched.new.items → after ≡ before }
    ensures grown { (a : ℕ) → IsOut a touched.new.items → IsOut a touched.old.items }
    ensures size { length touched.new.items ≤ length touched.old.items + 1 }
    ensures room { vec_capacity touched.old ≤ vec_capacity touched.new }
{
    if before != after {
        push_place(touched, place);
    }
}

/// Puts each place whose flag is another in the second list.
fn put_others(touched: &mut Vec<usize>, before: &[bool], after: &[bool], count: usize)
    requires empty { touched.old.items ≡ [] }
    requires room { count ≤ vec_capacity touched.old }
    ensures stays { (a : ℕ) → IsOut a touched.new.items → a < count → flag_at after.now a ≡ flag_at before.now a }
    ensures room { vec_capacity touched.old ≤ vec_capacity touched.new }
{
    for place in 0..count {
        put_if_turned(
            touched,
            place,
            flag_at(before, place),
            flag_at(after, place),
        );
    }
}

/// Puts each place whose flag is another after a turn.
fn put_turned(touched: &mut Vec<usize>, before: &[bool], turn: &Turn, count: usize)
    requires empty { touched.old.items ≡ [] }
    requires room { count ≤ vec_capacity touched.old }
    ensures stays { (a : ℕ) → IsOut a touched.new.items → a < count
        → flag_at (flags_after before.now turn.now.flags) a ≡ flag_at before.now a }
    ensures room { vec_capacity touched.old ≤ vec_capacity touched.new }
{
    match &turn.flags {
        None => {}
        Some(after) => put_others(touched, before, after.as_slice(), count),
    }
}

/// Gives some instances other links. Puts each place of which something may be found otherwise in an empty list. If
/// memory runs out, nothing but that list changes.
pub(crate) fn rewire(
    alloc: Global,
    kept: &mut KeptVerdicts,
    cycles: &mut Cycles,
    relinks: Vec<Relink>,
    touched: &mut Vec<usize>,
) -> Result<(), AllocError>
    requires within { AreWithin (length kept.old) relinks.items }
    requires edged { cycles.old.edges.items ≡ edges_of kept.old }
    requires turning { AreCyclesOf cycles.old.edges.items cycles.old.flags.items }
    requires empty { touched.old.items ≡ [] }
    requires room { length kept.old ≤ vec_capacity touched.old }
    ensures set { OnOk result (kept.new ≡ with_relinks kept.old relinks.items) }
    ensures edged { OnOk result (cycles.new.edges.items ≡ edges_of kept.new) }
    ensures turning { OnOk result (AreCyclesOf cycles.new.edges.items cycles.new.flags.items) }
    ensures others { OnOk result (LeavesOthers kept.old kept.new relinks.items cycles.old.flags.items
        cycles.new.flags.items touched.new.items) }
    ensures err { OnErr result (kept.new ≡ kept.old) }
    ensures same_edges { OnErr result (cycles.new.edges.items ≡ cycles.old.edges.items) }
    ensures same_flags { OnErr result (cycles.new.flags.items ≡ cycles.old.flags.items) }
{
    let turn = turn_of(alloc, cycles, relinks.as_slice())?;
    let count = cycles.edges.len();
    put_turned(touched, cycles.flags.as_slice(), &turn, count);
    kept.relink(alloc, relinks, touched)?;
    cycles.install(turn);
    Ok(())
}

/// Gives the instances that came after the first ones their links, and those that name them, and then members that are
/// to have the places of others. If memory runs out, nothing but the list changes.
pub(crate) fn link_all(
    alloc: Global,
    index: &NameIndex,
    members: &[ReadMember],
    naming: &[u64],
    count: usize,
    placed: &[PlacedMember],
    kept: &mut KeptVerdicts,
    cycles: &mut Cycles,
    touched: &mut Vec<usize>,
) -> Result<(), AllocError>
    requires indexed { AreIndexed index.now members.now }
    requires naming { naming.now ≡ naming_from (drop count members.now) 0 (take count members.now) }
    requires joined { AreJoined members.now count kept.old }
    requires named { AreNamed placed.now members.now }
    requires edged { cycles.old.edges.items ≡ edges_of kept.old }
    requires turning { AreCyclesOf cycles.old.edges.items cycles.old.flags.items }
    requires empty { touched.old.items ≡ [] }
    requires room { length kept.old ≤ vec_capacity touched.old }
    ensures linked { OnOk result (kept.new ≡ nodes_of (with_placed placed.now members.now)) }
    ensures edged { OnOk result (cycles.new.edges.items ≡ edges_of kept.new) }
    ensures turning { OnOk result (AreCyclesOf cycles.new.edges.items cycles.new.flags.items) }
    ensures others { OnOk result (LeavesOthers kept.old kept.new (all_relinks members.now count placed.now)
        cycles.old.flags.items cycles.new.flags.items touched.new.items) }
    ensures err { OnErr result (kept.new ≡ kept.old) }
    ensures same_edges { OnErr result (cycles.new.edges.items ≡ cycles.old.edges.items) }
    ensures same_flags { OnErr result (cycles.new.flags.items ≡ cycles.old.flags.items) }
{
    let arrivals = &members[count..];
    let names = Names::by(members, index);
    let mut relinks = relinks_to(alloc, &names, members, naming, count)?;
    add_relinks(
        alloc,
        &names,
        members,
        arrivals,
        count,
        kept,
        placed,
        &mut relinks,
    )?;
    rewire(alloc, kept, cycles, relinks, touched)
}
