ghost use Rattle.std.specs.Prelude.{◌≡◌, ◌<◌, ◌+◌, ◌-◌, ◌++◌, ◌∷◌, [], true, false, map, take, IfOk, OnOk, length, slice_set, vec_capacity};
ghost use Rattle.smf_cycles.specs.Turns.{with_edges};
ghost use Rattle.smf_links.specs.Relinks.{AreWithin};
ghost use Rattle.smf_dep.specs.Places.{AreCyclesOf, AreInside, edges_by, edges_in, edges_of, flag_at, flags_after, places_in_lists};

use smf_cycles::{PlacedEdges, Places, edges_after, is_on_cycle_after, places_on_cycles};
use smf_fmri::Items;
use smf_links::{GraphNode, Grouping, Link, Relink};
use std::alloc::{AllocError, Global};

/// Puts places after others.
fn join(edges: Vec<usize>, cited: &[Items<usize>]) -> Result<Vec<usize>, AllocError>
    ensures { IfOk result (λ all. all.items ≡ edges.items ++ places_in_lists cited.now) }
{
    let mut edges = edges;
    for places in cited {
        edges.extend_from_slice(places.as_slice())?;
    }
    Ok(edges)
}

/// The places of what an instance cites, each as often as it is cited.
fn edges_in(alloc: Global, links: &[Link]) -> Result<Vec<usize>, AllocError>
    ensures { IfOk result (λ all. all.items ≡ edges_in links.now) }
{
    let mut edges = Vec::new(alloc);
    for link in links {
        if link.grouping == Grouping::ExcludeAll {
            continue;
        }
        edges = join(edges, link.cited.as_slice())?;
    }
    Ok(edges)
}

/// The places that the edges of each instance lead to.
fn edges_of(alloc: Global, nodes: &[GraphNode]) -> Result<Vec<Places>, AllocError>
    ensures { IfOk result (λ all. all.items ≡ edges_of nodes.now) }
{
    let mut all = Vec::new(alloc);
    for node in nodes {
        let edges = edges_in(alloc, node.links.as_slice())?;
        all.push(Places::from_vec(edges))?;
    }
    Ok(all)
}

/// The edges of each place, and which places are on a cycle.
#[derive(Drop)]
pub(crate) struct Cycles {
    pub edges: Vec<Places>,
    pub flags: Vec<bool>,
}

/// The edges that some places get, and the flags of all places if some are others then.
#[derive(Drop)]
pub(crate) struct Turn {
    pub edges: Vec<PlacedEdges>,
    pub flags: Option<Vec<bool>>,
}

/// The edges of instances, and which of them depend on themselves.
pub(crate) fn cycles_of(alloc: Global, nodes: &[GraphNode]) -> Result<Cycles, AllocError>
    ensures edges { IfOk result (λ c. c.edges.items ≡ edges_of nodes.now) }
    ensures flags { IfOk result (λ c. AreCyclesOf c.edges.items c.flags.items) }
{
    let edges = edges_of(alloc, nodes)?;
    let flags = flags_of(alloc, edges.as_slice())?;
    Ok(Cycles { edges, flags })
}

fn flags_of(alloc: Global, edges: &[Places]) -> Result<Vec<bool>, AllocError>
    ensures { IfOk result (λ flags. AreCyclesOf edges.now flags.items) }
{
    let flags = places_on_cycles(alloc, edges)?;
    Ok(flags)
}

fn copy_of(alloc: Global, places: &[usize]) -> Result<Places, AllocError>
    ensures { IfOk result (λ copy. copy ≡ places.now) }
{
    let copy = places.to_vec(alloc)?;
    Ok(Places::from_vec(copy))
}

fn copies(alloc: Global, edges: &[Places]) -> Result<Vec<Places>, AllocError>
    ensures { IfOk result (λ copy. copy.items ≡ edges.now) }
{
    let mut all = Vec::with_capacity(alloc, edges.len())?;
    for places in edges {
        all.push(copy_of(alloc, places.as_slice())?)?;
    }
    Ok(all)
}

/// Gives a place other edges.
fn put_edges(edges: &mut Vec<Places>, place: usize, others: Places)
    ensures { edges.new.items ≡ slice_set edges.old.items place others }
{
    if place < edges.len() {
        edges[place] = others;
    }
}

/// Gives places copies of other edges, one after another.
fn put_copies(
    alloc: Global,
    edges: &mut Vec<Places>,
    turns: &[PlacedEdges],
) -> Result<(), AllocError>
    ensures { OnOk result (edges.new.items ≡ with_edges edges.old.items turns.now) }
{
    for turn in turns {
        let others = copy_of(alloc, turn.edges.as_slice())?;
        put_edges(edges, turn.place, others);
    }
    Ok(())
}

/// Which places are on a cycle, if some get these edges, one after another.
fn flags_with(
    alloc: Global,
    edges: &[Places],
    turns: &[PlacedEdges],
) -> Result<Vec<bool>, AllocError>
    ensures { IfOk result (λ flags. AreCyclesOf (with_edges edges.now turns.now) flags.items) }
{
    let mut all = copies(alloc, edges)?;
    put_copies(alloc, &mut all, turns)?;
    let flags = flags_of(alloc, all.as_slice())?;
    Ok(flags)
}

/// True if a place has the edges of its turn already, after the turns before that one.
fn has_edges(edges: &[Places], earlier: &[PlacedEdges], turn: &PlacedEdges) -> bool
    ensures { result ≡ true → slice_set (with_edges edges.now earlier.now) turn.now.place turn.now.edges
        ≡ with_edges edges.now earlier.now }
{
    edges_after(edges, earlier, turn.place) == turn.edges.as_slice()
}

/// The flags of all places after the turn with this index, or none if they stay as they are after the turns before it.
/// A place that is on no cycle, neither before nor after, changes no flag, nor does one that has these edges already.
fn changed_flags(
    alloc: Global,
    edges: &[Places],
    flags: &[bool],
    turns: &[PlacedEdges],
    index: usize,
) -> Result<Option<Vec<bool>>, AllocError>
    requires among { index < length turns.now }
    requires within { AreInside (length edges.now) turns.now }
    requires turning { AreCyclesOf (with_edges edges.now (take index turns.now)) flags.now }
    ensures { IfOk result
        (λ o. AreCyclesOf (with_edges edges.now (take (index + 1) turns.now)) (flags_after flags.now o)) }
{
    let turn = &turns[index];
    let after = &turns[..index + 1];
    if has_edges(edges, &turns[..index], turn) {
        return Ok(None);
    }
    if flag_at(flags, turn.place) {
        let flags = flags_with(alloc, edges, after)?;
        return Ok(Some(flags));
    }
    if is_on_cycle_after(alloc, edges, after, turn.place)? {
        let flags = flags_with(alloc, edges, after)?;
        return Ok(Some(flags));
    }
    Ok(None)
}

/// The newest flags: others, if there are any.
fn newest<'a>(flags: &'a [bool], others: &'a Option<Vec<bool>>) -> &'a [bool]
    ensures { result.now ≡ flags_after flags.now others.now }
{
    match others {
        None => flags,
        Some(others) => others.as_slice(),
    }
}

/// The newest flags after the turn with this index, from those after the turns before it.
fn flags_by_one(
    alloc: Global,
    cycles: &Cycles,
    others: Option<Vec<bool>>,
    turns: &[PlacedEdges],
    index: usize,
) -> Result<Option<Vec<bool>>, AllocError>
    requires among { index < length turns.now }
    requires within { AreInside (length cycles.now.edges.items) turns.now }
    requires turning { AreCyclesOf (with_edges cycles.now.edges.items (take index turns.now))
        (flags_after cycles.now.flags.items others) }
    ensures { IfOk result
        (λ o. AreCyclesOf (with_edges cycles.now.edges.items (take (index + 1) turns.now))
        (flags_after cycles.now.flags.items o)) }
{
    let before = newest(cycles.flags.as_slice(), &others);
    match changed_flags(alloc, cycles.edges.as_slice(), before, turns, index)? {
        None => Ok(others),
        Some(changed) => Ok(Some(changed)),
    }
}

/// The flags of all places if some get these edges, one after another, or none if they stay as they are.
fn flags_of_turn(
    alloc: Global,
    cycles: &Cycles,
    turns: &[PlacedEdges],
) -> Result<Option<Vec<bool>>, AllocError>
    requires within { AreInside (length cycles.now.edges.items) turns.now }
    requires turning { AreCyclesOf cycles.now.edges.items cycles.now.flags.items }
    ensures { IfOk result
        (λ o. AreCyclesOf (with_edges cycles.now.edges.items turns.now) (flags_after cycles.now.flags.items o)) }
{
    let mut others: Option<Vec<bool>> = None;
    for index in 0..turns.len() {
        others = flags_by_one(alloc, cycles, others, turns, index)?;
    }
    Ok(others)
}

/// The edges of instances that get other links.
fn edges_by(alloc: Global, relinks: &[Relink]) -> Result<Vec<PlacedEdges>, AllocError>
    ensures { IfOk result (λ all. all.items ≡ map edges_by relinks.now) }
{
    let mut all = Vec::with_capacity(alloc, relinks.len())?;
    for relink in relinks {
        let edges = edges_in(alloc, relink.node.links.as_slice())?;
        all.push(PlacedEdges {
            place: relink.place,
            edges: Places::from_vec(edges),
        })?;
    }
    Ok(all)
}

/// What becomes of the cycles if some instances have these links.
pub(crate) fn turn_of(
    alloc: Global,
    cycles: &Cycles,
    relinks: &[Relink],
) -> Result<Turn, AllocError>
    requires within { AreWithin (length cycles.now.edges.items) relinks.now }
    requires turning { AreCyclesOf cycles.now.edges.items cycles.now.flags.items }
    ensures edges { IfOk result (λ t. t.edges.items ≡ map edges_by relinks.now) }
    ensures flags { IfOk result
        (λ t. AreCyclesOf (with_edges cycles.now.edges.items t.edges.items)
        (flags_after cycles.now.flags.items t.flags)) }
{
    let edges = edges_by(alloc, relinks)?;
    let flags = flags_of_turn(alloc, cycles, edges.as_slice())?;
    Ok(Turn { edges, flags })
}

/// Gives places other edges, one after another.
fn put_all_edges(edges: &mut Vec<Places>, turns: Vec<PlacedEdges>)
    ensures { edges.new.items ≡ with_edges edges.old.items turns.items }
{
    for turn in turns {
        put_edges(edges, turn.place, turn.edges);
    }
}

impl Cycles {
    pub(crate) fn install(&mut self, turn: Turn)
        ensures edges { self.new.edges.items ≡ with_edges self.old.edges.items turn.edges.items }
        ensures flags { self.new.flags.items ≡ flags_after self.old.flags.items turn.flags }
    {
        let Turn { edges, flags } = turn;
        put_all_edges(&mut self.edges, edges);
        if let Some(flags) = flags {
            self.flags = flags;
        }
    }

    /// Makes room for one more place.
    pub(crate) fn reserve(&mut self) -> Result<(), AllocError>
        ensures edges { self.new.edges.items ≡ self.old.edges.items }
        ensures flags { self.new.flags.items ≡ self.old.flags.items }
        ensures room { OnOk result ((length self.new.edges.items < vec_capacity self.new.edges)
            × (length self.new.flags.items < vec_capacity self.new.flags)) }
    {
        self.edges.reserve(1)?;
        self.flags.reserve(1)
    }

    /// Puts a place after the others, which is on no cycle.
    pub(crate) fn push(&mut self, edges: Places)
        requires { (length self.old.edges.items < vec_capacity self.old.edges)
            × (length self.old.flags.items < vec_capacity self.old.flags) }
        ensures edges { self.new.edges.items ≡ self.old.edges.items ++ edges ∷ [] }
        ensures flags { self.new.flags.items ≡ self.old.flags.items ++ false ∷ [] }
    {
        let _ = self.edges.push(edges);
        let _ = self.flags.push(false);
    }

    /// Takes the last place out.
    pub(crate) fn pop(&mut self)
        ensures edges { self.new.edges.items ≡ take (length self.old.edges.items - 1) self.old.edges.items }
        ensures flags { self.new.flags.items ≡ take (length self.old.flags.items - 1) self.old.flags.items }
    {
        let _ = self.edges.pop();
        let _ = self.flags.pop();
    }
}

/// The flag of a place.
pub(crate) fn flag_at(flags: &[bool], place: usize) -> bool
    ensures { result ≡ flag_at flags.now place }
{
    match flags.get(place) {
        Some(flag) => *flag,
        None => false,
    }
}
