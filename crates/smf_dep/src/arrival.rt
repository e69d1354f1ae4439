//! Instances that come after all others.

ghost use Rattle.std.specs.List.{list_any};
ghost use Rattle.std.specs.Prelude.{◌≡◌, ◌<◌, ◌-◌, ◌++◌, ◌∷◌, ℕ, [], false, map, take, OnErr, OnOk, length, vec_capacity};
ghost use Rattle.smf_links.specs.Blockage.{met_at};
ghost use Rattle.smf_dep.specs.Places.{edges_of, nodes_of};
ghost use Rattle.smf_dep.specs.Updates.{AreJoined, blank_of, is_due, is_naming, names, no_edges, no_flag};
ghost use Rattle.smf_dep.specs.Verdicts.{is_cited};

use crate::cycle::Cycles;
use crate::dependency::Dependency;
use crate::link::flags_of;
use crate::member::{GraphMember, ReadMember};
use smf_cycles::Places;
use smf_fmri::{Fmri, Items};
use smf_links::{GraphNode, KeptVerdicts};
use std::alloc::{AllocError, Global};

// ---- instances that name others

/// True if an entity stands for one of these instances.
fn is_any_cited(arrivals: &[ReadMember], entity: &Fmri) -> bool
    ensures { result ≡ list_any (is_cited entity.now) arrivals.now }
{
    arrivals
        .iter()
        .any(|arrival| arrival.member().is_cited(entity))
}

/// True if an entity of a group stands for one of these instances.
fn names(arrivals: &[ReadMember], dependency: &Dependency) -> bool
    ensures { result ≡ names arrivals.now dependency.now }
{
    dependency
        .entities
        .as_slice()
        .iter()
        .any(|entity| is_any_cited(arrivals, entity))
}

fn any_names(arrivals: &[ReadMember], dependencies: &[Dependency]) -> bool
    ensures { result ≡ list_any (names arrivals.now) dependencies.now }
{
    dependencies
        .iter()
        .any(|dependency| names(arrivals, dependency))
}

/// True if a group of a member names one of these instances.
pub(crate) fn is_naming(arrivals: &[ReadMember], member: &GraphMember) -> bool
    ensures { result ≡ is_naming arrivals.now member.now }
{
    match &member.dependencies {
        None => false,
        Some(dependencies) => any_names(arrivals, dependencies.as_slice()),
    }
}

/// True if the member at a place came after so many others, or names one that did.
pub(crate) fn is_due(
    arrivals: &[ReadMember],
    count: usize,
    place: usize,
    member: &GraphMember,
) -> bool
    ensures { result ≡ is_due arrivals.now count place member.now }
{
    !(place < count) || is_naming(arrivals, member)
}

// ---- one more instance, and one less

/// An instance without what it depends on.
fn blank_of(alloc: Global, member: &GraphMember) -> GraphNode
    ensures { result ≡ blank_of member.now }
{
    GraphNode {
        flags: flags_of(member),
        links: Items::new(alloc),
    }
}

/// Puts a member after the others. There is room for it.
fn push_member(members: &mut Vec<ReadMember>, member: ReadMember)
    requires { length members.old.items < vec_capacity members.old }
    ensures { members.new.items ≡ members.old.items ++ member ∷ [] }
{
    let _ = members.push(member);
}

fn pop_member(members: &mut Vec<ReadMember>)
    ensures { members.new.items ≡ take (length members.old.items - 1) members.old.items }
{
    let _ = members.pop();
}

/// Puts an instance after the others, which no other knows yet. If memory runs out, nothing changes.
fn join(
    alloc: Global,
    members: &mut Vec<ReadMember>,
    kept: &mut KeptVerdicts,
    cycles: &mut Cycles,
    member: ReadMember,
) -> Result<(), AllocError>
    requires { (count : ℕ) × AreJoined members.old.items count kept.old }
    ensures members { OnOk result (members.new.items ≡ members.old.items ++ member ∷ []) }
    ensures kept { OnOk result (kept.new ≡ kept.old ++ blank_of member ∷ []) }
    ensures met { OnOk result ((a : ℕ) → a < length kept.old → met_at kept.new a ≡ met_at kept.old a) }
    ensures edges { OnOk result (cycles.new.edges.items ≡ cycles.old.edges.items ++ [] ∷ []) }
    ensures flags { OnOk result (cycles.new.flags.items ≡ cycles.old.flags.items ++ false ∷ []) }
    ensures same_members { OnErr result (members.new.items ≡ members.old.items) }
    ensures same_kept { OnErr result (kept.new ≡ kept.old) }
    ensures same_edges { OnErr result (cycles.new.edges.items ≡ cycles.old.edges.items) }
    ensures same_flags { OnErr result (cycles.new.flags.items ≡ cycles.old.flags.items) }
{
    let node = blank_of(alloc, member.member());
    members.reserve(1)?;
    cycles.reserve()?;
    kept.push(alloc, node)?;
    push_member(members, member);
    cycles.push(Places::from_vec(Vec::new(alloc)));
    Ok(())
}

/// Takes the last instance out again, which no other knows.
fn leave(members: &mut Vec<ReadMember>, kept: &mut KeptVerdicts, cycles: &mut Cycles)
    requires { (count : ℕ) × (count < length members.old.items) × AreJoined members.old.items count kept.old }
    ensures members { members.new.items ≡ take (length members.old.items - 1) members.old.items }
    ensures kept { kept.new ≡ take (length kept.old - 1) kept.old }
    ensures edges { cycles.new.edges.items ≡ take (length cycles.old.edges.items - 1) cycles.old.edges.items }
    ensures flags { cycles.new.flags.items ≡ take (length cycles.old.flags.items - 1) cycles.old.flags.items }
{
    pop_member(members);
    kept.pop();
    cycles.pop();
}

// ---- several

/// Takes the instances after the first ones out again, which no other knows.
pub(crate) fn leave_all(
    members: &mut Vec<ReadMember>,
    kept: &mut KeptVerdicts,
    cycles: &mut Cycles,
    count: usize,
)
    requires joined { AreJoined members.old.items count kept.old }
    requires edges { length cycles.old.edges.items ≡ length members.old.items }
    requires flags { length cycles.old.flags.items ≡ length members.old.items }
    ensures members { members.new.items ≡ take count members.old.items }
    ensures kept { kept.new ≡ nodes_of members.new.items }
    ensures edges { cycles.new.edges.items ≡ take count cycles.old.edges.items }
    ensures flags { cycles.new.flags.items ≡ take count cycles.old.flags.items }
{
    for _ in count..members.len() {
        leave(members, kept, cycles);
    }
}

/// Puts instances after the others, which no other knows yet. If memory runs out, nothing changes.
pub(crate) fn join_all(
    alloc: Global,
    members: &mut Vec<ReadMember>,
    kept: &mut KeptVerdicts,
    cycles: &mut Cycles,
    arrivals: Vec<ReadMember>,
) -> Result<(), AllocError>
    requires linked { kept.old ≡ nodes_of members.old.items }
    requires edged { cycles.old.edges.items ≡ edges_of kept.old }
    requires flagged { length cycles.old.flags.items ≡ length cycles.old.edges.items }
    ensures members { OnOk result (members.new.items ≡ members.old.items ++ arrivals.items) }
    ensures kept { OnOk result (kept.new ≡ kept.old ++ map blank_of arrivals.items) }
    ensures met { OnOk result ((a : ℕ) → a < length kept.old → met_at kept.new a ≡ met_at kept.old a) }
    ensures edges { OnOk result (cycles.new.edges.items ≡ cycles.old.edges.items ++ map no_edges arrivals.items) }
    ensures flags { OnOk result (cycles.new.flags.items ≡ cycles.old.flags.items ++ map no_flag arrivals.items) }
    ensures same_members { OnErr result (members.new.items ≡ members.old.items) }
    ensures same_kept { OnErr result (kept.new ≡ kept.old) }
    ensures same_edges { OnErr result (cycles.new.edges.items ≡ cycles.old.edges.items) }
    ensures same_flags { OnErr result (cycles.new.flags.items ≡ cycles.old.flags.items) }
{
    let count = members.len();
    for member in arrivals {
        if let Err(fault) = join(alloc, members, kept, cycles, member) {
            leave_all(members, kept, cycles, count);
            return Err(fault);
        }
    }
    Ok(())
}
