ghost use Rattle.std.specs.Prelude.{◌≡◌, IfOk, IfSome, List, map};
ghost use Rattle.smf_dep.specs.Places.{IsBeginning, all_links, flags_of, link_of, links_among, links_of, node_of, nodes_of, places};
ghost use Rattle.smf_dep.specs.declared.member.GraphMember.{GraphMember as AnyMember};

use crate::dependency::Dependency;
use crate::member::{GraphMember, ReadMember};
use crate::names::{NameIndex, Names};
use crate::shared::Shared;
use smf_fmri::{Fmri, Items};
use smf_links::{Flags, GraphNode, Link, with_room};
use std::alloc::{AllocError, Global};

fn places_by_entity(
    alloc: Global,
    names: &Names<'_>,
    entities: &[Fmri],
) -> Result<Items<Items<usize>>, AllocError>
    ensures { IfOk result (λ pss. pss ≡ map (places names.now) entities.now) }
{
    let mut cited = Items::new(alloc);
    for entity in entities {
        cited.push(names.places(alloc, entity)?)?;
    }
    Ok(cited)
}

/// A dependency by the places of what it cites.
pub(crate) fn link_of(
    alloc: Global,
    names: &Names<'_>,
    dependency: &Dependency,
) -> Result<Link, AllocError>
    ensures { IfOk result (λ l. l ≡ link_of names.now dependency.now) }
{
    let cited = places_by_entity(alloc, names, dependency.entities.as_slice())?;
    Ok(Link {
        grouping: dependency.grouping,
        restart_on: dependency.restart_on,
        cited,
    })
}

fn links(
    alloc: Global,
    names: &Names<'_>,
    dependencies: &[Dependency],
) -> Result<Items<Link>, AllocError>
    ensures { IfOk result (λ ls. ls ≡ map (link_of names.now) dependencies.now) }
{
    let mut links = Items::new(alloc);
    for dependency in dependencies {
        links.push(link_of(alloc, names, dependency)?)?;
    }
    Ok(links)
}

fn links_of(
    alloc: Global,
    names: &Names<'_>,
    dependencies: &Option<Shared<Items<Dependency>>>,
) -> Result<Items<Link>, AllocError>
    ensures { IfOk result (λ ls. ls ≡ links_of names.now dependencies.now) }
{
    match dependencies {
        None => Ok(Items::new(alloc)),
        Some(dependencies) => links(alloc, names, dependencies.as_slice()),
    }
}

fn copy_of_places(alloc: Global, places: &[usize]) -> Result<Items<usize>, AllocError>
    ensures { IfOk result (λ copy. copy ≡ places.now) }
{
    let copy = places.to_vec(alloc)?;
    Ok(Items::from_vec(copy))
}

fn copy_of_cited(alloc: Global, cited: &[Items<usize>]) -> Result<Items<Items<usize>>, AllocError>
    ensures { IfOk result (λ copy. copy ≡ cited.now) }
{
    let mut copy = Items::new(alloc);
    for places in cited {
        copy.push(copy_of_places(alloc, places.as_slice())?)?;
    }
    Ok(copy)
}

fn copy_of_links(alloc: Global, links: &[Link]) -> Result<Items<Link>, AllocError>
    ensures { IfOk result (λ copy. copy ≡ links.now) }
{
    let mut copy = Items::new(alloc);
    for link in links {
        copy.push(Link {
            grouping: link.grouping,
            restart_on: link.restart_on,
            cited: copy_of_cited(alloc, link.cited.as_slice())?,
        })?;
    }
    Ok(copy)
}

/// A copy of an instance with its dependencies by places.
pub(crate) fn copy_of_node(alloc: Global, node: &GraphNode) -> Result<GraphNode, AllocError>
    ensures { IfOk result (λ copy. copy ≡ node.now) }
{
    let links = copy_of_links(alloc, node.links.as_slice())?;
    Ok(GraphNode {
        flags: node.flags,
        links,
    })
}

/// The flags of an instance, by its state.
pub(crate) fn flags_of(member: &GraphMember) -> Flags
    ensures { result ≡ flags_of member.now }
{
    Flags {
        running: member.is_running(),
        off: member.is_off(),
        idle: member.is_idle(),
        waiting: member.is_waiting(),
    }
}

/// An instance, with its dependencies by places.
fn node_with(member: &GraphMember, links: Items<Link>) -> GraphNode
    ensures { (ms : List AnyMember) → links ≡ links_of ms member.now.dependencies → result ≡ node_of ms member.now }
{
    GraphNode {
        flags: flags_of(member),
        links,
    }
}

/// An instance with what it depends on by places. It looks for these if none were kept.
pub(crate) fn node_of(
    alloc: Global,
    names: &Names<'_>,
    member: &GraphMember,
    kept: Option<GraphNode>,
) -> Result<GraphNode, AllocError>
    requires { IfSome kept (λ n. n.links ≡ links_of names.now member.now.dependencies) }
    ensures { IfOk result (λ n. n ≡ node_of names.now member.now) }
{
    match kept {
        Some(kept) => Ok(node_with(member, kept.links)),
        None => {
            let links = links_of(alloc, names, &member.dependencies)?;
            Ok(node_with(member, links))
        }
    }
}

/// Each instance with what it depends on by places, of which the first may have been kept.
pub(crate) fn nodes_of(
    alloc: Global,
    members: &[ReadMember],
    kept: Items<GraphNode>,
) -> Result<Items<GraphNode>, AllocError>
    requires { IsBeginning (all_links kept) (links_among members.now members.now) }
    ensures { IfOk result (λ ns. ns ≡ nodes_of members.now) }
{
    let index = NameIndex::of(alloc, members)?;
    let names = Names::by(members, &index);
    let mut kept = kept.into_vec().into_iter();
    let mut nodes = with_room(alloc, members.len())?;
    for member in members {
        nodes.push(node_of(alloc, &names, member.member(), kept.next())?)?;
    }
    Ok(nodes)
}
