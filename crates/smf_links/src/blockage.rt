//! Tests of links and instances, by the flags of the cited instances and by stamps.

ghost use Rattle.std.specs.List.{list_all, list_any};
ghost use Rattle.std.specs.Prelude.{◌≡◌, ◌||◌, map, slice_index};
ghost use Rattle.smf_links.specs.Blockage.{blocked_by, met_by, off_at, parks, parks_by, runs_at};
ghost use Rattle.smf_links.specs.Stamps.{before, has_stamp};
ghost use Rattle.smf_links.specs.Tallies.{entity_of};
ghost use Rattle.smf_links.specs.Wires.{AreTold, IsTallied, tally_in};

use crate::grouping::Grouping;
use crate::link::{GraphNode, Link};
use crate::tallies::tallies_at;
use crate::tally::{NodeTallies, Tally};
use crate::wires::Spot;
use smf_fmri::Items;

pub(crate) fn runs_at(nodes: &[GraphNode], place: usize) -> bool
    ensures { result ≡ runs_at nodes.now place }
{
    match nodes.get(place) {
        Some(node) => node.flags.running,
        None => false,
    }
}

pub(crate) fn off_at(nodes: &[GraphNode], place: usize) -> bool
    ensures { result ≡ off_at nodes.now place }
{
    match nodes.get(place) {
        Some(node) => node.flags.off,
        None => false,
    }
}

pub(crate) fn stamp_at(stamps: &[usize], place: usize) -> usize
    ensures { result ≡ slice_index stamps.now place }
{
    stamps.get(place).copied().unwrap_or(0)
}

fn is_before(stamps: &[usize], limit: usize, place: usize) -> bool
    ensures { result ≡ before stamps.now limit place }
{
    let stamp = stamp_at(stamps, place);
    0 < stamp && stamp < limit
}

fn is_settled(nodes: &[GraphNode], stamps: &[usize], limit: usize, place: usize) -> bool
    ensures { result ≡ (runs_at nodes.now place || before stamps.now limit place) }
{
    runs_at(nodes, place) || is_before(stamps, limit, place)
}

pub(crate) fn any_runs(nodes: &[GraphNode], places: &[usize]) -> bool
    ensures { result ≡ list_any (runs_at nodes.now) places.now }
{
    places.iter().any(|place| runs_at(nodes, *place))
}

pub(crate) fn all_off(nodes: &[GraphNode], places: &[usize]) -> bool
    ensures { result ≡ list_all (off_at nodes.now) places.now }
{
    places.iter().all(|place| off_at(nodes, *place))
}

fn all_before(stamps: &[usize], limit: usize, places: &[usize]) -> bool
    ensures { result ≡ list_all (before stamps.now limit) places.now }
{
    places.iter().all(|place| is_before(stamps, limit, *place))
}

fn all_settled(nodes: &[GraphNode], stamps: &[usize], limit: usize, places: &[usize]) -> bool
    ensures { result ≡ list_all (λ p. runs_at nodes.now p || before stamps.now limit p) places.now }
{
    places
        .iter()
        .all(|place| is_settled(nodes, stamps, limit, *place))
}

/// Something of each entity runs.
fn each_runs(nodes: &[GraphNode], cited: &[Items<usize>]) -> bool
    ensures { result ≡ list_all (list_any (runs_at nodes.now)) cited.now }
{
    cited
        .iter()
        .all(|places| any_runs(nodes, places.as_slice()))
}

/// Something of some entity runs.
fn some_runs(nodes: &[GraphNode], cited: &[Items<usize>]) -> bool
    ensures { result ≡ list_any (list_any (runs_at nodes.now)) cited.now }
{
    cited
        .iter()
        .any(|places| any_runs(nodes, places.as_slice()))
}

fn each_off(nodes: &[GraphNode], cited: &[Items<usize>]) -> bool
    ensures { result ≡ list_all (list_all (off_at nodes.now)) cited.now }
{
    cited.iter().all(|places| all_off(nodes, places.as_slice()))
}

fn some_before(stamps: &[usize], limit: usize, cited: &[Items<usize>]) -> bool
    ensures { result ≡ list_any (list_all (before stamps.now limit)) cited.now }
{
    cited
        .iter()
        .any(|places| all_before(stamps, limit, places.as_slice()))
}

fn each_before(stamps: &[usize], limit: usize, cited: &[Items<usize>]) -> bool
    ensures { result ≡ list_all (list_all (before stamps.now limit)) cited.now }
{
    cited
        .iter()
        .all(|places| all_before(stamps, limit, places.as_slice()))
}

fn each_settled(nodes: &[GraphNode], stamps: &[usize], limit: usize, cited: &[Items<usize>]) -> bool
    ensures { result ≡ list_all (list_all (λ p. runs_at nodes.now p || before stamps.now limit p)) cited.now }
{
    cited.iter().all(|places| all_settled(nodes, stamps, limit, places.as_slice()))
}

/// True if a link is blocked by the places with a stamp below the limit.
pub(crate) fn is_blocked(nodes: &[GraphNode], stamps: &[usize], limit: usize, link: &Link) -> bool
    ensures { result ≡ blocked_by (runs_at nodes.now) (off_at nodes.now) (before stamps.now limit) link.now }
{
    let cited = link.cited.as_slice();
    match link.grouping {
        Grouping::RequireAll => !each_runs(nodes, cited) && some_before(stamps, limit, cited),
        Grouping::RequireAny => !some_runs(nodes, cited) && each_before(stamps, limit, cited),
        Grouping::OptionalAll => false,
        Grouping::ExcludeAll => !each_off(nodes, cited) && some_runs(nodes, cited),
    }
}

pub(crate) fn is_met(nodes: &[GraphNode], stamps: &[usize], limit: usize, link: &Link) -> bool
    ensures { result ≡ met_by (runs_at nodes.now) (off_at nodes.now) (before stamps.now limit) link.now }
{
    let cited = link.cited.as_slice();
    match link.grouping {
        Grouping::RequireAll => each_runs(nodes, cited),
        Grouping::RequireAny => some_runs(nodes, cited),
        Grouping::OptionalAll => each_settled(nodes, stamps, limit, cited),
        Grouping::ExcludeAll => each_off(nodes, cited),
    }
}

/// True if a link is blocked by the places with a stamp below the limit. It asks the counts first: by all stamps the
/// link is blocked if it is by some.
fn is_blocked_by(
    nodes: &[GraphNode],
    stamps: &[usize],
    limit: usize,
    tallies: &[Tally],
    number: usize,
    link: &Link,
) -> bool
    requires { tally_in tallies.now number
        ≡ map (entity_of (runs_at nodes.now) (off_at nodes.now) (has_stamp stamps.now)) link.now.cited }
    ensures { result ≡ blocked_by (runs_at nodes.now) (off_at nodes.now) (before stamps.now limit) link.now }
{
    match tallies.get(number) {
        Some(tally) => tally.is_blocked(link.grouping) && is_blocked(nodes, stamps, limit, link),
        None => is_blocked(nodes, stamps, limit, link),
    }
}

/// True if a link is met, by its counts.
fn is_met_by(
    nodes: &[GraphNode],
    stamps: &[usize],
    limit: usize,
    tallies: &[Tally],
    number: usize,
    link: &Link,
) -> bool
    requires { tally_in tallies.now number
        ≡ map (entity_of (runs_at nodes.now) (off_at nodes.now) (before stamps.now limit)) link.now.cited }
    ensures { result ≡ met_by (runs_at nodes.now) (off_at nodes.now) (before stamps.now limit) link.now }
{
    match tallies.get(number) {
        Some(tally) => tally.is_met(link.grouping),
        None => is_met(nodes, stamps, limit, link),
    }
}

fn any_blocked(
    nodes: &[GraphNode],
    stamps: &[usize],
    limit: usize,
    tallies: &[Tally],
    links: &[Link],
) -> bool
    requires { AreTold (runs_at nodes.now) (off_at nodes.now) (has_stamp stamps.now) tallies.now links.now }
    ensures { result ≡ list_any (blocked_by (runs_at nodes.now) (off_at nodes.now) (before stamps.now limit))
        links.now }
{
    for (at, link) in links.iter().enumerate() {
        if is_blocked_by(nodes, stamps, limit, tallies, at, link) {
            return true;
        }
    }
    false
}

pub(crate) fn each_met(
    nodes: &[GraphNode],
    stamps: &[usize],
    limit: usize,
    tallies: &[Tally],
    links: &[Link],
) -> bool
    requires { AreTold (runs_at nodes.now) (off_at nodes.now)
        (before stamps.now limit) tallies.now links.now }
    ensures { result ≡ list_all (met_by (runs_at nodes.now) (off_at nodes.now) (before stamps.now limit)) links.now }
{
    for (at, link) in links.iter().enumerate() {
        if !is_met_by(nodes, stamps, limit, tallies, at, link) {
            return false;
        }
    }
    true
}

fn parks_by(
    nodes: &[GraphNode],
    stamps: &[usize],
    limit: usize,
    tallies: &[Tally],
    node: &GraphNode,
) -> bool
    requires { AreTold (runs_at nodes.now) (off_at nodes.now)
        (has_stamp stamps.now) tallies.now node.now.links }
    ensures { result ≡ parks_by (runs_at nodes.now) (off_at nodes.now) (before stamps.now limit) node.now }
{
    node.flags.idle
        || (node.flags.waiting && any_blocked(nodes, stamps, limit, tallies, node.links.as_slice()))
}

/// True if an instance is idle, or waits and is blocked by those with a stamp below the limit.
pub(crate) fn parks(
    nodes: &[GraphNode],
    stamps: &[usize],
    entries: &[Items<Spot>],
    tallies: &[NodeTallies],
    limit: usize,
    place: usize,
) -> bool
    requires { IsTallied nodes.now stamps.now entries.now tallies.now }
    ensures { result ≡ parks nodes.now (before stamps.now limit) place }
{
    let own = tallies_at(tallies, place);
    match nodes.get(place) {
        Some(node) => parks_by(nodes, stamps, limit, own, node),
        None => false,
    }
}
