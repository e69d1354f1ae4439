//! Places that a walk's hints show to be on a cycle. The root of a component leads to each of its places, and each
//! place leads to the root. A hint that does not hold leaves a place out.

ghost use Rattle.std.specs.List.{list_any};
ghost use Rattle.std.specs.Prelude.{◌≡◌, IfOk, slice_index};
ghost use Rattle.smf_cycles.specs.Components.{Comes, FlagsSay, IsSpread, is_way, is_way_back};
ghost use Rattle.smf_cycles.specs.Paths.{IsOnCycle};

use crate::graph::{edges_of, is_flagged, number_at, set_flag};
use crate::places::Places;
use crate::walk::Walk;
use std::alloc::{AllocError, Global};

/// True if a place is the target, or its flag says that it leads to the target.
#[tactic(auto, unfolding(crate::specs::Components::is_way))]
fn is_way(flags: &[bool], targets: &[usize], target: usize, place: usize) -> bool
    ensures { result ≡ is_way flags.now targets.now target place }
{
    place == target || (is_flagged(flags, place) && number_at(targets, place) == target)
}

fn has_way(flags: &[bool], targets: &[usize], target: usize, places: &[usize]) -> bool
    ensures { result ≡ list_any (λ q. is_way flags.now targets.now target q) places.now }
{
    places
        .iter()
        .any(|place| is_way(flags, targets, target, *place))
}

/// Flags places that lead to their targets.
fn led_to(
    alloc: Global,
    edges: &[Places],
    order: &[usize],
    targets: &[usize],
) -> Result<Vec<bool>, AllocError>
    ensures { IfOk result (λ flags. FlagsSay (λ a. Comes edges.now a (slice_index targets.now a)) flags.items) }
{
    let mut flags = vec![in alloc; false; edges.len()]?;
    for place in order {
        let target = number_at(targets, *place);
        if has_way(flags.as_slice(), targets, target, edges_of(edges, *place)) {
            set_flag(&mut flags, *place);
        }
    }
    Ok(flags)
}

/// Flags places that lead to their roots, by what those with a flag in `led` lead to.
fn led_back(
    alloc: Global,
    edges: &[Places],
    order: &[usize],
    led: &[bool],
    targets: &[usize],
    roots: &[usize],
) -> Result<Vec<bool>, AllocError>
    requires { FlagsSay (λ a. Comes edges.now a (slice_index targets.now a)) led.now }
    ensures { IfOk result (λ flags. FlagsSay (λ a. Comes edges.now a (slice_index roots.now a)) flags.items) }
{
    let mut flags = vec![in alloc; false; edges.len()]?;
    for place in order {
        let root = number_at(roots, *place);
        let target = number_at(targets, *place);
        if is_way_back(
            is_flagged(led, *place),
            flags.as_slice(),
            roots,
            root,
            *place,
            target,
        ) {
            set_flag(&mut flags, *place);
        }
    }
    Ok(flags)
}

/// True if a place is the root, or leads to a target from which there is a way to the root.
#[tactic(auto, unfolding(crate::specs::Components::is_way_back))]
fn is_way_back(
    is_led: bool,
    flags: &[bool],
    roots: &[usize],
    root: usize,
    place: usize,
    target: usize,
) -> bool
    ensures { result ≡ is_way_back is_led flags.now roots.now root place target }
{
    place == root || (is_led && is_way(flags, roots, root, target))
}

/// Flags those of the places that have the root.
fn spread(flags: &mut Vec<bool>, roots: &[usize], root: usize, places: &[usize])
    ensures { IsSpread roots.now root places.now flags.old.items flags.new.items }
{
    for place in places {
        if number_at(roots, *place) == root {
            set_flag(flags, *place);
        }
    }
}

/// Flags roots.
fn roots_alone(alloc: Global, count: usize, roots: &[usize]) -> Result<Vec<bool>, AllocError>
    ensures { IfOk result (λ flags. FlagsSay (λ a. slice_index roots.now a ≡ a) flags.items) }
{
    let mut flags = vec![in alloc; false; count]?;
    for place in 0..count {
        if number_at(roots, place) == place {
            set_flag(&mut flags, place);
        }
    }
    Ok(flags)
}

/// Flags places to which their roots lead.
fn led_from(
    alloc: Global,
    edges: &[Places],
    order: &[usize],
    roots: &[usize],
) -> Result<Vec<bool>, AllocError>
    ensures { IfOk result (λ flags. FlagsSay (λ a. Comes edges.now (slice_index roots.now a) a) flags.items) }
{
    let mut flags = roots_alone(alloc, edges.len(), roots)?;
    for place in order {
        if is_flagged(flags.as_slice(), *place) {
            spread(
                &mut flags,
                roots,
                number_at(roots, *place),
                edges_of(edges, *place),
            );
        }
    }
    Ok(flags)
}

/// Flags places to which their roots lead and that have an edge to a place which leads to the same root.
fn cycle_flags(
    alloc: Global,
    edges: &[Places],
    back: &[bool],
    from: &[bool],
    roots: &[usize],
) -> Result<Vec<bool>, AllocError>
    requires back { FlagsSay (λ a. Comes edges.now a (slice_index roots.now a)) back.now }
    requires away { FlagsSay (λ a. Comes edges.now (slice_index roots.now a) a) from.now }
    ensures { IfOk result (λ flags. FlagsSay (IsOnCycle edges.now) flags.items) }
{
    let mut flags = vec![in alloc; false; edges.len()]?;
    for place in 0..edges.len() {
        let is_back = has_way(back, roots, number_at(roots, place), edges_of(edges, place));
        if is_flagged(from, place) && is_back {
            set_flag(&mut flags, place);
        }
    }
    Ok(flags)
}

pub(crate) fn members_of(
    alloc: Global,
    edges: &[Places],
    walk: &Walk,
) -> Result<Vec<bool>, AllocError>
    ensures { IfOk result (λ flags. FlagsSay (IsOnCycle edges.now) flags.items) }
{
    let roots = walk.roots();
    let targets = walk.targets();
    let led = led_to(alloc, edges, walk.exit_order(), targets)?;
    let back = led_back(
        alloc,
        edges,
        walk.entry_order(),
        led.as_slice(),
        targets,
        roots,
    )?;
    let from = led_from(alloc, edges, walk.entry_order(), roots)?;
    cycle_flags(alloc, edges, back.as_slice(), from.as_slice(), roots)
}
