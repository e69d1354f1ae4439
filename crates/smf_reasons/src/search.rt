//! A search for the places of a cycle. Its answer is a hint, which is checked.

use crate::cycles::cites;
use smf_dep::GraphMember;
use std::alloc::{AllocError, Global};

fn set(before: &mut Vec<Option<usize>>, at: usize, place: usize) {
    if at < before.len() {
        before[at] = Some(place);
    }
}

/// Notes the places that an instance cites and that were not seen before.
fn note(
    members: &[GraphMember],
    from: &GraphMember,
    place: usize,
    before: &mut Vec<Option<usize>>,
    work: &mut Vec<usize>,
) -> Result<(), AllocError> {
    for next in 0..members.len() {
        if let Some(None) = before.get(next)
            && cites(from, &members[next])
        {
            set(before, next, place);
            work.push(next)?;
        }
    }
    Ok(())
}

/// The places from the start to the last one, by what each was seen from.
fn path_to_place(
    alloc: Global,
    before: &[Option<usize>],
    last: usize,
) -> Result<Vec<usize>, AllocError> {
    let mut places = Vec::new(alloc);
    let mut at = last;
    for _ in 0..before.len() {
        places.push(at)?;
        match before.get(at) {
            Some(Some(place)) if *place < before.len() => at = *place,
            _ => break,
        }
    }
    places.reverse();
    Ok(places)
}

/// The places between an instance and itself, the fewest.
pub(crate) fn places_of_cycle(
    alloc: Global,
    members: &[GraphMember],
    member: &GraphMember,
) -> Result<Vec<usize>, AllocError> {
    let none = members.len();
    let mut before = vec![in alloc; None; none]?;
    let mut work = Vec::new(alloc);
    if cites(member, member) {
        return Ok(work);
    }
    note(members, member, none, &mut before, &mut work)?;
    for at in 0..none {
        let Some(place) = work.get(at).copied() else {
            break;
        };
        let Some(from) = members.get(place) else {
            break;
        };
        if cites(from, member) {
            return path_to_place(alloc, before.as_slice(), place);
        }
        note(members, from, place, &mut before, &mut work)?;
    }
    Ok(Vec::new(alloc))
}
