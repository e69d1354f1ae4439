//! Lookups in a graph, and in the numbers and flags of its places.

ghost use Rattle.std.specs.Prelude.{◌≡◌, slice_index, slice_set, true};
ghost use Rattle.smf_cycles.specs.Paths.{edges_at, flag_at};

use crate::places::Places;

/// The places that the edges of a place lead to.
#[tactic(auto, unfolding(crate::specs::Paths::edges_at))]
pub(crate) fn edges_of(edges: &[Places], place: usize) -> &[usize]
    ensures { result.now ≡ edges_at edges.now place }
{
    match edges.get(place) {
        Some(places) => places.as_slice(),
        None => &[],
    }
}

pub(crate) fn number_at(numbers: &[usize], place: usize) -> usize
    ensures { result ≡ slice_index numbers.now place }
{
    numbers.get(place).copied().unwrap_or(0)
}

pub(crate) fn set_number(numbers: &mut [usize], place: usize, number: usize) {
    if place < numbers.len() {
        numbers[place] = number;
    }
}

#[tactic(auto, unfolding(crate::specs::Paths::flag_at))]
pub(crate) fn is_flagged(flags: &[bool], place: usize) -> bool
    ensures { result ≡ flag_at flags.now place }
{
    flags.get(place).copied().unwrap_or(false)
}

pub(crate) fn set_flag(flags: &mut Vec<bool>, place: usize)
    ensures { flags.new.items ≡ slice_set flags.old.items place true }
{
    if place < flags.len() {
        flags[place] = true;
    }
}
