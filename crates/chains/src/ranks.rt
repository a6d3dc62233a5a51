//! The ranks of parts: the numbers of their places and intervals, from the highest down.
ghost use Rattle.std.specs.Prelude.{◌≡◌, ◌+◌, ◌*◌, ◌≤◌, ◌<ℤ◌, length, map, All, AllPairs, IfOk};
ghost use Rattle.stream_case.specs.declared.limits.TheConstants.{MOST_PLACES};
ghost use Rattle.chains.specs.Ranks.{place_index, rank_of, rank_count};

use grid::Part;
use std::alloc::{AllocError, Global};

/// The index of a temperature, in tenths of °C, among falling places, by halves; their number
/// where it is none of them.
fn place_index(places: &[i32], temperature: i32) -> usize
    requires { AllPairs (λ a b. b <ℤ a) places.now }
    ensures value { result ≡ place_index places.now temperature }
    ensures within { result ≤ length places.now }
{
    let index = places.partition_point(|place| *place > temperature);
    if index < places.len() && places[index] == temperature {
        index
    } else {
        places.len()
    }
}

/// The rank of a part whose ends stand among the places.
pub(crate) fn rank_of(places: &[i32], part: &Part) -> u32
    requires few { length places.now ≤ MOST_PLACES }
    requires falls { AllPairs (λ a b. b <ℤ a) places.now }
    ensures value { result ≡ rank_of places.now part.now }
    ensures within { result ≤ 2 * length places.now + 1 }
{
    let place = place_index(places, part.high) as u32;
    if part.high == part.low {
        2 * place
    } else {
        2 * place + 1
    }
}

/// The ranks of parts, in their order.
pub(crate) fn ranks_of(
    alloc: Global,
    places: &[i32],
    parts: &[Part],
) -> Result<Vec<u32>, AllocError>
    requires few { length places.now ≤ MOST_PLACES }
    requires falls { AllPairs (λ a b. b <ℤ a) places.now }
    ensures value { IfOk result (λ ranks. ranks.items ≡ map (rank_of places.now) parts.now) }
    ensures within { IfOk result (λ ranks. All (λ r. r ≤ 2 * MOST_PLACES + 1) ranks.items) }
{
    let mut ranks = Vec::with_capacity(alloc, parts.len())?;
    for part in parts {
        ranks.push(rank_of(places, part))?;
    }
    Ok(ranks)
}

/// How many ranks there are: one for each place, and one between each two.
pub(crate) fn rank_count(places: &[i32]) -> u32
    requires few { length places.now ≤ MOST_PLACES }
    ensures { result ≡ rank_count places.now }
{
    (2 * places.len()).saturating_sub(1) as u32
}
