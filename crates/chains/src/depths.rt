//! The depths of parts: at how many ranks above their own parts stand. A chain has a node for each
//! of these ranks.
ghost use Rattle.std.specs.Prelude.{◌≡◌, ◌+◌, ◌*◌, ◌<◌, ◌≤◌, ◌<ℤ◌, ◌==◌, ◌++◌, ◌||◌, false, length, map, slice_index, slice_index_or, All, AllPairs, EachIndex, IfOk};
ghost use Rattle.std.specs.List.{list_any, range_with_len};
ghost use Rattle.stream_case.specs.declared.limits.TheConstants.{MOST_PLACES};
ghost use Rattle.chains.specs.Ranks.{rank_count, rank_of};
ghost use Rattle.chains.specs.Depths.{used_among, AreDepths};

use crate::ranks::{rank_count, ranks_of};
use grid::Parts;
use std::alloc::{AllocError, Global};

/// The depths of the hot and of the cold parts, in their order, and how many nodes a chain has.
#[derive(Drop)]
pub(crate) struct Depths {
    pub hot: Vec<u32>,
    pub cold: Vec<u32>,
    pub nodes: u32,
}

/// Marks these ranks.
fn mark(used: &mut [bool], ranks: &[u32])
    requires { All (λ rank. rank < length used.old) ranks.now }
    ensures { EachIndex used.new (λ k. slice_index_or used.new k false
        ≡ (slice_index_or used.old k false || list_any (λ r. r == k) ranks.now)) }
{
    for rank in ranks {
        used[*rank as usize] = true;
    }
}

/// For each rank, whether it is one of those of the hot or the cold parts. They are marked, so
/// that the parts are not gone through for each rank.
fn used_ranks(alloc: Global, ranks: u32, hot: &[u32], cold: &[u32]) -> Result<Vec<bool>, AllocError>
    requires hot { All (λ rank. rank < ranks) hot.now }
    requires cold { All (λ rank. rank < ranks) cold.now }
    ensures count { IfOk result (λ used. length used.items ≡ ranks) }
    ensures each { IfOk result (λ used. EachIndex used.items (λ k.
        slice_index_or used.items k false ≡ list_any (λ r. r == k) (hot.now ++ cold.now))) }
{
    let mut used = vec![in alloc; false; ranks as usize]?;
    mark(&mut used, hot);
    mark(&mut used, cold);
    Ok(used)
}

/// For each rank, and behind the last one, how many of the ranks above it are those of hot or cold
/// parts.
fn used_above(alloc: Global, ranks: u32, hot: &[u32], cold: &[u32]) -> Result<Vec<u32>, AllocError>
    requires few { ranks ≤ 2 * MOST_PLACES }
    requires hot { All (λ rank. rank < ranks) hot.now }
    requires cold { All (λ rank. rank < ranks) cold.now }
    ensures { IfOk result (λ above.
        above.items ≡ map (used_among (hot.now ++ cold.now)) (range_with_len 0 (ranks + 1))) }
{
    let used = used_ranks(alloc, ranks, hot, cold)?;
    let mut above = Vec::with_capacity(alloc, ranks as usize + 1)?;
    let mut count = 0;
    for is_used in &used {
        above.push(count)?;
        if *is_used {
            count += 1;
        }
    }
    above.push(count)?;
    Ok(above)
}

/// What stands at each of these ranks.
fn at_ranks(alloc: Global, above: &[u32], ranks: &[u32]) -> Result<Vec<u32>, AllocError>
    requires { All (λ rank. rank < length above.now) ranks.now }
    ensures { IfOk result (λ found. found.items ≡ map (slice_index above.now) ranks.now) }
{
    let mut found = Vec::with_capacity(alloc, ranks.len())?;
    for rank in ranks {
        found.push(above[*rank as usize])?;
    }
    Ok(found)
}

/// The depths of parts whose ends stand among the places.
pub(crate) fn depths_of(alloc: Global, places: &[i32], parts: &Parts) -> Result<Depths, AllocError>
    requires few { length places.now ≤ MOST_PLACES }
    requires falls { AllPairs (λ a b. b <ℤ a) places.now }
    requires hot { All (λ p. rank_of places.now p < rank_count places.now) parts.now.hot }
    requires cold { All (λ p. rank_of places.now p < rank_count places.now) parts.now.cold }
    ensures { IfOk result (λ depths. AreDepths places.now parts.now.hot parts.now.cold depths) }
{
    let ranks = rank_count(places);
    let hot = ranks_of(alloc, places, parts.hot.as_slice())?;
    let cold = ranks_of(alloc, places, parts.cold.as_slice())?;
    let above = used_above(alloc, ranks, &hot, &cold)?;
    let hot_depths = at_ranks(alloc, &above, &hot)?;
    let cold_depths = at_ranks(alloc, &above, &cold)?;
    Ok(Depths {
        hot: hot_depths,
        cold: cold_depths,
        nodes: above[ranks as usize].max(1),
    })
}
