//! Whether transfers are a heat flow.
ghost use Rattle.std.specs.Prelude.{◌≡◌, ◌↔◌, ◌<◌, ◌≤◌, ℕ, pos, IsTrue, length, All, AllPairs, slice_index_or};
ghost use Rattle.stream_case.specs.Limits.{IsBetween};
ghost use Rattle.heat_flow.specs.Checks.{IsTransfer, IsFlowOver, SumsWithin};
ghost use Rattle.heat_flow.specs.Flow.{part_index, heat_at, precedes, HaveParts, ArePositive, KeepsRanges, IsHeatFlow};

use crate::flow::{Flow, Transfer};
use crate::reach::{Reach, Reaches};
use crate::table::has_sizes;
use grid::{Part, Parts};
use stream_case::{MOST_PARTS, Side};

/// Whether a transfer is positive and joins two of these parts that reach.
fn is_transfer<R: Reaches>(parts: &Parts, reach: &R, transfer: &Transfer) -> bool
    requires { R.is_sound reach.now }
    ensures { IsTrue result
        ↔ IsTransfer (R.reach reach.now) parts.now.hot parts.now.cold transfer.now }
{
    let hots = parts.hot.len();
    let colds = parts.cold.len();
    if transfer.hot as usize >= hots || transfer.cold as usize >= colds {
        return false;
    }
    transfer.heat > 0 && reach.reaches(transfer.hot, transfer.cold)
}

/// Whether each transfer is positive and joins two of these parts that reach.
fn are_transfers<R: Reaches>(parts: &Parts, reach: &R, transfers: &[Transfer]) -> bool
    requires { R.is_sound reach.now }
    ensures { IsTrue result
        ↔ All (IsTransfer (R.reach reach.now) parts.now.hot parts.now.cold) transfers.now }
{
    transfers
        .iter()
        .all(|transfer| is_transfer(parts, reach, transfer))
}

/// Whether a transfer stands before another by the hot part, then by the cold part.
fn precedes(first: &Transfer, second: &Transfer) -> bool
    ensures { IsTrue result ↔ precedes first.now second.now }
{
    first.hot < second.hot || (first.hot == second.hot && first.cold < second.cold)
}

/// Whether each transfer stands before all later ones, by the hot part and then by the cold part.
fn are_ordered(transfers: &[Transfer]) -> bool
    ensures { IsTrue result ↔ AllPairs precedes transfers.now }
{
    for i in 1..transfers.len() {
        if !precedes(&transfers[i - 1], &transfers[i]) {
            return false;
        }
    }
    true
}

/// Adds each transfer to the sum of its part of this side. All sums are 0 before.
fn add_heats(sums: &mut [i128], side: Side, transfers: &[Transfer])
    requires zeros { All (λ sum. sum ≡ pos 0) sums.old }
    requires indexes { All (λ t. part_index side t < length sums.old) transfers.now }
    requires positive { ArePositive transfers.now }
    ensures { (a : ℕ) → a < length sums.new → slice_index_or sums.new a (pos 0)
        ≡ heat_at side transfers.now a }
{
    for transfer in transfers {
        sums[transfer.part_index(side) as usize] += i128::from(transfer.heat);
    }
}

/// Whether a sum is within a part's range.
fn is_within(part: &Part, sum: i128) -> bool
    ensures { IsTrue result ↔ IsBetween part.now.least part.now.most sum }
{
    i128::from(part.least) <= sum && sum <= i128::from(part.most)
}

/// Whether the sum of each part is within the part's range.
fn are_within(parts: &[Part], sums: &[i128]) -> bool
    requires { length parts.now ≤ length sums.now }
    ensures { IsTrue result ↔ SumsWithin parts.now sums.now }
{
    for (index, part) in parts.iter().enumerate() {
        if !is_within(part, sums[index]) {
            return false;
        }
    }
    true
}

/// Whether the sum of the transfers of each part of a side is within the part's range. The sums
/// of all parts are formed in one pass over the transfers.
fn keeps_ranges(side: Side, parts: &[Part], transfers: &[Transfer]) -> bool
    requires few { length parts.now ≤ MOST_PARTS }
    requires indexes { HaveParts side parts.now transfers.now }
    requires positive { ArePositive transfers.now }
    ensures { IsTrue result ↔ KeepsRanges side parts.now transfers.now }
{
    let mut sums = [0i128; MOST_PARTS];
    add_heats(&mut sums, side, transfers);
    are_within(parts, &sums)
}

/// Whether transfers are a heat flow over these parts: each transfer is positive and joins parts
/// that reach, the list rises strictly by hot part and then by cold part, and the sum of the
/// transfers of each part is within the part's range. Indexes out of range give false.
pub fn is_heat_flow<R: Reaches>(parts: &Parts, reach: &R, transfers: &[Transfer]) -> bool
    requires { R.is_sound reach.now }
    ensures { IsTrue result
        ↔ IsHeatFlow (R.reach reach.now) parts.now.hot parts.now.cold transfers.now }
{
    if !are_transfers(parts, reach, transfers) || !are_ordered(transfers) {
        return false;
    }
    keeps_ranges(Side::Hot, parts.hot.as_slice(), transfers)
        && keeps_ranges(Side::Cold, parts.cold.as_slice(), transfers)
}

/// Whether a list of transfers is a heat flow over these parts, as `is_heat_flow` says it. A table
/// of other sizes than the parts' lists gives false.
pub fn is_flow(parts: &Parts, reach: &Reach, flow: &Flow) -> bool
    ensures { IsTrue result
        ↔ IsFlowOver parts.now.hot parts.now.cold reach.now flow.now.transfers }
{
    has_sizes(reach, parts) && is_heat_flow(parts, reach, flow.transfers.as_slice())
}
