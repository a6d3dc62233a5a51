//! The matches between two cuts of the heat axis.

ghost use Rattle.std.specs.Prelude.{◌≡◌, ◌+◌, ◌*◌, ◌≤◌, ◌<◌, ◌^◌, ◌++◌, All, length, IfOk, OnOk};
ghost use Rattle.std.specs.Prelude.{◌<ℤ◌, ◌≤ℤ◌, ◌-ℤ◌, ◌*ℤ◌, pos, unsigned_abs};
ghost use Rattle.fractions.specs.Rationals.{ratio};
ghost use Rattle.stream_case.specs.Limits.{IsBetween};
ghost use Rattle.stream_case.specs.declared.limits.TheConstants.{MOST_CP};
ghost use Rattle.sums.specs.Spans.{ListsOverlaps};
ghost use Rattle.vertical_design.specs.Limits.{AreBands, IsFlow, IsGap, IsSideFlow};
ghost use Rattle.vertical_design.specs.Matches.{IsMet, match_of, matches_in, scaled, side_flow};
ghost use Rattle.vertical_design.specs.declared.limits.TheConstants.{
  MOST_CUTS,
  MOST_FLOW,
  MOST_BANDS,
};

use crate::band::Band;
use crate::flows::{flows_in, scaled, sum_of};
use fractions::Frac;
use pieces::Exchange;
use std::alloc::{AllocError, Global};
use sums::{Pair, pair_amounts};

/// An interval between two cuts of the heat axis, in W: its number, from 0 for the topmost, and the
/// flow of each side in it, in 10 W/K.
#[derive(Clone, Copy)]
struct Gap {
    number: u32,
    low: i64,
    high: i64,
    hot: i64,
    cold: i64,
}

/// The index of the piece of a source in an interval.
fn piece_at(number: u32, bands: &[Band], index: u32) -> u32
    requires number { number < MOST_CUTS }
    requires few { length bands.now ≤ MOST_BANDS }
    requires index { index < length bands.now }
    ensures { result ≡ number * length bands.now + index }
{
    number * bands.len() as u32 + index
}

/// A quotient of two whole numbers.
fn quotient(num: i128, den: i64) -> Frac
    requires above { pos 0 <ℤ den }
    requires den { den ≤ℤ pos (2 ^ 48) }
    requires num { unsigned_abs num ≤ 2 ^ 76 }
    ensures { result ≡ ratio num (unsigned_abs den) }
{
    let Some(quotient) = Frac::new(num, den.unsigned_abs()) else {
        unreachable!()
    };
    quotient
}

/// The duty of a share, in W: as much of the heat between the cuts as the share is of the product
/// of both flows.
fn duty_of(gap: Gap, share: i64) -> Frac
    requires gap { IsGap gap.low gap.high }
    requires hot { IsBetween (pos 1) MOST_FLOW gap.hot }
    requires cold { IsBetween (pos 1) MOST_FLOW gap.cold }
    requires share { IsBetween (pos 1) (MOST_CP *ℤ MOST_FLOW) share }
    ensures { result
        ≡ ratio ((gap.high -ℤ gap.low) *ℤ share) (unsigned_abs (gap.hot *ℤ gap.cold)) }
{
    let width = i128::from(gap.high - gap.low);
    let part = i128::from(share);
    let heat = width * part;
    let flows = gap.hot * gap.cold;
    quotient(heat, flows)
}

/// The exchange that a share makes.
fn match_of(gap: Gap, hot: &[Band], cold: &[Band], pair: Pair) -> Exchange
    requires hot { AreBands hot.now }
    requires cold { AreBands cold.now }
    requires number { gap.number < MOST_CUTS }
    requires gap { IsGap gap.low gap.high }
    requires hot_flow { gap.hot ≡ side_flow gap.low gap.high hot.now }
    requires cold_flow { gap.cold ≡ side_flow gap.low gap.high cold.now }
    requires pair { IsMet gap.low gap.high hot.now cold.now pair }
    ensures { result ≡ match_of gap.number gap.low gap.high hot.now cold.now pair }
{
    let share = i128::from(pair.amount);
    Exchange {
        hot: piece_at(gap.number, hot, pair.first),
        cold: piece_at(gap.number, cold, pair.second),
        hot_size: quotient(share, gap.cold),
        cold_size: quotient(share, gap.hot),
        heat: duty_of(gap, pair.amount),
    }
}

/// The shares of the sources of both sides: each offers or asks for its flow times the flow of the
/// other side, and those amounts are paired in their order.
fn pairs_in(
    alloc: Global,
    gap: Gap,
    hot_flows: &[i64],
    cold_flows: &[i64],
) -> Result<Vec<Pair>, AllocError>
    requires hot { All IsFlow hot_flows.now }
    requires cold { All IsFlow cold_flows.now }
    requires few_hot { length hot_flows.now ≤ MOST_BANDS }
    requires few_cold { length cold_flows.now ≤ MOST_BANDS }
    requires hot_flow { IsSideFlow gap.hot }
    requires cold_flow { IsSideFlow gap.cold }
    ensures { IfOk result (λ pairs.
        ListsOverlaps (scaled gap.cold hot_flows.now) (scaled gap.hot cold_flows.now) pairs.items) }
{
    let offered = scaled(alloc, hot_flows, gap.cold)?;
    let asked = scaled(alloc, cold_flows, gap.hot)?;
    pair_amounts(alloc, offered.as_slice(), asked.as_slice())
}

/// Appends the exchanges between two cuts, by the hot source and then by the cold one.
pub(crate) fn push_matches(
    alloc: Global,
    exchanges: &mut Vec<Exchange>,
    number: u32,
    hot: &[Band],
    cold: &[Band],
    low: i64,
    high: i64,
) -> Result<(), AllocError>
    requires hot { AreBands hot.now }
    requires cold { AreBands cold.now }
    requires number { number < MOST_CUTS }
    requires gap { IsGap low high }
    ensures { OnOk result (exchanges.new.items
        ≡ exchanges.old.items ++ matches_in number low high hot.now cold.now) }
{
    let hot_flows = flows_in(alloc, hot, low, high)?;
    let cold_flows = flows_in(alloc, cold, low, high)?;
    let gap = Gap {
        number,
        low,
        high,
        hot: sum_of(&hot_flows),
        cold: sum_of(&cold_flows),
    };
    let pairs = pairs_in(alloc, gap, &hot_flows, &cold_flows)?;
    for pair in &pairs {
        exchanges.push(match_of(gap, hot, cold, *pair))?;
    }
    Ok(())
}
