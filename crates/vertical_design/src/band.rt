//! What each source covers of the heat axis.

ghost use Rattle.std.specs.Prelude.{◌≡◌, ◌<◌, ◌^◌, ◌++◌, length, IfOk, OnOk};
ghost use Rattle.std.specs.List.{enumerate_from, filter_map};
ghost use Rattle.stream_case.specs.Stream.{AreSensible, AreStreams};
ghost use Rattle.problem_table.specs.Deficit.{cold_target, hot_target};
ghost use Rattle.vertical_design.specs.Axis.{bands_of, stream_band, utility_band};
ghost use Rattle.vertical_design.specs.Axis.{utility_from, utility_to};

use crate::curve::{heat_at, side_heat};
use problem_table::{Target, targets};
use std::alloc::{AllocError, Global};
use stream_case::{Case, Side, Source, Stream, Utility};

/// What a source covers of the heat axis.
#[derive(Clone, Copy, Debug, PartialEq, Eq)]
pub struct Band {
    pub source: Source,
    /// The heat where it begins, in W.
    pub from: i64,
    /// The heat where it ends, in W.
    pub to: i64,
    /// The heat-capacity flow, in 10 W/K; 1 for a utility.
    pub cp: i64,
}

/// Appends the bands of the streams of a side.
fn push_streams(
    bands: &mut Vec<Band>,
    streams: &[Stream],
    side: Side,
    targets: Target,
) -> Result<(), AllocError>
    requires streams { AreStreams streams.now }
    requires cold_target { targets.cold ≡ cold_target streams.now }
    ensures { OnOk result (bands.new.items ≡ bands.old.items
        ++ filter_map (stream_band side streams.now) (enumerate_from 0 streams.now)) }
{
    for (number, stream) in streams.iter().enumerate() {
        if !stream.is_on(side) {
            continue;
        }
        let from = heat_at(streams, side, targets, stream.low_end());
        let to = heat_at(streams, side, targets, stream.high_end());
        bands.push(Band {
            source: Source::Stream(number as u32),
            from,
            to,
            cp: stream.cp,
        })?;
    }
    Ok(())
}

/// Where the utility of a side begins on the heat axis, in W, and where it ends.
fn utility_range(streams: &[Stream], side: Side, targets: Target) -> (i64, i64)
    requires streams { AreStreams streams.now }
    requires sensible { AreSensible streams.now }
    requires hot_target { targets.hot ≡ hot_target streams.now }
    requires cold_target { targets.cold ≡ cold_target streams.now }
    ensures from { result.0 ≡ utility_from side streams.now }
    ensures to { result.1 ≡ utility_to side streams.now }
{
    match side {
        Side::Hot => {
            let from = side_heat(streams, Side::Hot);
            (from, from + targets.hot)
        }
        Side::Cold => (0, targets.cold),
    }
}

/// Appends the band of the utility of a side.
fn push_utilities(
    bands: &mut Vec<Band>,
    case: &Case,
    side: Side,
    targets: Target,
) -> Result<(), AllocError>
    requires streams { AreStreams case.now.streams }
    requires sensible { AreSensible case.now.streams }
    requires few { length case.now.utilities < 2 ^ 32 }
    requires hot_target { targets.hot ≡ hot_target case.now.streams }
    requires cold_target { targets.cold ≡ cold_target case.now.streams }
    ensures { OnOk result (bands.new.items ≡ bands.old.items
        ++ filter_map (utility_band side case.now.streams) (enumerate_from 0 case.now.utilities)) }
{
    let (from, to) = utility_range(case.streams.as_slice(), side, targets);
    for (number, utility) in case.utilities.as_slice().iter().enumerate() {
        if !utility.is_on(side) {
            continue;
        }
        bands.push(Band {
            source: Source::Utility(number as u32),
            from,
            to,
            cp: 1,
        })?;
    }
    Ok(())
}

/// The bands of a side: those of its streams in their order, then that of its utility.
#[tactic(auto, unfolding(crate::specs::Axis::bands_of))]
pub(crate) fn bands_of(alloc: Global, case: &Case, side: Side) -> Result<Vec<Band>, AllocError>
    requires streams { AreStreams case.now.streams }
    requires sensible { AreSensible case.now.streams }
    requires few { length case.now.utilities < 2 ^ 32 }
    ensures { IfOk result (λ bands. bands.items ≡ bands_of side case.now) }
{
    let targets = targets(case);
    let mut bands = Vec::new(alloc);
    push_streams(&mut bands, case.streams.as_slice(), side, targets)?;
    push_utilities(&mut bands, case, side, targets)?;
    Ok(bands)
}
