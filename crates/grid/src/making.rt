//! The parts of streams and utilities, and of a case on its grid.
ghost use Rattle.std.specs.Prelude.{◌≡◌, ◌≤◌, ◌≤ℤ◌, ◌<ℤ◌, ◌^◌, ◌<◌, ◌++◌, length, All, AllPairs, IfOk, OnOk};
ghost use Rattle.stream_case.specs.declared.limits.TheConstants.{ALL_UTILITIES, MOST_PLACES};
ghost use Rattle.stream_case.specs.declared.source.Side.TheVariants.{Hot, Cold};
ghost use Rattle.stream_case.specs.Case.{IsComplete};
ghost use Rattle.stream_case.specs.Stream.{high_end, low_end, AreStreams, IsValidStream};
ghost use Rattle.stream_case.specs.Utility.{IsPlaced};
ghost use Rattle.grid.specs.Grid.{HoldsPlaces, IsGrid};
ghost use Rattle.grid.specs.Part.{piece_heat, stream_part, utility_part, AreParts, AreCaseParts};
ghost use Rattle.grid.specs.Making.{picked, stands_at, is_here, covers, made_parts};

use crate::part::Part;
use crate::parts::Parts;
use crate::places::{Grid, grid_of};
use std::alloc::{AllocError, Global};
use stream_case::{Case, Items, Side, Source, Stream, Utility};

/// Whether a stream is latent, of this side and at this place.
fn stands_at(stream: &Stream, side: Side, place: i32) -> bool
    requires { IsValidStream stream.now }
    ensures { result ≡ stands_at side place stream.now }
{
    stream.side == side && stream.is_latent() && stream.high_end() == place
}

/// Whether a utility is of this side and at this place.
fn is_here(utility: &Utility, side: Side, place: i32) -> bool
    requires { IsPlaced utility.now }
    ensures { result ≡ is_here side place utility.now }
{
    utility.side == side && utility.shifted_level() == place
}

/// Whether a stream is of this side and its range holds the interval.
fn covers(stream: &Stream, side: Side, high: i32, low: i32) -> bool
    requires { IsValidStream stream.now }
    ensures { result ≡ covers side high low stream.now }
{
    stream.side == side && stream.low_end() <= low && high <= stream.high_end()
}

/// The part of a utility, at its level.
fn utility_part(index: u32, utility: &Utility) -> Part
    requires { IsPlaced utility.now }
    ensures { result ≡ utility_part index utility.now }
{
    let level = utility.shifted_level();
    Part {
        source: Source::Utility(index),
        side: utility.side,
        high: level,
        low: level,
        least: utility.least,
        most: utility.most,
        price: utility.price,
    }
}

/// The heat in watts of a stream on an interval inside its range, or of a latent one at its level.
fn piece_heat(stream: &Stream, high: i32, low: i32) -> i64
    requires valid { IsValidStream stream.now }
    requires order { low ≤ℤ high }
    requires from { low_end stream.now ≤ℤ low }
    requires upto { high ≤ℤ high_end stream.now }
    ensures { result ≡ piece_heat high low stream.now }
{
    stream.heat_between(high, low) + stream.load
}

/// The part of a stream on an interval inside its range, or of a latent one at its level.
fn stream_part(index: u32, stream: &Stream, high: i32, low: i32) -> Part
    requires valid { IsValidStream stream.now }
    requires order { low ≤ℤ high }
    requires from { low_end stream.now ≤ℤ low }
    requires upto { high ≤ℤ high_end stream.now }
    ensures { result ≡ stream_part high low index stream.now }
{
    let heat = piece_heat(stream, high, low);
    Part {
        source: Source::Stream(index),
        side: stream.side,
        high,
        low,
        least: heat,
        most: heat,
        price: 0,
    }
}

/// Appends the parts of the latent streams at a place.
fn push_latent(
    parts: &mut Vec<Part>,
    streams: &[Stream],
    side: Side,
    place: i32,
) -> Result<(), AllocError>
    requires valid { All IsValidStream streams.now }
    requires few { length streams.now < 2 ^ 32 }
    ensures { OnOk result (parts.new.items ≡ parts.old.items
        ++ picked (stands_at side place) (stream_part place place) 0 streams.now) }
{
    for (index, stream) in streams.iter().enumerate() {
        if stands_at(stream, side, place) {
            parts.push(stream_part(index as u32, stream, place, place))?;
        }
    }
    Ok(())
}

/// Appends the parts of the utilities at a place.
fn push_utilities(
    parts: &mut Vec<Part>,
    utilities: &[Utility],
    side: Side,
    place: i32,
) -> Result<(), AllocError>
    requires placed { All IsPlaced utilities.now }
    requires few { length utilities.now < 2 ^ 32 }
    ensures { OnOk result (parts.new.items
        ≡ parts.old.items ++ picked (is_here side place) utility_part 0 utilities.now) }
{
    for (index, utility) in utilities.iter().enumerate() {
        if is_here(utility, side, place) {
            parts.push(utility_part(index as u32, utility))?;
        }
    }
    Ok(())
}

/// Appends the parts of the streams on the interval from `high` down to `low`.
fn push_streams(
    parts: &mut Vec<Part>,
    streams: &[Stream],
    side: Side,
    high: i32,
    low: i32,
) -> Result<(), AllocError>
    requires valid { All IsValidStream streams.now }
    requires few { length streams.now < 2 ^ 32 }
    requires order { low ≤ℤ high }
    ensures { OnOk result (parts.new.items
        ≡ parts.old.items ++ picked (covers side high low) (stream_part high low) 0 streams.now) }
{
    for (index, stream) in streams.iter().enumerate() {
        if covers(stream, side, high, low) {
            parts.push(stream_part(index as u32, stream, high, low))?;
        }
    }
    Ok(())
}

/// The parts of one side.
fn side_parts(
    alloc: Global,
    streams: &[Stream],
    utilities: &[Utility],
    places: &[i32],
    side: Side,
) -> Result<Vec<Part>, AllocError>
    requires streams { AreStreams streams.now }
    requires utilities { All IsPlaced utilities.now }
    requires few_utilities { length utilities.now ≤ ALL_UTILITIES }
    requires falls { AllPairs (λ a b. b <ℤ a) places.now }
    ensures { IfOk result (λ parts. parts.items
        ≡ made_parts streams.now utilities.now side places.now) }
{
    let mut parts = Vec::new(alloc);
    for (index, place) in places.iter().enumerate() {
        push_latent(&mut parts, streams, side, *place)?;
        push_utilities(&mut parts, utilities, side, *place)?;
        if index + 1 < places.len() {
            push_streams(&mut parts, streams, side, *place, places[index + 1])?;
        }
    }
    Ok(parts)
}

/// The parts of streams and utilities on strictly falling places, in tenths of °C on the shifted
/// scale, that hold all shifted stream ends and utility levels. A stream has a part on each
/// interval inside its range, with its heat there as least and most; a latent stream has one part
/// at its level, with its load as least and most; a utility has one part at its level, with its
/// own range and price. Each side goes by falling high, then by falling low, then streams before
/// utilities in their order (this project's own order).
pub fn parts_on(
    alloc: Global,
    streams: &[Stream],
    utilities: &[Utility],
    places: &[i32],
) -> Result<Parts, AllocError>
    requires streams { AreStreams streams.now }
    requires utilities { All IsPlaced utilities.now }
    requires few_utilities { length utilities.now ≤ ALL_UTILITIES }
    requires places { HoldsPlaces streams.now utilities.now places.now }
    requires few_places { length places.now ≤ MOST_PLACES }
    ensures hot { IfOk result (λ parts.
        AreParts streams.now utilities.now places.now Hot parts.hot) }
    ensures cold { IfOk result (λ parts.
        AreParts streams.now utilities.now places.now Cold parts.cold) }
{
    let hot = side_parts(alloc, streams, utilities, places, Side::Hot)?;
    let cold = side_parts(alloc, streams, utilities, places, Side::Cold)?;
    Ok(Parts {
        hot: Items::from_vec(hot),
        cold: Items::from_vec(cold),
    })
}

/// The parts of a case on its grid: `parts_on` of its streams and utilities.
pub fn parts_of(alloc: Global, case: &Case, grid: &Grid) -> Result<Parts, AllocError>
    requires complete { IsComplete case.now }
    requires grid { IsGrid case.now grid.now.places }
    ensures hot { IfOk result (λ parts.
        AreParts case.now.streams case.now.utilities grid.now.places Hot parts.hot) }
    ensures cold { IfOk result (λ parts.
        AreParts case.now.streams case.now.utilities grid.now.places Cold parts.cold) }
{
    let streams = case.streams.as_slice();
    let utilities = case.utilities.as_slice();
    parts_on(alloc, streams, utilities, grid.places.as_slice())
}

/// The parts of a completed case on its grid.
pub fn case_parts(alloc: Global, case: &Case) -> Result<Parts, AllocError>
    requires { IsComplete case.now }
    ensures { IfOk result (λ parts. AreCaseParts case.now parts.hot parts.cold) }
{
    let grid = grid_of(alloc, case)?;
    parts_of(alloc, case, &grid)
}
