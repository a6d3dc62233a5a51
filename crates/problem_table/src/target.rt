//! The hot and the cold target.
ghost use Rattle.std.specs.Prelude.{◌≡◌, ◌↔◌, IsTrue, pos, fold, map};
ghost use Rattle.std.specs.Int.{int_max};
ghost use Rattle.stream_case.specs.Limits.{IsStreamsHeat};
ghost use Rattle.stream_case.specs.Stream.{stream_ends, AreStreams};
ghost use Rattle.problem_table.specs.Deficit.{deficit_over, hot_target, cold_target, HasTightDeficit, IsTightOver};

use crate::deficit::{deficit_of, deficit_over};
use stream_case::{Case, Stream};

/// The least hot and the least cold utility, in watts.
#[derive(Clone, Copy, Debug, PartialEq, Eq, Hash)]
pub struct Target {
    pub hot: i64,
    pub cold: i64,
}

/// The targets of the streams of a case. The hot target is the greatest of both deficits over the
/// shifted stream ends, and at least 0. The cold target is the hot target plus all hot heat less all
/// cold heat (Linnhoff and Flower 1978).
pub fn targets(case: &Case) -> Target
    requires { AreStreams case.now.streams }
    ensures hot { result.hot ≡ hot_target case.now.streams }
    ensures cold { result.cold ≡ cold_target case.now.streams }
    ensures hot_range { IsStreamsHeat result.hot }
    ensures cold_range { IsStreamsHeat result.cold }
{
    targets_of(case.streams.as_slice())
}

// The targets of streams.
pub(crate) fn targets_of(streams: &[Stream]) -> Target
    requires { AreStreams streams.now }
    ensures hot { result.hot ≡ hot_target streams.now }
    ensures cold { result.cold ≡ cold_target streams.now }
    ensures hot_range { IsStreamsHeat result.hot }
    ensures cold_range { IsStreamsHeat result.cold }
{
    let hot = hot_target(streams);
    // All heats lie above the least number.
    let cold = hot - deficit_of(streams, i32::MIN);
    Target { hot, cold }
}

// The greatest of both deficits over the stream ends, and at least 0.
pub(crate) fn hot_target(streams: &[Stream]) -> i64
    requires { AreStreams streams.now }
    ensures value { result ≡ hot_target streams.now }
    ensures range { IsStreamsHeat result }
{
    greatest_deficit(streams, false).max(greatest_deficit(streams, true))
}

// The greatest of one of the deficits over the stream ends, and at least 0.
fn greatest_deficit(streams: &[Stream], from_itself: bool) -> i64
    requires { AreStreams streams.now }
    ensures { result ≡ fold int_max (pos 0)
        (map (deficit_over from_itself streams.now) (stream_ends streams.now)) }
{
    let mut greatest: i64 = 0;
    for stream in streams {
        greatest = greatest
            .max(deficit_over(streams, from_itself, stream.high_end()))
            .max(deficit_over(streams, from_itself, stream.low_end()));
    }
    greatest
}

// Whether one of the deficits at `t` is the hot target.
pub(crate) fn is_tight(streams: &[Stream], hot: i64, t: i32) -> bool
    requires streams { AreStreams streams.now }
    requires hot { hot ≡ hot_target streams.now }
    ensures { IsTrue result ↔ HasTightDeficit streams.now t }
{
    is_tight_over(streams, hot, false, t) || is_tight_over(streams, hot, true, t)
}

// Whether the deficit over `t` is the hot target.
pub(crate) fn is_tight_over(streams: &[Stream], hot: i64, from_itself: bool, t: i32) -> bool
    requires streams { AreStreams streams.now }
    requires hot { hot ≡ hot_target streams.now }
    ensures { IsTrue result ↔ IsTightOver from_itself streams.now t }
{
    deficit_over(streams, from_itself, t) == hot
}
