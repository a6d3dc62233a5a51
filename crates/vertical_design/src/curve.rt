//! The shifted composite curves.

ghost use Rattle.std.specs.Prelude.{◌≡◌};
ghost use Rattle.stream_case.specs.Limits.{IsStreamHeat, IsStreamsHeat};
ghost use Rattle.stream_case.specs.Stream.{AreSensible, AreStreams, IsValidStream, heat_of};
ghost use Rattle.problem_table.specs.Deficit.{cold_target};
ghost use Rattle.problem_table.specs.Sides.{sum_side};
ghost use Rattle.vertical_design.specs.Axis.{heat_at, heat_below};

use problem_table::Target;
use stream_case::{HIGHEST_SHIFTED, Side, Stream};

/// The heat of a stream below the shifted temperature `t`, in W.
fn heat_below(stream: &Stream, t: i32) -> i64
    requires { IsValidStream stream.now }
    ensures value { result ≡ heat_below t stream.now }
    ensures range { IsStreamHeat result }
{
    let low = stream.low_end();
    stream.heat_between(t.clamp(low, stream.high_end()), low)
}

/// The heat of all streams of a side below the shifted temperature `t`, in W.
fn side_heat_below(streams: &[Stream], side: Side, t: i32) -> i64
    requires { AreStreams streams.now }
    ensures value { result ≡ sum_side side (heat_below t) streams.now }
    ensures range { IsStreamsHeat result }
{
    let mut heat = 0;
    for stream in streams {
        if stream.is_on(side) {
            heat += heat_below(stream, t);
        }
    }
    heat
}

/// All heat of a side, in W.
pub(crate) fn side_heat(streams: &[Stream], side: Side) -> i64
    requires streams { AreStreams streams.now }
    requires sensible { AreSensible streams.now }
    ensures value { result ≡ sum_side side heat_of streams.now }
    ensures range { IsStreamsHeat result }
{
    side_heat_below(streams, side, HIGHEST_SHIFTED)
}

/// The heat of the shifted curve of a side at the shifted temperature `t`, in W: the hot curve
/// begins at heat 0, and the cold one at the cold target.
pub(crate) fn heat_at(streams: &[Stream], side: Side, targets: Target, t: i32) -> i64
    requires streams { AreStreams streams.now }
    requires cold_target { targets.cold ≡ cold_target streams.now }
    ensures { result ≡ heat_at side streams.now t }
{
    let heat = side_heat_below(streams, side, t);
    match side {
        Side::Hot => heat,
        Side::Cold => targets.cold + heat,
    }
}
