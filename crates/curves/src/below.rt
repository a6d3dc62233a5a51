//! The heat of a side below an actual temperature.
ghost use Rattle.std.specs.Prelude.{◌≡◌};
ghost use Rattle.stream_case.specs.Limits.{IsSensibleHeat, IsStreamHeat, IsStreamsHeat};
ghost use Rattle.stream_case.specs.Stream.{AreStreams, IsValidStream};
ghost use Rattle.problem_table.specs.Sides.{sum_side};
ghost use Rattle.curves.specs.Below.{heat_under, load_under, sensible_below};

use stream_case::{Side, Stream, counts_above};

// The sensible heat of a stream below `t`.
fn sensible_below(stream: &Stream, t: i32) -> i64
    requires { IsValidStream stream.now }
    ensures value { result ≡ sensible_below t stream.now }
    ensures range { IsSensibleHeat result }
{
    let low = stream.lower_temperature();
    stream.heat_between(t.clamp(low, stream.higher_temperature()), low)
}

// The load of a stream, if its temperature counts as below `t`.
fn load_under(stream: &Stream, upto_itself: bool, t: i32) -> i64
    requires { IsValidStream stream.now }
    ensures value { result ≡ load_under upto_itself t stream.now }
    ensures range { IsStreamHeat result }
{
    if counts_above(upto_itself, stream.supply, t) {
        stream.load
    } else {
        0
    }
}

// The heat of a stream below `t`, with that of a latent one at `t` itself if `upto_itself`.
fn heat_under(stream: &Stream, upto_itself: bool, t: i32) -> i64
    requires { IsValidStream stream.now }
    ensures value { result ≡ heat_under upto_itself t stream.now }
    ensures range { IsStreamHeat result }
{
    sensible_below(stream, t) + load_under(stream, upto_itself, t)
}

// The heat of all streams of a side below `t`, with that of the latent ones at `t` itself if
// `upto_itself`.
pub(crate) fn side_heat_under(streams: &[Stream], side: Side, upto_itself: bool, t: i32) -> i64
    requires { AreStreams streams.now }
    ensures value { result ≡ sum_side side (heat_under upto_itself t) streams.now }
    ensures range { IsStreamsHeat result }
{
    let mut heat = 0;
    for stream in streams {
        if stream.is_on(side) {
            heat += heat_under(stream, upto_itself, t);
        }
    }
    heat
}
