//! The deficits.
ghost use Rattle.std.specs.Prelude.{◌≡◌};
ghost use Rattle.stream_case.specs.Limits.{IsStreamsHeat};
ghost use Rattle.stream_case.specs.Stream.{heat_over, AreStreams};
ghost use Rattle.problem_table.specs.Sides.{sum_side};
ghost use Rattle.problem_table.specs.Deficit.{deficit_over, deficit_above, deficit_from, IsDeficit};

use stream_case::{Case, Side, Stream};

/// The deficit of the streams of a case above `t`: `deficit_of` of these.
pub fn deficit_above(case: &Case, t: i32) -> i64
    requires { AreStreams case.now.streams }
    ensures value { result ≡ deficit_above case.now.streams t }
    ensures range { IsDeficit result }
{
    deficit_of(case.streams.as_slice(), t)
}

/// The deficit of the streams of a case from `t` on: that above `t`, plus the loads of the latent
/// cold streams at `t` and less those of the latent hot ones there.
pub fn deficit_from(case: &Case, t: i32) -> i64
    requires { AreStreams case.now.streams }
    ensures value { result ≡ deficit_from case.now.streams t }
    ensures range { IsDeficit result }
{
    deficit_over(case.streams.as_slice(), true, t)
}

/// The deficit of streams above the shifted temperature `t`, in tenths of °C: the heat that the
/// cold ones take above it less the heat that the hot ones give above it, in watts.
pub fn deficit_of(streams: &[Stream], t: i32) -> i64
    requires { AreStreams streams.now }
    ensures value { result ≡ deficit_above streams.now t }
    ensures range { IsDeficit result }
{
    deficit_over(streams, false, t)
}

/// The same, with the latent streams at `t` itself if `from_itself`.
pub(crate) fn deficit_over(streams: &[Stream], from_itself: bool, t: i32) -> i64
    requires { AreStreams streams.now }
    ensures value { result ≡ deficit_over from_itself streams.now t }
    ensures range { IsDeficit result }
{
    side_heat_over(streams, Side::Cold, from_itself, t)
        - side_heat_over(streams, Side::Hot, from_itself, t)
}

// The heat of all streams of a side above `t`, and of the latent ones at `t` itself if
// `from_itself`.
fn side_heat_over(streams: &[Stream], side: Side, from_itself: bool, t: i32) -> i64
    requires { AreStreams streams.now }
    ensures value { result ≡ sum_side side (heat_over from_itself t) streams.now }
    ensures range { IsStreamsHeat result }
{
    let mut heat = 0;
    for stream in streams {
        if stream.is_on(side) {
            heat += stream.heat_over(from_itself, t);
        }
    }
    heat
}
