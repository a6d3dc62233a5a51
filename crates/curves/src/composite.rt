//! The hot and the cold composite curve.
ghost use Rattle.std.specs.Prelude.{◌≡◌, IfOk};
ghost use Rattle.std.specs.List.{list_any};
ghost use Rattle.stream_case.specs.Stream.{AreStreams};
ghost use Rattle.curves.specs.Below.{temperatures_of};
ghost use Rattle.curves.specs.Curve.{is_latent_at, IsSideCurve};

use crate::below::side_heat_under;
use crate::point::Point;
use std::alloc::{AllocError, Global};
use stream_case::{Case, Items, Side, Stream};
use sums::rising;

/// The hot composite curve: for each actual temperature that is an end of a hot stream, rising
/// and each once, the heat of all hot streams below it. Where a latent hot stream has this
/// temperature a second point follows, with the heat of those that condense there added. The
/// curve is empty where there is no hot stream.
pub fn hot_curve(alloc: Global, case: &Case) -> Result<Items<Point>, AllocError>
    requires { AreStreams case.now.streams }
    ensures { IfOk result (λ curve. IsSideCurve Side.Hot case.now.streams curve) }
{
    side_curve(alloc, case.streams.as_slice(), Side::Hot)
}

/// The cold composite curve, in the same way over the cold streams. A drawing begins it at the
/// cold target; here its heats begin at 0.
pub fn cold_curve(alloc: Global, case: &Case) -> Result<Items<Point>, AllocError>
    requires { AreStreams case.now.streams }
    ensures { IfOk result (λ curve. IsSideCurve Side.Cold case.now.streams curve) }
{
    side_curve(alloc, case.streams.as_slice(), Side::Cold)
}

fn side_curve(alloc: Global, streams: &[Stream], side: Side) -> Result<Items<Point>, AllocError>
    requires { AreStreams streams.now }
    ensures { IfOk result (λ curve. IsSideCurve side streams.now curve) }
{
    let temperatures = rising(temperatures_of(alloc, streams, side)?);
    let mut points = Items::new(alloc);
    for t in temperatures.as_slice() {
        points.push(Point {
            heat: side_heat_under(streams, side, false, *t),
            temperature: *t,
        })?;
        if has_latent_at(streams, side, *t) {
            points.push(Point {
                heat: side_heat_under(streams, side, true, *t),
                temperature: *t,
            })?;
        }
    }
    Ok(points)
}

// Whether a latent stream of a side has the temperature `t`.
fn has_latent_at(streams: &[Stream], side: Side, t: i32) -> bool
    ensures { result ≡ list_any (is_latent_at side t) streams.now }
{
    streams.iter().any(|stream| stream.is_on(side) && stream.is_latent() && stream.supply == t)
}

// The ends of the streams of a side, in their order.
fn temperatures_of(alloc: Global, streams: &[Stream], side: Side) -> Result<Vec<i32>, AllocError>
    ensures { IfOk result (λ ends. ends.items ≡ temperatures_of side streams.now) }
{
    let mut ends = Vec::new(alloc);
    for stream in streams {
        if stream.is_on(side) {
            ends.push(stream.supply)?;
            ends.push(stream.target)?;
        }
    }
    Ok(ends)
}
