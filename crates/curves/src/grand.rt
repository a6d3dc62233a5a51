//! The grand composite curve.
ghost use Rattle.std.specs.Prelude.{IfOk};
ghost use Rattle.stream_case.specs.Stream.{AreStreams};
ghost use Rattle.curves.specs.Curve.{IsGrandCurve};

use crate::point::Point;
use problem_table::{deficit_above, deficit_from, targets};
use std::alloc::{AllocError, Global};
use stream_case::{Case, Items, has_level_at, stream_ends};
use sums::falling;

/// The grand composite curve: for each shifted stream end, falling and each once, the hot
/// target less the deficit above it. Where a latent stream has this level a second point
/// follows: the hot target less the deficit from it.
pub fn grand_curve(alloc: Global, case: &Case) -> Result<Items<Point>, AllocError>
    requires { AreStreams case.now.streams }
    ensures { IfOk result (λ curve. IsGrandCurve case.now.streams curve) }
{
    let hot = targets(case).hot;
    let places = falling(stream_ends(alloc, case.streams.as_slice())?);
    let mut points = Items::new(alloc);
    for t in places.as_slice() {
        points.push(Point {
            heat: hot - deficit_above(case, *t),
            temperature: *t,
        })?;
        if has_level_at(case.streams.as_slice(), *t) {
            points.push(Point {
                heat: hot - deficit_from(case, *t),
                temperature: *t,
            })?;
        }
    }
    Ok(points)
}
