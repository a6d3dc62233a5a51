//! The pinches.
ghost use Rattle.std.specs.Prelude.{◌≡◌, ◌<ℤ◌, ◌↔◌, IsTrue, IfOk, Any, Contains};
ghost use Rattle.stream_case.specs.Stream.{stream_ends, AreStreams};
ghost use Rattle.sums.specs.Order.{ListsFalling};
ghost use Rattle.problem_table.specs.Deficit.{hot_target, IsInside, IsPinch};

use crate::target::{hot_target, is_tight};
use std::alloc::{AllocError, Global};
use stream_case::{Case, Items, Stream, stream_ends};
use sums::falling;

/// The pinches of the streams of a case, in tenths of °C on the shifted scale, each once and from
/// the highest down: the stream ends strictly between the greatest and the least at which one of
/// the deficits is the hot target (Linnhoff and Flower 1978).
pub fn pinches(alloc: Global, case: &Case) -> Result<Items<i32>, AllocError>
    requires { AreStreams case.now.streams }
    ensures { IfOk result (λ places. ListsFalling (IsPinch case.now.streams) places) }
{
    pinches_at(alloc, case, hot_target(case.streams.as_slice()))
}

/// The same of a case whose hot target is known, in W.
pub fn pinches_at(alloc: Global, case: &Case, hot: i64) -> Result<Items<i32>, AllocError>
    requires streams { AreStreams case.now.streams }
    requires hot { hot ≡ hot_target case.now.streams }
    ensures { IfOk result (λ places. ListsFalling (IsPinch case.now.streams) places) }
{
    let streams = case.streams.as_slice();
    let all = stream_ends(alloc, streams)?;
    let ends = all.as_slice();
    let mut found = Vec::new(alloc);
    for end in ends {
        if is_pinch(streams, hot, ends, *end) {
            found.push(*end)?;
        }
    }
    Ok(Items::from_vec(falling(found)))
}

// Whether a stream end is a pinch.
fn is_pinch(streams: &[Stream], hot: i64, ends: &[i32], end: i32) -> bool
    requires streams { AreStreams streams.now }
    requires hot { hot ≡ hot_target streams.now }
    requires ends { ends.now ≡ stream_ends streams.now }
    requires end { Contains ends.now end }
    ensures { IsTrue result ↔ IsPinch streams.now end }
{
    if !is_inside(ends, end) {
        return false;
    }
    is_tight(streams, hot, end)
}

// Whether `end` lies strictly between the greatest and the least of the ends.
fn is_inside(ends: &[i32], end: i32) -> bool
    ensures { IsTrue result ↔ IsInside ends.now end }
{
    if !is_below_some(ends, end) {
        return false;
    }
    is_above_some(ends, end)
}

fn is_below_some(ends: &[i32], end: i32) -> bool
    ensures { IsTrue result ↔ Any (λ x. end <ℤ x) ends.now }
{
    ends.iter().any(|x| end < *x)
}

fn is_above_some(ends: &[i32], end: i32) -> bool
    ensures { IsTrue result ↔ Any (λ x. x <ℤ end) ends.now }
{
    ends.iter().any(|x| *x < end)
}
