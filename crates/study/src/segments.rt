//! The segments of the least cost over a span of prices of one utility.
ghost use Rattle.std.specs.Prelude.{◌≡◌, ◌<◌, pos, ◌+ℤ◌, ◌≤ℤ◌, ◌<ℤ◌, length, IfOk};
ghost use Rattle.stream_case.specs.Limits.{IsPrice};
ghost use Rattle.study.specs.CostCurve.{IsPointOf};
ghost use Rattle.study.specs.PricedCase.{IsPricedCase};
ghost use Rattle.study.specs.Chords.{IsChord, IsChordEnd};
ghost use Rattle.study.specs.Segments.{IsSegment};
ghost use Rattle.study.specs.StudyAnswers.{AreSpanSegments};
ghost use Rattle.study_text.specs.Study.{IsSpan};

use crate::chords::{Chord, chord_at, next_price};
use crate::cost_curve::{CostCurve, Point};
use crate::priced::PricedCase;
use crate::study_answer::Segment;
use std::alloc::{AllocError, Global};
use stream_case::Items;

/// The chord through a point and that at the next price.
fn chord_from(alloc: Global, curve: &mut CostCurve, first: Point) -> Result<Chord, AllocError>
    requires first { IsPointOf curve.old.curve first }
    requires next { IsPrice (first.price +ℤ pos 1) }
    ensures from { IfOk result (λ chord. chord.from ≡ first.price) }
    ensures chord { IfOk result (IsChord curve.old.curve.case curve.old.curve.utility) }
    ensures same { curve.new.curve ≡ curve.old.curve }
{
    let next = curve.take_point(alloc, first.price + 1)?;
    Ok(Chord {
        from: first.price,
        cost: first.cost,
        slope: next.cost - first.cost,
    })
}

/// The last price up to `to` at which the least cost is on a chord. Once it has left the chord it
/// never returns, so the end lies between a price that is on it and one that is not; each price
/// between the two that is looked at brings them nearer to each other.
fn chord_end(alloc: Global, curve: &mut CostCurve, chord: Chord, to: i64) -> Result<i64, AllocError>
    requires chord { IsChord curve.old.curve.case curve.old.curve.utility chord }
    requires order { chord.from <ℤ to }
    requires last { IsPrice to }
    ensures end { IfOk result (IsChordEnd curve.old.curve.case curve.old.curve.utility chord to) }
    ensures same { curve.new.curve ≡ curve.old.curve }
{
    let mut on = chord.from + 1;
    let mut off = to + 1;
    while off - on > 1 {
        let price = next_price(chord, curve.ahead(), on, off);
        let point = curve.take_point(alloc, price)?;
        if point.cost == chord_at(chord, price) {
            on = price;
        } else {
            off = price;
            curve.keep(point)?;
        }
    }
    Ok(on)
}

/// The segment that begins at a point, in a span up to `to`.
fn segment_from(
    alloc: Global,
    curve: &mut CostCurve,
    first: Point,
    to: i64,
) -> Result<Segment, AllocError>
    requires utility { curve.old.curve.utility < length curve.old.curve.case.utilities }
    requires first { IsPointOf curve.old.curve first }
    requires order { first.price ≤ℤ to }
    requires last { IsPrice to }
    ensures from { IfOk result (λ segment. segment.from ≡ first.price) }
    ensures segment { IfOk result (IsSegment curve.old.curve.case curve.old.curve.utility to) }
    ensures same { curve.new.curve ≡ curve.old.curve }
{
    if first.price == to {
        return Ok(Segment {
            from: to,
            to,
            base: first.cost,
            slope: 0,
        });
    }
    let chord = chord_from(alloc, curve, first)?;
    let end = chord_end(alloc, curve, chord, to)?;
    Ok(Segment {
        from: chord.from,
        to: end,
        base: chord_at(chord, 0),
        slope: chord.slope,
    })
}

/// The segments of a span of the prices of a curve.
fn curve_segments(
    alloc: Global,
    curve: &mut CostCurve,
    from: i64,
    to: i64,
) -> Result<Items<Segment>, AllocError>
    requires span { IsSpan curve.old.curve.case curve.old.curve.utility from to }
    ensures { IfOk result (AreSpanSegments curve.old.curve.case curve.old.curve.utility from to) }
{
    let mut segments = Items::new(alloc);
    let mut next = from;
    while next <= to {
        let begin = curve.take_point(alloc, next)?;
        let segment = segment_from(alloc, curve, begin, to)?;
        segments.push(segment)?;
        next = segment.to + 1;
    }
    Ok(segments)
}

/// The segments of the least cost of a completed case over the prices of one utility, by its
/// index, from a first price to a last one; none exactly where the case has no heat flow.
pub(crate) fn span_segments(
    alloc: Global,
    priced: &PricedCase,
    utility: u32,
    from: i64,
    to: i64,
) -> Result<Items<Segment>, AllocError>
    requires priced { IsPricedCase priced.now }
    requires span { IsSpan priced.now.case.now utility from to }
    ensures { IfOk result (AreSpanSegments priced.now.case.now utility from to) }
{
    match priced.cost_with(alloc, utility, from)? {
        Some(cost) => {
            let mut curve = CostCurve::new(alloc, priced, utility);
            curve.keep(Point { price: from, cost })?;
            curve_segments(alloc, &mut curve, from, to)
        }
        None => Ok(Items::new(alloc)),
    }
}
