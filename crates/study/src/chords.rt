//! Chords: lines through least costs, and where the least cost may leave one.
ghost use Rattle.std.specs.Prelude.{◌≡◌, pos, ◌+ℤ◌, ◌-ℤ◌, ◌≤ℤ◌, ◌<ℤ◌, All};
ghost use Rattle.stream_case.specs.Limits.{IsPrice};
ghost use Rattle.study.specs.CostCurve.{IsSmallPoint};
ghost use Rattle.study.specs.Chords.{IsGap, IsSmallChord, chord_at};

use crate::cost_curve::Point;

/// A chord: the line through the least costs at a price and at the next one.
#[derive(Clone, Copy)]
pub(crate) struct Chord {
    pub from: i64,
    /// What it costs at the price `from`.
    pub cost: i128,
    pub slope: i128,
}

/// What a chord costs at a price.
pub(crate) fn chord_at(chord: Chord, price: i64) -> i128
    requires chord { IsSmallChord chord }
    requires price { IsPrice price }
    ensures { result ≡ chord_at chord price }
{
    chord.cost + i128::from(price - chord.from) * chord.slope
}

/// How far a chord is above a point.
fn gap(chord: Chord, point: Point) -> i128
    requires chord { IsSmallChord chord }
    requires point { IsSmallPoint point }
    ensures { IsGap result }
{
    chord_at(chord, point.price) - point.cost
}

/// How many whole prices lie between a point below a chord and the last price at which the chord
/// is not above the line through the point and one further ahead.
fn prices_back(chord: Chord, near: Point, far: Point) -> i128
    requires chord { IsSmallChord chord }
    requires near { IsSmallPoint near }
    requires far { IsSmallPoint far }
{
    let run = i128::from(far.price - near.price);
    let near_gap = gap(chord, near);
    let opening = gap(chord, far) - near_gap;
    (run * near_gap - 1) / opening.max(1)
}

/// A number of prices, or the nearest to it that is not negative and at most `most`.
fn within(count: i128, most: i64) -> i64
    requires { pos 0 ≤ℤ most }
    ensures low { pos 0 ≤ℤ result }
    ensures high { result ≤ℤ most }
{
    count.max(0).min(i128::from(most)) as i64
}

/// The price to look at next between one at which the least cost is on a chord and one at which it
/// is not, or which is behind the last: that of the nearest point ahead, or the last whole price
/// before the line through the two nearest points meets the chord. Behind the meeting the least
/// cost is on neither of them, since it never rises faster at a higher price.
pub(crate) fn next_price(chord: Chord, ahead: &[Point], on: i64, off: i64) -> i64
    requires chord { IsSmallChord chord }
    requires ahead { All IsSmallPoint ahead.now }
    requires first { IsPrice on }
    requires last { IsPrice (off -ℤ pos 1) }
    requires apart { (on +ℤ pos 1) <ℤ off }
    ensures behind { on <ℤ result }
    ensures before { result <ℤ off }
{
    match ahead {
        [.., near] if on < near.price && near.price < off => near.price,
        [.., far, near] => off - 1 - within(prices_back(chord, *near, *far), off - on - 2),
        _ => off - 1,
    }
}
