//! Cases of the most parts: cold streams that reach beyond all hot ones at both ends, one within the
//! other, so that each of the other ends and levels divides each of them.
ghost use Rattle.std.specs.Prelude.{◌<◌, ◌≤◌, IfOk};
ghost use Rattle.stream_case.specs.Case.{IsComplete};

use crate::numbered::{numbered_stream, numbered_utility};
use std::alloc::Global;
use std::test::Fail;
use stream_case::Side::{Cold, Hot};
use stream_case::{Case, Forbid, Items, MOST_STREAMS, Side, Source, Stream, Utility};
use worked_tables::{MOST_HEAT, completed};

/// What the hot streams give less than the cold ones want, all of which could take it.
pub const MISSING: i128 = 600_000;

fn wide_streams(alloc: Global) -> Result<Vec<Stream>, Fail> {
    let mut streams = Vec::new(alloc);
    for number in 0..MOST_STREAMS as u8 {
        let step = 10 * i32::from(number);
        let (hot, cold) = ((2000 + step, 1000 + step), (step, 3290 - step));
        streams.push(numbered_stream(alloc, ("H", number), Hot, hot)?)?;
        streams.push(numbered_stream(alloc, ("C", number), Cold, cold)?)?;
    }
    Ok(streams)
}

/// Twelve utilities of a side amid all streams, the first at a level of its own.
pub fn twelve_utilities(
    alloc: Global,
    side: Side,
    price: i64,
    first: i32,
) -> Result<Vec<Utility>, Fail> {
    let mut utilities = Vec::new(alloc);
    for number in 0..12u8 {
        let level = if number == 0 {
            first
        } else {
            1500 + i32::from(number)
        };
        utilities.push(numbered_utility(alloc, number, side, level, (MOST_HEAT, price))?)?;
    }
    Ok(utilities)
}

/// The wide streams with these utilities and forbidden matches, completed.
pub fn wide_case(alloc: Global, utilities: Vec<Utility>, forbids: Vec<Forbid>) -> Result<Case, Fail>
    ensures { IfOk result IsComplete }
{
    let streams = wide_streams(alloc)?;
    let case = Case {
        contribution: 0,
        streams: Items::from_vec(streams),
        utilities: Items::from_vec(utilities),
        forbids: Items::from_vec(forbids),
    };
    completed(alloc, &case)
}

/// The cold streams that a utility but the first may not match: two of those with the fewest parts.
const PAIRS: &[(u32, u32)] = &[
    (29, 28),
    (29, 27),
    (29, 26),
    (28, 27),
    (29, 25),
    (28, 26),
    (29, 24),
    (28, 25),
    (27, 26),
    (29, 23),
    (28, 24),
];

fn forbid(hot: Source, number: u32) -> Forbid
    requires { number < 1000 }
{
    Forbid {
        hot,
        cold: Source::Stream(2 * number + 1),
    }
}

/// The matches that take the fewest links away and leave no two hot sources with the same partners:
/// none of the first utility, one of each stream, and two of each other utility.
pub fn unlike_partners(alloc: Global) -> Result<Vec<Forbid>, Fail> {
    let mut forbids = Vec::new(alloc);
    for number in 0..MOST_STREAMS as u32 {
        forbids.push(forbid(Source::Stream(2 * number), (number + 1) % 30))?;
    }
    let mut number = 0u32;
    for (first, second) in PAIRS {
        number = number.saturating_add(1);
        forbids.push(forbid(Source::Utility(number), *first % 30))?;
        forbids.push(forbid(Source::Utility(number), *second % 30))?;
    }
    Ok(forbids)
}
