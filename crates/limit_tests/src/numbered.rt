//! Streams and utilities whose names end in a number.

use std::alloc::Global;
use std::test::Fail;
use stream_case::{Side, Stream, Utility};
use worked_tables::{stream, utility};

/// A stream of 100 W/K from its supply to its target.
pub fn numbered_stream(
    alloc: Global,
    (letter, number): (&str, u8),
    side: Side,
    ends: (i32, i32),
) -> Result<Stream, Fail> {
    let text = format!(in alloc; "{letter}{number}")?;
    stream(&text, side, ends, 10, 0)
}

/// A utility that need not run, and gives or takes at most so much, at this price.
pub fn numbered_utility(
    alloc: Global,
    number: u8,
    side: Side,
    level: i32,
    (most, price): (i64, i64),
) -> Result<Utility, Fail> {
    let text = format!(in alloc; "U{number}")?;
    utility(&text, side, level, (0, most), price, 0)
}
