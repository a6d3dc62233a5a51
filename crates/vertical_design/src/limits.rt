//! The limits of what runs between two cuts.

use stream_case::{MOST_CP, MOST_STREAMS};

/// The most bands of a side: those of its streams, and that of its utility.
pub const MOST_BANDS: usize = MOST_STREAMS + 1;

/// The most cuts of the heat axis: the two ends of each band of both sides.
pub const MOST_CUTS: usize = 4 * MOST_BANDS;

/// The most flow of a side, in 10 W/K.
pub const MOST_FLOW: i64 = MOST_BANDS as i64 * MOST_CP;
