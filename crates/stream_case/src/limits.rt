//! The limits of cases (this project's rule), and what follows from them.
//!
//! Each limit stands here once. The definitions read these constants too, so that a later change
//! of a limit is a change of one line.

/// The least temperature of a file, in tenths of °C.
pub const LOWEST_TEMPERATURE: i32 = -2731;

/// The greatest temperature of a file, in tenths of °C.
pub const HIGHEST_TEMPERATURE: i32 = 30_000;

/// The greatest contribution of a source, in tenths of °C.
pub const MOST_CONTRIBUTION: i32 = 1000;

/// The greatest heat-capacity flow of a stream, in 10 W/K.
pub const MOST_CP: i64 = 100_000;

/// The greatest load of a latent stream, in W.
pub const MOST_LOAD: i64 = 10_000_000_000;

/// The most heat of a utility, in W.
pub const MOST_HEAT: i64 = 1_000_000_000_000;

/// The greatest price of one watt, and the least one below 0.
pub const MOST_PRICE: i64 = 1_000_000;

/// The most streams on one side of a case.
pub const MOST_STREAMS: usize = 30;

/// The most utilities of a case that is not completed, those of both sides together.
pub const MOST_UTILITIES: usize = 12;

/// The most forbidden matches of a case.
pub const MOST_FORBIDS: usize = 400;

/// The most mains of a site, at each of which heat passes between its plants.
pub const MOST_MAINS: usize = 4;

/// The most streams of a case, on both sides.
pub const ALL_STREAMS: usize = 2 * MOST_STREAMS;

/// The most utilities of a completed case: completion adds two only where there is none.
pub const ALL_UTILITIES: usize = MOST_UTILITIES + 1;

/// The most places of a grid: the ends of all streams, the levels of all utilities, and a place
/// above and one below each main.
pub const MOST_PLACES: usize = 2 * ALL_STREAMS + ALL_UTILITIES + 2 * MOST_MAINS;

/// The most parts of a side. Each stream has at most one part below each place, and each utility
/// one; this number leaves room for larger limits.
pub const MOST_PARTS: usize = 5000;

/// The least temperature on the shifted scale, in tenths of °C.
pub const LOWEST_SHIFTED: i32 = LOWEST_TEMPERATURE - MOST_CONTRIBUTION;

/// The greatest temperature on the shifted scale, in tenths of °C.
pub const HIGHEST_SHIFTED: i32 = HIGHEST_TEMPERATURE + MOST_CONTRIBUTION;

/// The least level of a standard utility, in tenths of °C.
pub const LOWEST_LEVEL: i32 = LOWEST_SHIFTED - MOST_CONTRIBUTION;

/// The greatest level of a standard utility, in tenths of °C.
pub const HIGHEST_LEVEL: i32 = HIGHEST_SHIFTED + MOST_CONTRIBUTION;

/// The longest range of a stream, in tenths of °C.
pub const LONGEST_RANGE: i64 = (HIGHEST_TEMPERATURE - LOWEST_TEMPERATURE) as i64;

/// The most heat of a sensible stream, in W.
pub const MOST_SENSIBLE_HEAT: i64 = MOST_CP * LONGEST_RANGE;

/// The most heat of the streams of a case that has no latent one, both sides together, in W.
pub const ALL_SENSIBLE_HEAT: i64 = ALL_STREAMS as i64 * MOST_SENSIBLE_HEAT;

/// The most heat of a stream, in W: a latent one may have more than any sensible one.
pub const MOST_STREAM_HEAT: i64 = MOST_LOAD;

/// The most heat of the streams of a case, both sides together, in W.
pub const ALL_STREAMS_HEAT: i64 = ALL_STREAMS as i64 * MOST_STREAM_HEAT;

/// The greatest price that a certificate gives to a part, and the least one below 0.
pub const MOST_PART_PRICE: i64 = 1_000_000_000_000_000;
