//! The limits of the numbers in a report (this project's rule).

/// The most digits of a number.
pub const MOST_DIGITS: usize = 30;

/// The greatest high or low of a part, and the least one below 0, in tenths of °C.
pub const MOST_LEVEL: i128 = 1_000_000;

/// The greatest heat, in W, or price of a watt, and the least one below 0.
pub const MOST_AMOUNT: i128 = 1_000_000_000_000_000;

/// The greatest cost, and the least one below 0.
pub const MOST_COST: i128 = 100_000_000_000_000_000_000;
