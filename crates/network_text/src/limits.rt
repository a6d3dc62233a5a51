//! The limits of what a network text is written with (this project's rule).

/// The most digits of a number in a fraction text.
pub const MOST_DIGITS: usize = 24;

/// The most bytes of a printed line with its end: an exchanger, with three names of 16 bytes and a
/// duty of 23 digits over 15.
pub const LONGEST_LINE: usize = 101;
