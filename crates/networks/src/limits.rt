//! The limits of network texts and of networks (this project's rule).
//!
//! Each limit stands here once; the definitions read these constants too.

/// The most statements of a text.
pub const MOST_STATEMENTS: usize = 100_000;

/// The most exchangers of a text.
pub const MOST_EXCHANGERS: usize = 20_000;

/// The most statements of a network of any origin, so that the numbers of its branches and
/// exchangers fit in 32 bits.
pub const MOST_LINES: usize = 2_000_000_000;
