//! The limit of the designs that are printed (this project's rule).

/// The most lines of a design of few exchangers, so that its text fits in a file.
pub const MOST_DRAWN_LINES: usize = 80_000;
