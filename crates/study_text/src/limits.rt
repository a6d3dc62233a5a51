//! The limits of price studies (this project's rule).

/// The most scenarios and spans of a price study together.
pub const MOST_ITEMS: usize = 1000;

/// The most prices of a span.
pub const MOST_SPAN: i64 = 100_000;
