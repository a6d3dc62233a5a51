//! A part.

use stream_case::{Side, Source};

/// A stream on one interval between two places, or a latent stream or a utility at its level (this
/// project's own unit, after the intervals of Linnhoff and Flower 1978).
#[derive(Clone, Copy, Debug, PartialEq, Eq)]
pub struct Part {
    pub source: Source,
    pub side: Side,
    /// The upper end on the shifted scale, in tenths of °C.
    pub high: i32,
    /// The lower end on the shifted scale, in tenths of °C; a latent stream and a utility have their
    /// one level here too.
    pub low: i32,
    /// The least heat that the part has to give or take, in W.
    pub least: i64,
    /// The most heat that the part can give or take, in W.
    pub most: i64,
    /// The price of one watt; 0 for a stream.
    pub price: i64,
}
