//! The answers to price studies.

use stream_case::Items;

/// Prices from `from` to `to` at which the least cost of a case is the base and the slope times
/// the price.
#[derive(Clone, Copy, Debug, PartialEq, Eq)]
pub struct Segment {
    pub from: i64,
    pub to: i64,
    /// What the line costs at the price 0.
    pub base: i128,
    /// How much the cost rises where the price rises by one, in W.
    pub slope: i128,
}

/// The answer to a question about prices.
#[derive(Debug, PartialEq, Eq, Drop)]
pub enum StudyAnswer {
    /// The least cost of a scenario, or none where the case has no heat flow.
    Cost(Option<i128>),
    /// The segments of a span, from its first price to its last; none where the case has no heat
    /// flow.
    Segments(Items<Segment>),
}
