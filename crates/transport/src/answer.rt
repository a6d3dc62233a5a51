//! What the search for a heat flow of least cost answers.

use heat_flow::{Cut, Flow, Prices};

/// A heat flow of least cost, or a cut.
#[derive(Debug, Drop)]
pub enum Answer {
    /// No heat flow costs less than this one.
    Least {
        flow: Flow,
        /// Prices that support every heat flow, and whose value is the cost.
        prices: Prices,
        /// The sum over the parts of price times heat.
        cost: i128,
    },
    /// There is no heat flow.
    Stuck(Cut),
}
