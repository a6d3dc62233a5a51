//! The heat flow of a standard case that uses exactly its targets, and the prices that prove it
//! least.
//!
//! A standard case has no utilities but `HOT`, at the highest shifted stream end, and `COLD`, at
//! the lowest, and no forbidden match. Laid end to end in the order of the parts, its hot and its
//! cold heats meet each other at or above the temperature at which they are needed (this
//! project's construction, after the north-west corner rule for transport problems).
#![tactic(auto)]

mod flow;
mod least;
mod prices;

pub use flow::corner;
pub use least::standard_cost;
pub use prices::corner_prices;
