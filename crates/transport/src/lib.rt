//! The heat flow of least cost between parts, with prices that prove it, or a cut that proves that
//! there is no heat flow; of a standard case it is the corner flow.
//!
//! Heat passes through a net with a node for each part (after the transshipment model of
//! Papoulias and Grossmann 1983). Further nodes give each hot part its most and take its most
//! from each cold part; what a part does not exchange passes them by. So one amount is routed,
//! and the potentials of the nodes are the prices.
#![tactic(auto)]

mod answer;
mod case_flow;
mod case_net;
mod cost;
mod cut;
mod flow;
mod least_cost;
mod net;
mod offer;
mod pairs;
mod prices;
mod route;

pub use answer::Answer;
pub use case_flow::case_answer;
pub use case_net::{CaseNet, least_case};
pub use cost::case_cost;
pub use least_cost::{MOST_PAIRS, least};
