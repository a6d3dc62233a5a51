//! The floor under the cost of heat exchanger networks: no accepted network costs less than the
//! least cost of the heat flows of its case.
//!
//! Prices that support the heat flows of a case bound the cost of every flow from below. They bound
//! the cost of every accepted network as well, with its splits, overheating, mixes, latent streams,
//! ranges and forbidden matches (this project's own law). So no cut stands beside such a network.
#![tactic(auto)]

mod floor;
mod laws;

pub use floor::{cost_floor, cut_stands, floor_of};
pub use laws::{no_cut_stands, no_network_costs_less, uses_are_ordered, worths_are_ordered};
