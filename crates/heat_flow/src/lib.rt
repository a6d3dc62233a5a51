//! Heat flows between the parts of a case, with prices that prove them least.
//!
//! A heat flow says which heat goes where, interval by interval (after the transshipment model
//! of Papoulias and Grossmann 1983). Prices at the parts bound the cost of every heat flow from
//! below, so that a flow whose cost is their value is proved least.
#![tactic(auto)]

mod cells;
mod check;
mod cost;
mod cut;
mod cut_check;
mod flow;
mod prices;
mod reach;
mod support;
mod table;
mod utilities;

pub use cells::{passes_heat, permissions, reach_of, source_index};
pub use check::{is_flow, is_heat_flow};
pub use cost::{cost_of, least_cost_is_one};
pub use cut::{Cut, CutKind};
pub use cut_check::{is_cut, is_cut_of, need_of, offer_of, opposite, part_offer, parts_of};
pub use flow::{Flow, Transfer};
pub use prices::{Prices, least_product_is_least, value_of};
pub use reach::{Reach, Reaches};
pub use support::{are_supporting, is_supported};
pub use table::reaches;
pub use utilities::utility_heat;
