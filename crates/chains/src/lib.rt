//! Nets of residual chains in place of a link for each pair of parts that reach, and the transfers
//! into which a flow of such a net is taken apart.
//!
//! Hot sources to which the same cold sources are permitted share one chain: a node for each place
//! of the grid and each interval at which a part stands, from the highest down. Heat enters it from
//! a hot part, goes down as the residual heat of the intervals (Papoulias and Grossmann 1983), and
//! leaves it to a cold part. So a path leads from part to part exactly where the two reach, and a
//! few thousand links do the work of some hundred thousand pairs.
#![tactic(auto)]

mod depths;
mod first_nodes;
mod groups;
mod links;
mod making;
mod net;
mod partners;
mod ranks;
mod spreading;
mod stock;
mod transfers;
mod ways;

pub use making::chains_of;
pub use net::{Chains, Group, MOST_INNER_LINKS, MOST_INNER_NODES};
pub use spreading::spread;
