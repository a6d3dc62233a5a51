//! Sums of integers over lists, and lists that are fixed by their members and their order, for
//! the definitions and proofs of several crates.
#![tactic(auto)]

mod order;
mod pairs;

pub use order::{falling, rising};
pub use pairs::{Pair, pair_amounts};
