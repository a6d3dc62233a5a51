//! Nets of the DIMACS form: what is read of one, whether it may be solved, and what an answer costs,
//! once it is checked.
#![tactic(auto)]

mod answer;
mod limits;
mod problem;

pub use crate::answer::{checked_cost, cost_of, is_certified};
pub use crate::limits::is_solvable;
pub use crate::problem::{Problem, read};
