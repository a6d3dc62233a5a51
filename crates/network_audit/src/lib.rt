//! The audit of an exchanger network: whether it is valid for its case, told in exact fractions.
//!
//! The items of an audit are tests and numbers that are formed on the way, in one order. The
//! finding is the first of them that fails: a test that is not passed, or a number that is not
//! within the limits of a fraction. A network without a finding is valid, and its balance tells
//! what it needs and costs: no network that is accepted needs less than the hot target.
//!
//! A branch has a size and a state. Those of a sensible stream are its heat-capacity flow in 10 W/K
//! and its temperature in tenths of °C. Those of a latent stream are its share of the load in W and
//! the part of it, from 0 to 1, that is still to be given (hot) or was already taken (cold). So a
//! latent stream ends where all of its load is given or taken, a pass overdraws it where the state
//! falls below 0 or rises above 1, and in an exchanger it has its one temperature at both ends.
#![tactic(auto)]

mod auditor;
mod balance;
mod copies;
mod exchangers;
mod findings;
mod joints;
mod laws;
mod statements;
mod streams;
mod sum;
mod utilities;
mod verdict;
mod walk;

pub use auditor::Auditor;
pub use findings::{Place, Reason};
pub use joints::{Crossing, Joint, stream_at};
pub use laws::{findings_tell_what_is_valid, networks_have_one_verdict};
pub use network_values::{
    BranchValue, hot_shares_are_at_least_cold_shares, mixes_lose_height, targets_are_met,
};
pub use verdict::{Balance, Verdict};
