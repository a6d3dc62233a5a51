//! The verdict on a network.

use crate::findings::{Place, Reason};
use fractions::Frac;

/// What a valid network needs, and what it costs.
#[derive(Clone, Copy, Debug, PartialEq, Eq)]
pub struct Balance {
    /// The heat of all hot utilities, in W.
    pub hot: Frac,
    /// The heat of all cold utilities, in W.
    pub cold: Frac,
    /// The heat of all hot utilities less the hot target, in W.
    pub excess: Frac,
    /// Each utility's heat in W times its price, added up.
    pub cost: Frac,
}

/// What an audit answers.
#[derive(Clone, Copy, Debug, PartialEq, Eq)]
pub enum Verdict {
    /// The network is valid.
    Accepted(Balance),
    /// The network is not valid, for this first reason.
    Rejected { place: Place, reason: Reason },
    /// The number that this step of the audit would form is not within the limits of a fraction.
    TooFine { place: Place, step: u32 },
}
