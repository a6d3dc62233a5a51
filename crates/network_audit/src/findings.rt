//! What an audit finds, and where.

use fractions::Frac;

/// Where something was found.
#[derive(Clone, Copy, Debug, PartialEq, Eq)]
pub enum Place {
    /// A statement, counted from 1.
    Line(u32),
    /// A stream, by its index in the case.
    Stream(u32),
    /// An exchanger, by its number in the network, from 0.
    Exchanger(u32),
    /// A utility, by its index in the case.
    Utility(u32),
    /// The balance of the whole network.
    Balance,
}

/// Why a network is not valid: what was found, and what was wanted.
#[derive(Clone, Copy, Debug, PartialEq, Eq)]
pub enum Reason {
    /// A split takes from a branch all that it has, or more: in 10 W/K, or in W of a latent stream.
    /// Or a pass brings the state of a latent branch below 0 or above 1.
    Overdrawn { found: Frac, wanted: Frac },
    /// A stream ends at another temperature than its target, in tenths of °C, or a latent one in
    /// another state than its last: 0 of a hot one, 1 of a cold one.
    MissedTarget { found: Frac, wanted: Frac },
    /// A stream ends with another heat-capacity flow than its own, in 10 W/K, or a latent one with
    /// another share of its load, in W; or it does not end.
    Unfinished { found: Frac, wanted: Frac },
    /// Where the hot side enters, it is not hotter than the cold side by the least approach; in
    /// tenths of °C.
    HotEndApproach { found: Frac, wanted: Frac },
    /// The same where the hot side leaves.
    ColdEndApproach { found: Frac, wanted: Frac },
    /// The exchangers of a utility need less than its least or more than its most, in W.
    UtilityRange { found: Frac, wanted: Frac },
    /// The exchanger joins a forbidden pair.
    Forbidden,
}

/// The first item of an audit that is not passed.
#[derive(Clone, Copy, Debug, PartialEq, Eq)]
pub(crate) enum Finding {
    /// A test failed.
    Failed { place: Place, reason: Reason },
    /// The number that this step forms is not within the limits of a fraction.
    TooFine { place: Place, step: u32 },
}
