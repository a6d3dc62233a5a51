//! Penalties, and the steps that form them.

use fractions::Frac;
use network_audit::Place;
use stream_case::Items;

/// A penalty in W.
#[derive(Clone, Copy, Debug, PartialEq, Eq)]
pub struct Penalty {
    /// An exchanger, or the statement of a mix.
    pub place: Place,
    pub value: Frac,
}

/// The penalties of a network.
#[derive(Debug, PartialEq, Eq, Drop)]
pub enum PenaltyList {
    /// Those of the exchangers in order, then those of the mixes in order.
    Listed(Items<Penalty>),
    /// The number that this step at a place would form is the first that is not within the limits
    /// of a fraction.
    TooFine { place: Place, step: u32 },
}

/// A step whose number is not within the limits of a fraction.
#[derive(Clone, Copy)]
pub(crate) struct TooFine {
    pub place: Place,
    pub step: u32,
}
