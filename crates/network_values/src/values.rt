//! What a branch carries.

use fractions::Frac;

/// What a branch carries: its size and its state. Those of a sensible stream are its heat-capacity
/// flow in 10 W/K and its temperature in tenths of °C; those of a latent stream its share of the load
/// in W and the part of it, from 0 to 1, that is still to be given (hot) or was already taken (cold).
#[derive(Clone, Copy, Debug, PartialEq, Eq)]
pub struct BranchValue {
    pub cp: Frac,
    pub t: Frac,
}
