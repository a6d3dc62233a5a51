//! Exact fractions within 128 bits: a value that leaves the limits is told, never rounded.
//!
//! A `Frac` has a denominator of at most 2^48 and a numerator from -2^76 to 2^76, in lowest terms. The limits are this
//! project's rule. Contracts see a `Frac` as the rational that it is (`specs/Rationals.antt`), and each operation gives
//! the exact rational, or `None` exactly where that rational is outside the limits. No call takes memory.
#![tactic(auto)]

pub use fraction::Frac;
pub use laws::ratios_are_ranked_by_cross_products;

mod divisor;
mod fraction;
mod laws;
mod terms;
