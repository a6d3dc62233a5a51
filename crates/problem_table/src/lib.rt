//! The problem table: deficits, targets and pinches of streams (Linnhoff and Flower 1978). For a
//! case they are those of its streams; utilities and forbidden matches do not matter to them.
#![tactic(auto)]

mod deficit;
mod pinch;
mod reference;
mod target;

pub use deficit::{deficit_above, deficit_from, deficit_of};
pub use pinch::{pinches, pinches_at};
pub use reference::{Reference, reference_from, reference_of, reference_place};
pub use target::{Target, targets};
