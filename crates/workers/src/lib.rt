//! Numbered items, made by several workers.
//!
//! Worker w makes items w, w + workers, w + 2 * workers and so on. The items come back in their
//! order.
#![tactic(auto)]

mod gate;
mod sharing;

pub use gate::{Gate, OpenGate};
pub use sharing::items_by_workers;
