//! A gate at which two items meet, by which a test sees that two workers work side by side. Only
//! tests stand on this crate; its own tests see when a gate is told of an item.
#![tactic(auto)]

mod meeting;
#[cfg(test)]
mod recording;
#[cfg(test)]
mod tests;

pub use meeting::{MOST_TURNS, MeetingGate};
