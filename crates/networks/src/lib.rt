//! Networks of exchangers: their branches and lines, and what shape they have.
//!
//! A network is the branches of the streams of a case and the lines that declare exchangers and
//! lead the branches on: by splits, passes through exchangers, mixes and ends.
#![tactic(auto)]

mod few;
mod limits;
mod network;

pub use few::AtMostTwo;
pub use limits::{MOST_EXCHANGERS, MOST_LINES, MOST_STATEMENTS};
pub use network::{Branch, Line, Network, Passage};
