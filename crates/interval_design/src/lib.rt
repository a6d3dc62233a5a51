//! The network of a heat flow, exchanger by exchanger.
//!
//! The parts of the flow are the pieces of a network of pieces, and each transfer is an exchange of
//! heat between two of them. Each stream is led through its parts, hot ones from the highest down
//! and cold ones from the lowest up, and is divided in each part so that each share gives or takes
//! the heat of one transfer over the whole part: all temperatures are those of the parts' ends. A
//! latent stream has one part, in which the size of a share is the heat of its transfer.
#![tactic(auto)]

mod exchanges;
mod network;

pub use network::design;
