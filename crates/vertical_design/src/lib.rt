//! The network of a standard case by the composite curves, where no stream is latent.
//!
//! The shifted curves of both sides are laid along one axis of heat, the hot target above the hot
//! curve and the cold target below the cold one. Between two neighbouring places where a source
//! begins or ends, the sources of both sides are matched with each other, straight across (Kemp
//! 2007): what one side gives there the other side takes there.
#![tactic(auto)]

mod band;
mod curve;
mod cuts;
mod flows;
mod interval;
mod limits;
mod matches;
mod network;

pub use network::vertical;
