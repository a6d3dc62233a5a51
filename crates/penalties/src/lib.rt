//! Where an accepted network loses its heat: the penalties of its exchangers and of its mixes.
//!
//! The height of a branch of a sensible stream is its heat-capacity flow times its distance above
//! the reference place. That of a branch of a latent stream is its share of the load times the part
//! that is still to be given or was taken already, where the level counts as above the place.
//!
//! The penalty of an exchanger is what its hot side releases above the place less what its cold
//! side absorbs there; that of a mix is the height that its two branches lose. No penalty is
//! negative, and together they are the excess of the network.
#![tactic(auto)]

mod exchangers;
mod heights;
mod list;
mod mixes;
mod survey;

pub use list::{Penalty, PenaltyList};
pub use network_audit::Place;
pub use survey::penalties;
