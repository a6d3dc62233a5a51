//! How a network is drawn: each stream is led through stages, in which it is divided, its shares
//! pass one exchanger each, and are joined again.
#![tactic(auto)]

mod branches;
mod drawing;
mod laws;
mod limits;
mod names;
mod stage;

pub use drawing::{Course, draw};
pub use laws::drawn_networks_have_the_shape;
pub use limits::MOST_DRAWN_LINES;
pub use names::exchanger_name;
pub use stage::Share;
