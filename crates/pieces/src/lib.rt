//! A network of pieces: each source goes through pieces between two of its states, and each
//! exchange of heat between a hot and a cold piece is an exchanger.
#![tactic(auto)]

mod courses;
mod exchange;
mod exchangers;
mod network;

pub use exchange::Exchange;
pub use network::lead;
