//! The text of an exchanger network: its grammar, reading it and printing it.
//!
//! An engineer writes a proposed network down as statements, one a line: exchangers with their
//! duties, splits, passes of branches through exchangers, mixes, and where each stream ends. The
//! grammar says of a text and a completed case either which network the text gives, or which
//! statement is at fault and why. What it gives has the shape of a network.
//!
//! A network that has the shape of one is printed as its statements in order, one a line, with
//! single spaces between the fields. What is printed is read as just this network, where it keeps
//! the two counts of a text.
#![tactic(auto)]

mod branch_fields;
mod entry;
mod fault;
mod fraction_text;
mod given;
mod kind;
mod laws;
mod limits;
mod names;
mod printed_laws;
mod printer;
mod reader;
mod sources;

pub use fault::{NetFault, NetWhy};
pub use laws::{networks_have_the_shape, statements_have_one_outcome};
pub use limits::{LONGEST_LINE, MOST_DIGITS};
pub use networks::{
    AtMostTwo, Branch, Line, MOST_EXCHANGERS, MOST_LINES, MOST_STATEMENTS, Network, Passage,
};
pub use printed_laws::{networks_are_printed_and_read_again, networks_are_what_their_texts_give};
pub use printer::{exchanger_names, print_network};
pub use reader::read_network;
