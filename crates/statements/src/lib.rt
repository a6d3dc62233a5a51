//! The statements of a text: its lines, and the fields in them.
//!
//! A text of statements has one on a line, as fields between spaces and tabs. Lines without
//! fields, and those whose first field begins with `#`, say nothing. What the fields mean is the
//! business of the crates above.
#![tactic(auto)]

mod laws;
mod statement;

pub use laws::{plain_statements_are_read_again, printed_numbers_are_read_again};
pub use statement::{Statement, first_line};
