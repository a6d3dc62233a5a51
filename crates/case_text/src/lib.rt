//! The case file: its grammar, and reading and printing it.
//!
//! A case file is a CSV text with a contribution, hot and cold streams, heaters, coolers and
//! forbidden matches, one a row. A stream or utility may have a contribution of its own, and has
//! that of the case where its row gives none. A stream that stays at one temperature gives a load
//! instead of a heat-capacity flow. The grammar says of the rows of a text either which case they
//! give, or which row is at fault and why.
#![tactic(auto)]

mod contribution_row;
mod entry;
mod fault;
mod forbid_row;
mod given;
mod kind;
mod laws;
mod printer;
mod reader;
mod stream_row;
mod utility_row;

pub use fault::{CaseFault, CaseWhy};
pub use laws::{rows_have_one_outcome, valid_cases_are_those_of_the_grammar};
pub use printer::print_case;
pub use reader::read_case;
pub use rows::number_of;
