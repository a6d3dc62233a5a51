//! Price studies: what a study asks of a case, the grammar of the study file, and reading it.
//!
//! A study file is a CSV text with scenarios, below each the prices of it, and spans of prices, one
//! a row. The grammar says of the rows of a text, for a completed case, either which study they
//! ask, or which row is at fault and why. What answers a study is `study`.
#![tactic(auto)]

mod entry;
mod fault;
mod given;
mod kind;
mod laws;
mod limits;
mod reader;
mod row;
mod study;

pub use fault::{StudyFault, StudyWhy};
pub use laws::study_rows_have_one_outcome;
pub use limits::{MOST_ITEMS, MOST_SPAN};
pub use reader::read_study;
pub use study::{Study, StudyItem, case_prices};
