//! The printed report of a heat flow or of a cut, and whether it proves what it says.
//!
//! A report goes from hand to hand, and nobody has to trust who printed it. Reading it and
//! checking it take the definitions of a heat flow, of supporting prices and of a cut alone,
//! without any search: a yes means that the cost is the least one, or that there is no heat flow.
#![tactic(auto)]

mod check;
mod entry;
mod fault;
mod fields;
mod given;
mod kind;
mod laws;
mod limits;
mod naming;
mod part_table;
mod permits;
mod reader;
mod report;
mod uses;

pub use check::check_report;
pub use fault::{ReportFault, ReportWhy};
pub use heat_flow::CutKind;
pub use laws::{
    certified_reports_are_answered_with_yes, certified_reports_are_within_the_ranges,
    printed_reports_are_read_again,
};
pub use limits::{MOST_AMOUNT, MOST_COST, MOST_DIGITS, MOST_LEVEL};
pub use reader::read_report;
pub use report::{Checked, Moved, NoWhy, Priced, Report, Span, Used};
