//! The rows of CSV files and what stands in their fields: which fields are empty, the names and
//! the numbers in them, and the limits of the numbers; and the loop that reads rows by a grammar.
//! The readers of cases, of sites and of price studies are made of these.
//!
//! A row of a case or of a site has seven fields, one of a price study four. A check that fails
//! answers the cause that the caller names for it.
#![tactic(auto)]

mod collector;
mod contribution_row;
mod fault;
mod fields;
mod numbers;
mod row_reader;

pub use collector::{Collector, read_rows};
pub use contribution_row::{ContributionCauses, contribution_in};
pub use fault::RowFault;
pub use fields::{are_empty, field, is_passed_over, name_in, number_in, optional_number_in};
pub use numbers::{
    contribution, flow_rate, flow_rate_beside, heat, number_of, own_contribution, own_load, price,
    temperature,
};
pub use row_reader::Rows;
