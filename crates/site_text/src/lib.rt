//! What a site is, plants on shared steam mains, the grammar of the site file, and reading it.
//!
//! A site file is a CSV text with a contribution, steam mains, plants, and below each plant the
//! hot and cold streams of it, one a row. The grammar says of the rows of a text either which site
//! they give, or which row is at fault and why. The parts of a site, its profiles and its target
//! are in `site`.
#![tactic(auto)]

mod contribution_row;
mod entry;
mod fault;
mod given;
mod kind;
mod laws;
mod limits;
mod main_row;
mod plant_row;
mod reader;
mod site;
mod stream_row;

pub use fault::{SiteFault, SiteWhy};
pub use laws::{rows_have_one_outcome, valid_sites_are_those_of_the_grammar};
pub use limits::{MOST_PLANTS, MOST_SIDE_STREAMS};
pub use reader::read_site;
pub use site::{Main, Plant, Site};
