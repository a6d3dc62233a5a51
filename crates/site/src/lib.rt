//! Sites, whose plants share steam mains: their parts and reach, their profiles, and their target.
//!
//! The streams of a site cut the shifted scale as those of a case do, and each main adds the place
//! where it takes heat and the place where it gives it. The parts are those of a case, with a
//! boiler at the highest main and cooling at the lowest place; but heat passes from one plant to
//! another only through a main. The profiles say what the plants can take and give at each
//! temperature. The target of a site is the least boiler heat, certified as that of a case.
//!
//! What a site is, and the grammar of its file, are in `site_text`, and found here too.
#![tactic(auto)]

mod places;
mod profiles;
mod reach;
mod table;
mod target;
mod utilities;

pub use profiles::{sink_profile, source_profile};
pub use site_text::{
    MOST_PLANTS, MOST_SIDE_STREAMS, Main, Plant, Site, SiteFault, SiteWhy, read_site,
    rows_have_one_outcome, valid_sites_are_those_of_the_grammar,
};
pub use table::{SiteTable, site_parts};
pub use target::{site_target, table_target};
