//! The streams and utilities of a pinch analysis, and the case that they make.
//!
//! A temperature is a whole number of tenths of a degree Celsius, a heat-capacity flow a whole
//! number of 10 W/K. So a heat-capacity flow times a temperature difference is whole watts. A
//! latent stream stays at one temperature and has a load in watts instead.
#![tactic(auto)]

mod case;
mod completion;
mod digits;
mod ends;
mod items;
mod limits;
mod name;
mod source;
mod stream;
mod utility;
mod validity;

pub use case::{Case, Forbid};
pub use completion::{complete, is_complete, is_standard};
pub use digits::{integer_of, natural_of};
pub use ends::stream_ends;
pub use items::Items;
pub use limits::{
    ALL_SENSIBLE_HEAT, ALL_STREAMS, ALL_STREAMS_HEAT, ALL_UTILITIES, HIGHEST_LEVEL,
    HIGHEST_SHIFTED, HIGHEST_TEMPERATURE, LONGEST_RANGE, LOWEST_LEVEL, LOWEST_SHIFTED,
    LOWEST_TEMPERATURE, MOST_CONTRIBUTION, MOST_CP, MOST_FORBIDS, MOST_HEAT, MOST_LOAD, MOST_MAINS,
    MOST_PART_PRICE, MOST_PARTS, MOST_PLACES, MOST_PRICE, MOST_SENSIBLE_HEAT, MOST_STREAM_HEAT,
    MOST_STREAMS, MOST_UTILITIES,
};
pub use name::Name;
pub use source::{Side, Source};
pub use stream::{Stream, count_on, counts_above, has_latent, has_level_at, shifted};
pub use utility::Utility;
pub use validity::is_valid;
