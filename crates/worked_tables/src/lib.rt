//! Cases, a network and texts that the tests of several crates share, as tables and as values.
#![tactic(auto)]

mod cases;
mod tables;

pub use cases::{
    any_case, case_of, check_sensible, completed, completed_case, name, repeated, stream,
    utilities_of, utility, valid,
};
pub use tables::{
    FOUR_STREAMS, MOST_HEAT, ONE_LATENT, RESTRICTED, SIX_EXCHANGERS, StreamRow, THE_FOUR,
    TOO_COLD_A_HEATER, TOO_LITTLE_COOLING, TWO_STEAM_LEVELS, TWO_STREAMS, Table, UtilityRow,
};
