//! What the branches of a network carry, and what follows from it.
//!
//! A valuation gives each branch of a network a size and a state that solve the equations of the
//! statements. The laws of this crate are said of valuations: there is at most one, the streams
//! end once, and any weight that is additive in size is balanced. Where a network keeps its
//! approaches, none of its exchangers and mixes has a negative penalty, and so its hot utilities
//! give at least the hot target. A sensible stream's size is its heat-capacity flow and its state its
//! temperature; a latent stream's size is its load, and its state the part of it that is still to be
//! given (hot) or was already taken (cold).
#![tactic(auto)]

mod balance;
mod heights;
mod valuations;
mod values;

pub use balance::{
    deficits_are_met, penalties_add_up, penalties_are_not_negative, penalties_are_the_excess,
    streams_end_once, streams_give_their_heat, targets_are_met, weights_balance,
};
pub use heights::{
    exchangers_run_on_one_scale, hot_shares_are_at_least_cold_shares, mixes_lose_height,
    passes_take_shares, priced_shares_are_ordered, shares_are_parts, shares_rise,
};
pub use valuations::{
    loads_are_kept, valuations_agree, valuations_exist_where_splits_leave_room,
    valuations_go_line_by_line,
};
pub use values::BranchValue;
