//! The grid of a case, and the parts of its streams and utilities on it.
//!
//! The shifted stream ends and utility levels cut the shifted scale into intervals. On each
//! interval inside its range a stream gives or takes a fixed heat; a latent stream gives or takes
//! its load, and a utility its heat, at its level. These are the parts between which heat passes.
//! Streams and utilities have parts on any places that hold their ends and levels; the grid of a
//! case has no others.
#![tactic(auto)]

mod making;
mod part;
mod parts;
mod places;

pub use making::{case_parts, parts_of, parts_on};
pub use part::Part;
pub use parts::Parts;
pub use places::{Grid, grid_of};
