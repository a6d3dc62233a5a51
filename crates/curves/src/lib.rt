//! The composite curves and the grand composite curve, as their corner points (Linnhoff and
//! Flower 1978; Kemp 2007).
#![tactic(auto)]

mod below;
mod composite;
mod grand;
mod point;

pub use composite::{cold_curve, hot_curve};
pub use grand::grand_curve;
pub use point::Point;
