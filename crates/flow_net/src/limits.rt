//! The limits of nets (this project's rule).
//!
//! Each limit stands here once. The definitions read these constants too, so that a later change
//! of a limit is a change of one line.

/// The most nodes of a net.
pub const MOST_NODES: u32 = 200_000;

/// The most links of a net.
pub const MOST_LINKS: usize = 1_000_000;

/// The greatest room of a link, and the greatest amount to route.
pub const MOST_ROOM: i64 = 10_000_000_000_000_000;

/// The greatest cost of a link, without its sign.
pub const MOST_COST: u64 = 1_000_000_000_000;

/// The greatest initial potential, without its sign.
pub const MOST_INITIAL_POTENTIAL: u64 = 1_000_000_000_000_000;
