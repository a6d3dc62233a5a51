//! The limits of sites (this project's rule); those of mains and numbers stand with the limits of
//! cases.

/// The most plants of a site.
pub const MOST_PLANTS: usize = 6;

/// The most streams on one side of a site, in all plants together.
pub const MOST_SIDE_STREAMS: usize = 12;
