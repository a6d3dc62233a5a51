//! Plants, mains, and the site that they make.

use stream_case::{Items, Name, Stream};

/// A plant, whose streams exchange heat among each other as those of a case do.
#[derive(Debug, PartialEq, Eq, Drop)]
pub struct Plant {
    pub name: Name,
    pub streams: Items<Stream>,
}

/// A steam main: it takes heat from the plants and gives it to them at one temperature.
#[derive(Clone, Copy, Debug, PartialEq, Eq)]
pub struct Main {
    pub name: Name,
    /// The temperature of its steam, in tenths of °C.
    pub level: i32,
}

/// Plants that share mains (after total site analysis).
#[derive(Debug, PartialEq, Eq, Drop)]
pub struct Site {
    /// The share of each stream, main and utility in the least approach, in tenths of °C.
    pub contribution: i32,
    pub plants: Items<Plant>,
    pub mains: Items<Main>,
}
