//! Heat flows.

use stream_case::{Items, Side};

/// Heat that a hot part gives to a cold part.
#[derive(Clone, Copy, Debug, PartialEq, Eq)]
pub struct Transfer {
    /// The index of the hot part in its list, from 0.
    pub hot: u32,
    /// The index of the cold part in its list, from 0.
    pub cold: u32,
    /// The heat, in W.
    pub heat: i64,
}

impl Transfer {
    ghost use Rattle.std.specs.Prelude.{◌≡◌};
    ghost use Rattle.heat_flow.specs.Flow.{part_index};

    /// The index of the part of this side in its list.
    pub fn part_index(&self, side: Side) -> u32
        ensures { result ≡ part_index side self.now }
    {
        match side {
            Side::Hot => self.hot,
            Side::Cold => self.cold,
        }
    }
}

/// A list of transfers, which is a heat flow where `is_flow` says so.
#[derive(Debug, PartialEq, Eq, Drop)]
pub struct Flow {
    pub transfers: Items<Transfer>,
}
