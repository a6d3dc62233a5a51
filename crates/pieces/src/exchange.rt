//! Exchanges of heat.

ghost use Rattle.std.specs.Prelude.{◌≡◌};
ghost use Rattle.pieces.specs.Pieces.{piece_on, size_on};

use fractions::Frac;
use stream_case::Side;

/// An exchange of heat between a piece of a hot source and one of a cold source.
#[derive(Clone, Copy, Debug, PartialEq, Eq)]
pub struct Exchange {
    /// The index of the hot piece, from 0.
    pub hot: u32,
    /// The index of the cold piece, from 0.
    pub cold: u32,
    /// The size of the hot branch: a heat-capacity flow in 10 W/K, or a load in W. A utility has
    /// no branch, and its size is read nowhere.
    pub hot_size: Frac,
    /// The size of the cold branch, likewise.
    pub cold_size: Frac,
    /// The heat, in W.
    pub heat: Frac,
}

impl Exchange {
    /// The index of the piece on a side, from 0.
    pub(crate) fn piece_on(&self, side: Side) -> u32
        ensures { result ≡ piece_on side self.now }
    {
        match side {
            Side::Hot => self.hot,
            Side::Cold => self.cold,
        }
    }

    /// The size of the branch on a side.
    pub(crate) fn size_on(&self, side: Side) -> Frac
        ensures { result ≡ size_on side self.now }
    {
        match side {
            Side::Hot => self.hot_size,
            Side::Cold => self.cold_size,
        }
    }
}
