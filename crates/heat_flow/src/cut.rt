//! Cuts, which prove that there is no heat flow.

use stream_case::{Items, Side};

/// Whether the parts of a cut have to take more heat than can reach them, or have to give more
/// than can be taken from them.
#[derive(Clone, Copy, Debug, PartialEq, Eq)]
pub enum CutKind {
    /// Cold parts that need more than the hot parts that reach them can give.
    Demand,
    /// Hot parts that have to give more than the cold parts that they reach can take.
    Supply,
}

impl CutKind {
    ghost use Rattle.std.specs.Prelude.{◌≡◌};
    ghost use Rattle.heat_flow.specs.Cuts.{cut_side};

    /// The side whose parts a cut of this kind names.
    pub fn side(self) -> Side
        ensures { result ≡ cut_side self }
    {
        match self {
            CutKind::Demand => Side::Cold,
            CutKind::Supply => Side::Hot,
        }
    }
}

/// Parts of one side that need more heat than the other side has on offer for them, where
/// `is_cut` says so.
#[derive(Debug, PartialEq, Eq, Drop)]
pub struct Cut {
    pub kind: CutKind,
    /// The indexes of the parts in the list of their side, from the least up.
    pub parts: Items<u32>,
    /// The sum of the leasts of these parts, in W.
    pub need: i64,
    /// The sum of the mosts of all parts of the other side that reach one of them, or that one of
    /// them reaches, in W.
    pub offer: i64,
}
