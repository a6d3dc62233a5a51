//! Utilities.
ghost use Rattle.std.specs.Prelude.{◌≡◌};
ghost use Rattle.stream_case.specs.Limits.{IsShifted};

use crate::name::Name;
use crate::source::Side;
use crate::stream::shifted;

/// A utility: it gives heat (hot) or takes it (cold) at one temperature.
#[derive(Clone, Copy, Debug, PartialEq, Eq, Hash)]
pub struct Utility {
    pub name: Name,
    pub side: Side,
    /// The temperature at which it gives or takes heat, in tenths of °C.
    pub level: i32,
    /// The least heat that it has to give or take, in W.
    pub least: i64,
    /// The most heat that it can give or take, in W.
    pub most: i64,
    /// The price of one watt.
    pub price: i64,
    /// The utility's share of the least approach, in tenths of °C.
    pub contribution: i32,
}

impl Utility {
    ghost use Rattle.stream_case.specs.Source.{same_side};
    ghost use Rattle.stream_case.specs.Utility.{shifted_level};

    /// Whether the utility is on this side.
    pub fn is_on(&self, side: Side) -> bool
        ensures { result ≡ same_side self.now.side side }
    {
        self.side == side
    }

    /// The level on the shifted scale, in tenths of °C.
    pub fn shifted_level(&self) -> i32
        requires { IsShifted (shifted_level self.now) }
        ensures { result ≡ shifted_level self.now }
    {
        shifted(self.side, self.level, self.contribution)
    }
}
