//! What a row gives.

ghost use Rattle.std.specs.Prelude.{◌≡◌};
ghost use Rattle.case_text.specs.Given.{stream_of, utility_of};

use stream_case::{Forbid, Name, Side, Stream, Utility};

/// What the row of a stream says beside its name.
#[derive(Clone, Copy)]
pub struct StreamData {
    pub side: Side,
    /// In tenths of °C.
    pub supply: i32,
    /// In tenths of °C.
    pub target: i32,
    /// The heat-capacity flow, in 10 W/K.
    pub cp: i64,
    /// The heat of a latent stream, in W; there is none for a sensible one.
    pub load: Option<i64>,
    /// In tenths of °C; that of the case where there is none.
    pub contribution: Option<i32>,
}

impl StreamData {
    /// The stream with this name, in a case with this contribution, in tenths of °C.
    pub fn named(&self, name: Name, contribution: i32) -> Stream
        ensures { result ≡ stream_of contribution (name, self.now) }
    {
        Stream {
            name,
            side: self.side,
            supply: self.supply,
            target: self.target,
            cp: self.cp,
            load: self.load.unwrap_or(0),
            contribution: self.contribution.unwrap_or(contribution),
        }
    }
}

/// What the row of a utility says beside its name.
#[derive(Clone, Copy)]
pub struct UtilityData {
    pub side: Side,
    /// In tenths of °C.
    pub level: i32,
    /// In W.
    pub least: i64,
    /// In W.
    pub most: i64,
    /// Of one W.
    pub price: i64,
    /// In tenths of °C; that of the case where there is none.
    pub contribution: Option<i32>,
}

impl UtilityData {
    /// The utility with this name, in a case with this contribution, in tenths of °C.
    pub fn named(&self, name: Name, contribution: i32) -> Utility
        ensures { result ≡ utility_of contribution (name, self.now) }
    {
        Utility {
            name,
            side: self.side,
            level: self.level,
            least: self.least,
            most: self.most,
            price: self.price,
            contribution: self.contribution.unwrap_or(contribution),
        }
    }
}

/// What a row gives.
pub enum Entry {
    /// The row is passed over.
    Nothing,
    /// The contribution of the case, in tenths of °C.
    Contribution(i32),
    Stream(Name, StreamData),
    Utility(Name, UtilityData),
    Forbid(Forbid),
}
