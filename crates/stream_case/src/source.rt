//! The two sides, and where heat comes from or goes to.
ghost use Rattle.std.specs.Prelude.{◌≡◌, ◌↔◌, IsTrue};

/// The side of a source: a hot one gives heat, a cold one takes it.
#[derive(Clone, Copy, Debug, PartialEq, Eq, Hash)]
pub enum Side {
    Hot,
    Cold,
}

impl Side {
    ghost use Rattle.stream_case.specs.Source.{IsRightWay, is_right_way};

    /// Whether a stream of this side may go from `supply` to `target`, in tenths of °C: a hot
    /// one falls, a cold one rises.
    pub fn is_right_way(self, supply: i32, target: i32) -> bool
        ensures value { result ≡ is_right_way self supply target }
        ensures way { IsTrue result ↔ IsRightWay self supply target }
    {
        match self {
            Side::Hot => target < supply,
            Side::Cold => supply < target,
        }
    }
}

/// A stream or a utility of a case, by its index in the case's list, from 0.
#[derive(Clone, Copy, Debug, PartialEq, Eq, Hash)]
pub enum Source {
    Stream(u32),
    Utility(u32),
}

impl Source {
    ghost use Rattle.stream_case.specs.Source.{same_source};

    /// Whether it is the stream with this index.
    pub fn is_stream(self, index: u32) -> bool
        ensures { result ≡ same_source self (Source.Stream index) }
    {
        match self {
            Source::Stream(own) => own == index,
            Source::Utility(_) => false,
        }
    }
}
