//! A network of exchangers.

ghost use Rattle.std.specs.Prelude.{◌≡◌};
ghost use Rattle.networks.specs.Lines.{makes, members, uses};

use crate::few::AtMostTwo;
use fractions::Frac;
use stream_case::{Items, Name, Source};

/// A branch of a stream, or a whole stream: the flow between two statements.
#[derive(Clone, Copy, Debug, PartialEq, Eq)]
pub struct Branch {
    pub name: Name,
    /// The stream that it is a part of, by its index in the case.
    pub stream: u32,
}

/// A passage through an exchanger, on the side of a stream.
#[derive(Clone, Copy, PartialEq, Eq, Hash)]
pub struct Passage {
    pub exchanger: u32,
    pub stream: u32,
}

/// A statement of a network. Branches and exchangers are named by number, from 0: the branches in
/// the order in which they are made, those of the streams themselves first, and the exchangers in
/// the order in which they are declared.
#[derive(Clone, Copy, Debug, PartialEq, Eq)]
pub enum Line {
    /// An exchanger between a hot and a cold source, with its duty in W.
    Exchanger {
        name: Name,
        hot: Source,
        cold: Source,
        duty: Frac,
    },
    /// A branch is divided in two: the first has this size, a heat-capacity flow in 10 W/K or of
    /// a latent stream a load in W, and the second has the rest.
    Split {
        from: u32,
        first: u32,
        cp: Frac,
        second: u32,
    },
    /// A branch passes an exchanger, on the side of its stream; behind it, it is the branch `to`.
    Pass {
        from: u32,
        exchanger: u32,
        to: u32,
    },
    /// Two branches of one stream are joined to the branch `to`.
    Mix {
        first: u32,
        second: u32,
        to: u32,
    },
    /// A branch is where its stream ends.
    End {
        branch: u32,
    },
}

impl Line {
    /// The branches that the statement uses.
    pub fn uses(&self) -> AtMostTwo<u32>
        ensures { members result ≡ uses self.now }
    {
        match *self {
            Line::Exchanger { .. } => AtMostTwo::Nothing,
            Line::Split { from, .. } => AtMostTwo::One(from),
            Line::Pass { from, .. } => AtMostTwo::One(from),
            Line::Mix { first, second, .. } => AtMostTwo::Two(first, second),
            Line::End { branch } => AtMostTwo::One(branch),
        }
    }

    /// The branches that the statement makes.
    pub fn makes(&self) -> AtMostTwo<u32>
        ensures { members result ≡ makes self.now }
    {
        match *self {
            Line::Exchanger { .. } => AtMostTwo::Nothing,
            Line::Split { first, second, .. } => AtMostTwo::Two(first, second),
            Line::Pass { to, .. } => AtMostTwo::One(to),
            Line::Mix { to, .. } => AtMostTwo::One(to),
            Line::End { .. } => AtMostTwo::Nothing,
        }
    }
}

/// A network of exchangers for the streams and utilities of a case: all branches that it has, and
/// its statements.
#[derive(Debug, PartialEq, Eq, Drop)]
pub struct Network {
    pub branches: Items<Branch>,
    pub lines: Items<Line>,
}
