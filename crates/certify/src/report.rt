//! What a report says, and what the check of it answers.

use heat_flow::CutKind;
use stream_case::{Items, Name};

/// A part of a case as a report names it.
#[derive(Clone, Copy, Debug, PartialEq, Eq, Hash)]
pub struct Span {
    /// The name of the part's source.
    pub name: Name,
    /// The upper end on the shifted scale, in tenths of °C.
    pub high: i32,
    /// The lower end on the shifted scale, in tenths of °C.
    pub low: i32,
}

/// What a utility gives or takes in all.
#[derive(Clone, Copy, Debug, PartialEq, Eq)]
pub struct Used {
    /// The name of the utility.
    pub name: Name,
    /// The heat, in W.
    pub heat: i64,
}

/// Heat that a hot part gives to a cold part.
#[derive(Clone, Copy, Debug, PartialEq, Eq)]
pub struct Moved {
    pub hot: Span,
    pub cold: Span,
    /// The heat, in W.
    pub heat: i64,
}

/// The price of one watt at a part.
#[derive(Clone, Copy, Debug, PartialEq, Eq)]
pub struct Priced {
    pub part: Span,
    pub price: i64,
}

/// A report.
#[derive(Debug, PartialEq, Eq, Drop)]
pub enum Report {
    /// A heat flow, its cost, and prices that are to prove that none costs less.
    Flow {
        cost: i128,
        /// The utilities.
        uses: Items<Used>,
        /// The transfers.
        moves: Items<Moved>,
        /// The prices of the hot parts.
        gives: Items<Priced>,
        /// The prices of the cold parts.
        takes: Items<Priced>,
    },
    /// A cut, which is to prove that there is no heat flow.
    Cut {
        kind: CutKind,
        /// What its parts need, in W.
        need: i64,
        /// What there is on offer for them, in W.
        offer: i64,
        parts: Items<Span>,
    },
}

/// Why a report proves nothing: its first check that fails.
#[derive(Clone, Copy, Debug, PartialEq, Eq)]
pub enum NoWhy {
    /// The prices are not those of the case's parts in their order, or a cut names no part of its
    /// side.
    Parts,
    /// A move names no hot part, or no cold part.
    Moves,
    /// The moves are no heat flow.
    Flow,
    /// The cost is not that of the moves.
    Cost,
    /// The uses are not those of the utilities in their order, each with its sum.
    Uses,
    /// The prices do not support the heat flows.
    Support,
    /// The value of the prices is not the cost.
    Value,
    /// The parts, the need and the offer are no cut.
    Cut,
}

/// Whether a report proves what it says.
#[derive(Clone, Copy, Debug, PartialEq, Eq)]
pub enum Checked {
    Yes,
    No { why: NoWhy },
}
