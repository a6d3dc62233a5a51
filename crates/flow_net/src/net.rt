//! Nets of links with rooms and costs, and what solving one answers.

use stream_case::Items;

/// A link from one node to another.
///
/// It carries at most `room` units, each at `cost`. A cost may be negative.
#[derive(Clone, Copy, Debug, PartialEq, Eq)]
pub struct Link {
    pub from: u32,
    pub to: u32,
    pub room: i64,
    pub cost: i64,
}

/// A net: nodes, numbered from 0, and links between them.
///
/// Links may be parallel, and a link may lead back to its own node.
#[derive(Debug, Drop)]
pub struct Net {
    pub nodes: u32,
    pub links: Items<Link>,
}

/// What solving a net for an amount answers.
#[derive(Debug, Drop)]
pub enum Solved {
    /// The amount is routed at least cost.
    Routed {
        /// The flow on each link, in the order of the links.
        flow: Items<i64>,
        /// The potential of each node, which proves that no routing of the amount costs less.
        potentials: Items<i64>,
    },
    /// The amount cannot be routed.
    Blocked {
        /// Whether each node is on the source's side of a cut: a set that holds the source and not
        /// the sink, and that the links which leave it have too little room to leave by so much.
        reached: Items<bool>,
    },
}
