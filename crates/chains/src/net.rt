//! A net of chains.

use flow_net::Net;
use stream_case::{Items, Source};

/// The most nodes of an inner net.
pub const MOST_INNER_NODES: u32 = 25_000;

/// The most links of an inner net.
pub const MOST_INNER_LINKS: usize = 900_000;

/// Hot sources to which the same cold sources are permitted. They share a chain.
#[derive(Debug, Drop)]
pub struct Group {
    pub sources: Items<Source>,
    /// The first node of the chain, for the highest rank at which a part stands.
    pub first_node: u32,
}

/// Chains, one for each group, in a net. Node a is hot part a, the node whose number is the number
/// of hot parts plus b is cold part b, and all further nodes stand in chains. Each link has the
/// room [`MOST_ROOM`](flow_net::MOST_ROOM) and the cost 0.
#[derive(Debug, Drop)]
pub struct Chains {
    pub groups: Items<Group>,
    pub net: Net,
}
