//! What is to be solved, with the arcs of its net.
ghost use Rattle.std.specs.Prelude.{◌≡◌, ◌<◌, length, All, Contains};
ghost use Rattle.flow_net.specs.Arc.{IsArc, arcs_at};
ghost use Rattle.flow_net.specs.Problem.{IsProblem, IsRange, arc_by_index};

use crate::adjacency::Adjacency;
use crate::arc::Arc;
use crate::net::Net;

/// An amount to route through a net from the source to the sink, from the initial potentials on.
#[derive(Drop)]
pub(crate) struct Problem<'a> {
    pub net: &'a Net,
    pub adjacency: Adjacency,
    pub source: u32,
    pub sink: u32,
    pub amount: i64,
    pub start: &'a [i64],
}

impl Problem<'_> {
    /// The arcs whose tail is this node.
    pub fn arcs_from(&self, node: u32) -> &[Arc]
        requires problem { IsProblem self.now }
        requires node { node < self.now.net.now.nodes }
        ensures range { result.now ≡ arcs_at self.now.adjacency node }
        ensures arcs { All (λ a. IsArc self.now.net.now.links a × (a.tail ≡ node)) result.now }
        ensures complete { (a : Arc) → IsArc self.now.net.now.links a → a.tail ≡ node
            → Contains result.now a }
    {
        self.adjacency.arcs_from(node)
    }

    /// The index of the first arc whose tail is this node, and the one past the last of them.
    pub fn range_from(&self, node: u32) -> (usize, usize)
        requires problem { IsProblem self.now }
        requires node { node < self.now.net.now.nodes }
        ensures { IsRange self.now node result.0 result.1 }
    {
        self.adjacency.range_from(node)
    }

    /// The arc at an index.
    pub fn arc(&self, index: usize) -> &Arc
        requires { index < length self.now.adjacency.arcs.items }
        ensures { result.now ≡ arc_by_index self.now index }
    {
        self.adjacency.arc(index)
    }
}
