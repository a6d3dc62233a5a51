//! A part of the amount routed at least cost, with potentials that prove it.
ghost use Rattle.std.specs.Prelude.{◌≡◌, ◌↔◌, ◌<◌, ◌-ℤ◌, ◌<ℤ◌, pos, length, replicate, slice_set, IfOk, IsTrue};
ghost use Rattle.flow_net.specs.Arc.{IsArc, arcs_at};
ghost use Rattle.flow_net.specs.Flow.{residual_of, reduced_cost_of, reduced_between, AreResiduals, IsPriced, IsPricedBetween};
ghost use Rattle.flow_net.specs.Problem.{IsProblem, IsStanding, IsResidualArc, arc_by_index, IsFreeArc, IsFreePath, IsBottleneck};

use crate::arc::Arc;
use crate::problem::Problem;
use crate::residual::Residual;
use std::alloc::{AllocError, Global};

/// The flow on each link, the residual arc of each arc in the order of the arcs, the potential of
/// each node, and how much is routed.
#[derive(Drop)]
pub(crate) struct Routing {
    pub flow: Vec<i64>,
    pub residuals: Vec<Residual>,
    pub potentials: Vec<i64>,
    pub routed: i64,
}

impl Routing {
    /// Nothing is routed yet, at the initial potentials.
    pub fn new(alloc: Global, problem: &Problem) -> Result<Routing, AllocError>
        requires { IsProblem problem.now }
        ensures { IfOk result (λ r. IsStanding problem.now r) }
    {
        Ok(Routing {
            flow: vec![in alloc; 0; problem.net.links.len()]?,
            residuals: residuals_of(alloc, problem)?,
            potentials: Vec::from_slice(alloc, problem.start)?,
            routed: 0,
        })
    }

    /// How much more an arc can carry: 0 where it is no residual arc.
    fn residual(&self, problem: &Problem, arc: &Arc) -> i64
        requires standing { IsStanding problem.now self.now }
        requires arc { IsArc problem.now.net.now.links arc.now }
        ensures { result ≡ residual_of problem.now.net.now.links self.now.flow.items arc.now }
    {
        let carried = self.flow[arc.link as usize];
        if arc.forward {
            problem.net.links.as_slice()[arc.link as usize].room - carried
        } else {
            carried
        }
    }

    /// The cost of an arc with the potential of its tail, less that of its head.
    fn reduced_cost(&self, arc: &Arc) -> i64
        requires { IsPriced self.now.potentials.items arc.now }
        ensures { result ≡ reduced_cost_of self.now.potentials.items arc.now }
    {
        arc.cost + self.potentials[arc.tail as usize] - self.potentials[arc.head as usize]
    }

    /// The same of an arc from this node that is given as a residual arc.
    pub fn cost_along(&self, node: u32, residual: &Residual) -> i64
        requires { IsPricedBetween self.now.potentials.items node
            residual.now.head residual.now.cost }
        ensures { result
            ≡ reduced_between self.now.potentials.items node residual.now.head residual.now.cost }
    {
        residual.cost + self.potentials[node as usize] - self.potentials[residual.head as usize]
    }

    /// The residual arcs of the arcs whose tail is this node.
    pub fn residuals_from(&self, problem: &Problem, node: u32) -> &[Residual]
        requires standing { IsStanding problem.now self.now }
        requires node { node < problem.now.net.now.nodes }
        ensures { AreResiduals problem.now.net.now.links self.now.flow.items
            (arcs_at problem.now.adjacency node) result.now }
    {
        problem.adjacency.residuals_from(&self.residuals, node)
    }

    /// The residual arc of the arc at an index.
    pub fn residual_at(&self, problem: &Problem, index: usize) -> Residual
        requires standing { IsStanding problem.now self.now }
        requires index { index < length problem.now.adjacency.arcs.items }
        ensures head { result.head ≡ (arc_by_index problem.now index).head }
        ensures is_open { IsTrue result.is_open
            ↔ IsResidualArc problem.now self.now (arc_by_index problem.now index) }
        ensures cost { result.cost ≡ (arc_by_index problem.now index).cost }
    {
        self.residuals[index]
    }

    /// Whether an arc can carry more.
    fn is_residual(&self, problem: &Problem, arc: &Arc) -> bool
        requires standing { IsStanding problem.now self.now }
        requires arc { IsArc problem.now.net.now.links arc.now }
        ensures { IsTrue result ↔ IsResidualArc problem.now self.now arc.now }
    {
        self.residuals[problem.adjacency.place_of(arc)].is_open
    }

    /// Whether an arc can carry more and has no reduced cost.
    pub fn is_free(&self, problem: &Problem, arc: &Arc) -> bool
        requires standing { IsStanding problem.now self.now }
        requires arc { IsArc problem.now.net.now.links arc.now }
        ensures { IsTrue result ↔ IsFreeArc problem.now self.now arc.now }
    {
        self.reduced_cost(arc) == 0 && self.is_residual(problem, arc)
    }

    /// Sends along a path what it can carry, at most what is left to route.
    pub fn augment(&mut self, problem: &Problem, path: &[Arc])
        requires standing { IsStanding problem.now self.old }
        requires path { IsFreePath problem.now self.old path.now }
        requires short { self.old.routed <ℤ problem.now.amount }
        ensures standing { IsStanding problem.now self.new }
        ensures amount { IsBottleneck problem.now self.old path.now
            (self.new.routed -ℤ self.old.routed) }
    {
        let amount = self.bottleneck(problem, path);
        for arc in path {
            let carried = arc.carry(self.flow[arc.link as usize], amount);
            self.set_flow(problem, arc.link, carried);
        }
        self.routed += amount;
    }

    /// Sets what a link carries, and the residual arcs of both ways along it.
    fn set_flow(&mut self, problem: &Problem, link: u32, carried: i64)
        requires problem { IsProblem problem.now }
        requires link { link < length problem.now.net.now.links }
        requires one_each { length self.old.flow.items ≡ length problem.now.net.now.links }
        requires residuals { AreResiduals problem.now.net.now.links self.old.flow.items
            problem.now.adjacency.arcs.items self.old.residuals.items }
        ensures flow { self.new.flow.items ≡ slice_set self.old.flow.items link carried }
        ensures residuals { AreResiduals problem.now.net.now.links self.new.flow.items
            problem.now.adjacency.arcs.items self.new.residuals.items }
        ensures potentials { self.new.potentials ≡ self.old.potentials }
        ensures routed { self.new.routed ≡ self.old.routed }
    {
        let along = &problem.net.links.as_slice()[link as usize];
        let places = problem.adjacency.places[link as usize];
        self.flow[link as usize] = carried;
        self.residuals[places.forward] = Residual::along(along, carried, true);
        self.residuals[places.back] = Residual::along(along, carried, false);
    }

    /// The least that an arc of the path can carry more, and at most what is left to route.
    fn bottleneck(&self, problem: &Problem, path: &[Arc]) -> i64
        requires standing { IsStanding problem.now self.now }
        requires path { IsFreePath problem.now self.now path.now }
        requires short { self.now.routed <ℤ problem.now.amount }
        ensures { IsBottleneck problem.now self.now path.now result }
    {
        let mut least = problem.amount - self.routed;
        for arc in path {
            least = least.min(self.residual(problem, arc));
        }
        least
    }
}

/// The residual arcs where nothing flows.
fn residuals_of(alloc: Global, problem: &Problem) -> Result<Vec<Residual>, AllocError>
    requires { IsProblem problem.now }
    ensures { IfOk result (λ w. AreResiduals problem.now.net.now.links
        (replicate (length problem.now.net.now.links) (pos 0)) problem.now.adjacency.arcs.items
        w.items) }
{
    let arcs = problem.adjacency.arcs.as_slice();
    let links = problem.net.links.as_slice();
    let mut residuals = Vec::with_capacity(alloc, arcs.len())?;
    for arc in arcs {
        residuals.push(Residual::along(&links[arc.link as usize], 0, arc.forward))?;
    }
    Ok(residuals)
}
