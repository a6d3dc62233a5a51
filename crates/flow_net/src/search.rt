//! The search for a shortest path from the source to the sink along residual arcs, whose lengths are
//! their reduced costs (Dijkstra 1959).
ghost use Rattle.std.specs.Prelude.{◌≡◌, length};

use crate::arc::Arc;
use crate::problem::Problem;
use crate::queue::Queue;
use crate::routing::Routing;
use std::alloc::{AllocError, Global};

/// What a search knows of a node. A label is tentative until its node is settled: then no path to the
/// node is shorter.
#[derive(Clone, Copy)]
pub(crate) struct Label {
    /// The length of the path found to the node: the sum of its reduced costs.
    pub distance: i64,
    /// How many arcs that path has.
    pub depth: u32,
    /// The index of the last of these arcs; none at the source.
    pub arc: Option<usize>,
}

/// The labels of the nodes, which nodes are settled, and the queue of those with tentative labels.
#[derive(Drop)]
pub(crate) struct Search {
    pub labels: Vec<Option<Label>>,
    pub settled: Vec<bool>,
    pub queue: Queue,
    ghost one_mark_each: { length settled.items ≡ length labels.items },
}

impl Search {
    ghost use Rattle.std.specs.Prelude.{◌<◌, true, false, ◌<ℤ◌, ◌≤ℤ◌, IfOk, OnOk, MatchBool, MatchOption};
    ghost use Rattle.flow_net.specs.Arc.{IsArc};
    ghost use Rattle.flow_net.specs.Problem.{IsProblem, IsStanding, IsFreeArc, arc_by_index};
    ghost use Rattle.flow_net.specs.Search.{IsSearch, IsFresh, HasQueue, IsDrained, IsSettling, IsAt, IsEntered, Improves, IsClosedAt, IsRelaxed, HasArrived, IsStuck, IsTree, IsTreeArc, IsTreePath, arc_at, index_at, distance_at, is_labelled, rise_of};

    /// A place for the label of each node. Nothing is labelled yet.
    pub fn new(alloc: Global, problem: &Problem) -> Result<Search, AllocError>
        ensures { IfOk result (λ s. length s.labels.items ≡ problem.now.net.now.nodes) }
    {
        let nodes = problem.net.nodes as usize;
        Ok(Search {
            labels: vec![in alloc; None; nodes]?,
            settled: vec![in alloc; false; nodes]?,
            queue: Queue::new(alloc),
        })
    }

    /// Begins anew, whatever was searched before: the source alone is labelled.
    pub fn restart(&mut self, problem: &Problem) -> Result<(), AllocError>
        requires problem { IsProblem problem.now }
        requires nodes { length self.old.labels.items ≡ problem.now.net.now.nodes }
        ensures { OnOk result (IsFresh problem.now self.new) }
    {
        self.labels.fill(None);
        self.settled.fill(false);
        self.queue.clear();
        let label = Label {
            distance: 0,
            depth: 0,
            arc: None,
        };
        self.enter(problem.source, label)
    }

    /// Searches until the sink is settled, and answers true, or until no node is left that a path
    /// leads to.
    pub fn run(&mut self, problem: &Problem, routing: &Routing) -> Result<bool, AllocError>
        requires standing { IsStanding problem.now routing.now }
        requires fresh { IsFresh problem.now self.old }
        ensures { IfOk result (λ b. MatchBool b (HasArrived problem.now routing.now self.new)
            (IsStuck problem.now routing.now self.new)) }
    {
        while let Some((node, label)) = self.nearest() {
            if node == problem.sink {
                return Ok(true);
            }
            self.scan(problem, routing, node, &label)?;
        }
        Ok(false)
    }

    /// Settles the nearest node of those with tentative labels.
    fn nearest(&mut self) -> Option<(u32, Label)>
        requires { HasQueue self.old }
        ensures { MatchOption result (IsDrained self.old self.new)
            (λ r. IsSettling self.old self.new r.0 r.1) }
    {
        while let Some(node) = self.queue.pop() {
            if !self.settled[node as usize] {
                if let Some(label) = self.labels[node as usize] {
                    self.settled[node as usize] = true;
                    return Some((node, label));
                }
            }
        }
        None
    }

    /// Follows each arc from the node that was settled last.
    fn scan(
        &mut self,
        problem: &Problem,
        routing: &Routing,
        node: u32,
        label: &Label,
    ) -> Result<(), AllocError>
        requires standing { IsStanding problem.now routing.now }
        requires search { IsSearch problem.now routing.now self.old }
        requires at { IsAt self.old node label.now }
        ensures search { OnOk result (IsSearch problem.now routing.now self.new) }
        ensures improves { OnOk result (Improves self.old self.new) }
        ensures closed { OnOk result
            ((a : Arc) → IsArc problem.now.net.now.links a → a.tail ≡ node
            → IsClosedAt problem.now routing.now self.new a) }
    {
        let (first, end) = problem.range_from(node);
        for index in first..end {
            self.relax(problem, routing, node, index, label)?;
        }
        Ok(())
    }

    /// Labels the head of a residual arc from a node, given by its index, where it has no label or one
    /// farther off.
    fn relax(
        &mut self,
        problem: &Problem,
        routing: &Routing,
        node: u32,
        index: usize,
        label: &Label,
    ) -> Result<(), AllocError>
        requires standing { IsStanding problem.now routing.now }
        requires search { IsSearch problem.now routing.now self.old }
        requires index { index < length problem.now.adjacency.arcs.items }
        requires tail { (arc_by_index problem.now index).tail ≡ node }
        requires at { IsAt self.old (arc_by_index problem.now index).tail label.now }
        ensures { OnOk result
            (IsRelaxed problem.now routing.now self.old self.new (arc_by_index problem.now index)) }
    {
        let residual = routing.residual_at(problem, index);
        if !residual.is_open || self.settled[residual.head as usize] {
            return Ok(());
        }
        let distance = label.distance + routing.cost_along(node, &residual);
        if !self.is_lower(residual.head, distance) {
            return Ok(());
        }
        let label = Label {
            distance,
            depth: label.depth + 1,
            arc: Some(index),
        };
        self.enter(residual.head, label)
    }

    /// Whether a node has no label, or one at a greater distance than this.
    fn is_lower(&self, node: u32, distance: i64) -> bool
        requires { node < length self.now.labels.items }
        ensures lower { result ≡ true → is_labelled self.now.labels.items node ≡ true
            → distance <ℤ distance_at self.now.labels.items node }
        ensures no_lower { result ≡ false → (is_labelled self.now.labels.items node ≡ true)
            × (distance_at self.now.labels.items node ≤ℤ distance) }
    {
        match self.labels[node as usize] {
            Some(label) => distance < label.distance,
            None => true,
        }
    }

    /// Gives a node a label, and enters it into the queue.
    fn enter(&mut self, node: u32, label: Label) -> Result<(), AllocError>
        requires node { node < length self.old.labels.items }
        requires distance { self.old.queue.level ≤ℤ label.distance }
        ensures { OnOk result (IsEntered self.old self.new node label) }
    {
        self.queue.push(label.distance, node)?;
        self.labels[node as usize] = Some(label);
        Ok(())
    }

    /// Raises the potentials after the sink was settled, so that the path to it has no reduced cost.
    pub fn raise(&self, problem: &Problem, routing: &mut Routing)
        requires standing { IsStanding problem.now routing.old }
        requires arrived { HasArrived problem.now routing.old self.now }
        ensures standing { IsStanding problem.now routing.new }
        ensures routed { routing.new.routed ≡ routing.old.routed }
        ensures free { (a : Arc) → IsTreeArc problem.now self.now a
            → IsFreeArc problem.now routing.new a }
    {
        if self.queue.level == 0 {
            return;
        }
        for node in 0..routing.potentials.len() {
            routing.potentials[node] += self.rise(node);
        }
    }

    /// How far the potential of a node has to rise: by its distance where it is settled, and elsewhere by
    /// the sink's.
    fn rise(&self, node: usize) -> i64
        requires { node < length self.now.labels.items }
        ensures { result ≡ rise_of self.now node }
    {
        match self.labels[node] {
            Some(label) if self.settled[node] => label.distance,
            _ => self.queue.level,
        }
    }

    /// The path by which the sink was settled from the source.
    pub fn path(&self, alloc: Global, problem: &Problem) -> Result<Vec<Arc>, AllocError>
        requires { IsTree problem.now self.now }
        ensures { IfOk result (λ path. IsTreePath problem.now self.now path.items) }
    {
        let mut path = Vec::new(alloc);
        let mut node = problem.sink;
        while let Some(arc) = self.last_arc(problem, node) {
            path.push(arc)?;
            node = arc.tail;
        }
        path.reverse();
        Ok(path)
    }

    /// The last arc of the path to a node.
    fn last_arc(&self, problem: &Problem, node: u32) -> Option<Arc>
        requires tree { IsTree problem.now self.now }
        requires node { node < problem.now.net.now.nodes }
        ensures { result ≡ arc_at problem.now self.now.labels.items node }
    {
        let index = self.last_index(node)?;
        Some(*problem.arc(index))
    }

    /// The index of that arc.
    fn last_index(&self, node: u32) -> Option<usize>
        requires { node < length self.now.labels.items }
        ensures { result ≡ index_at self.now.labels.items node }
    {
        match self.labels[node as usize] {
            Some(label) => label.arc,
            None => None,
        }
    }
}
