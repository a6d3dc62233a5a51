//! Paths without reduced cost, each of whose arcs leads from a level to a higher one: level graphs
//! (Dinic 1970), which here go on for some levels beyond the sink (this project's rule).
ghost use Rattle.std.specs.Prelude.{◌≡◌, ◌<◌, ◌≤◌, ◌+◌, ◌↔◌, length, is_some, IfSome, IfOk, OnOk, IsTrue};
ghost use Rattle.flow_net.specs.Problem.{IsStanding, IsFreeArc, IsFreePath};
ghost use Rattle.flow_net.specs.LevelGraph.{level_at, IsLevelGraph, StepsUp};

use crate::arc::Arc;
use crate::problem::Problem;
use crate::routing::Routing;
use std::alloc::{AllocError, Global};

/// How many levels are given beyond the first one from which a free arc leads to the sink: a path
/// through one of these needs no level graph of its own.
const LEVELS_BEYOND: u32 = 12;

/// The free arcs by levels: the level of a node is how many free arcs lead to it from the source at
/// least. The sink stands above all others. A node is closed, and has no level any more, as soon as no
/// free arc from a lower level to it is left.
#[derive(Drop)]
pub(crate) struct LevelGraph {
    pub levels: Vec<Option<u32>>,
    /// Which arc of each node with a level is tried next.
    pub cursors: Vec<usize>,
    /// The nodes that were given a level, from the lowest level up.
    pub entered: Vec<u32>,
}

impl LevelGraph {
    /// No node has a level.
    pub fn new(alloc: Global, problem: &Problem) -> Result<LevelGraph, AllocError>
        ensures { IfOk result (λ g. IsLevelGraph problem.now g) }
    {
        let nodes = problem.net.nodes as usize;
        Ok(LevelGraph {
            levels: vec![in alloc; None; nodes]?,
            cursors: vec![in alloc; 0; nodes]?,
            entered: Vec::new(alloc),
        })
    }

    /// Gives the nodes their levels, in place of those of before.
    pub fn rebuild(&mut self, problem: &Problem, routing: &Routing) -> Result<(), AllocError>
        requires standing { IsStanding problem.now routing.now }
        requires graph { IsLevelGraph problem.now self.old }
        ensures { OnOk result (IsLevelGraph problem.now self.new) }
    {
        self.clear(problem);
        self.enter(problem, problem.source, 0)?;
        let mut first = 0;
        let mut last = problem.net.nodes;
        for level in 1..problem.net.nodes {
            let end = self.entered.len();
            if first == end || level > last {
                break;
            }
            self.add_level(problem, routing, first, end, level)?;
            if self.has_level(problem.sink) {
                last = last.min(level + LEVELS_BEYOND);
            }
            first = end;
        }
        self.lift(problem);
        Ok(())
    }

    /// Puts the sink above all other nodes, if it has a level.
    fn lift(&mut self, problem: &Problem)
        requires sink { problem.now.sink < problem.now.net.now.nodes }
        requires graph { IsLevelGraph problem.now self.old }
        ensures { IsLevelGraph problem.now self.new }
    {
        if self.has_level(problem.sink) {
            self.levels[problem.sink as usize] = Some(problem.net.nodes);
        }
    }

    /// Takes their levels from all nodes.
    fn clear(&mut self, problem: &Problem)
        requires { IsLevelGraph problem.now self.old }
        ensures { IsLevelGraph problem.now self.new }
    {
        while let Some(node) = self.entered.pop() {
            self.levels[node as usize] = None;
        }
    }

    /// Gives a level to a node.
    fn enter(&mut self, problem: &Problem, node: u32, level: u32) -> Result<(), AllocError>
        requires graph { IsLevelGraph problem.now self.old }
        requires node { node < problem.now.net.now.nodes }
        requires level { level < problem.now.net.now.nodes }
        ensures graph { OnOk result (IsLevelGraph problem.now self.new) }
        ensures one_more { OnOk result
            (length self.old.entered.items ≤ length self.new.entered.items) }
    {
        self.levels[node as usize] = Some(level);
        self.cursors[node as usize] = 0;
        self.entered.push(node)?;
        Ok(())
    }

    /// Gives a level to the nodes to which free arcs lead from those of the level before, which were
    /// entered from one index up to another.
    fn add_level(
        &mut self,
        problem: &Problem,
        routing: &Routing,
        first: usize,
        end: usize,
        level: u32,
    ) -> Result<(), AllocError>
        requires standing { IsStanding problem.now routing.now }
        requires graph { IsLevelGraph problem.now self.old }
        requires end { end ≤ length self.old.entered.items }
        requires level { level < problem.now.net.now.nodes }
        ensures graph { OnOk result (IsLevelGraph problem.now self.new) }
        ensures no_fewer { OnOk result
            (length self.old.entered.items ≤ length self.new.entered.items) }
    {
        for index in first..end {
            let node = self.entered[index];
            if node != problem.sink {
                self.reach(problem, routing, node, level)?;
            }
        }
        Ok(())
    }

    /// Gives a level to the nodes without one to which free arcs lead from this node.
    fn reach(
        &mut self,
        problem: &Problem,
        routing: &Routing,
        node: u32,
        level: u32,
    ) -> Result<(), AllocError>
        requires standing { IsStanding problem.now routing.now }
        requires graph { IsLevelGraph problem.now self.old }
        requires node { node < problem.now.net.now.nodes }
        requires level { level < problem.now.net.now.nodes }
        ensures graph { OnOk result (IsLevelGraph problem.now self.new) }
        ensures no_fewer { OnOk result
            (length self.old.entered.items ≤ length self.new.entered.items) }
    {
        for residual in routing.residuals_from(problem, node) {
            if residual.is_open
                && !self.has_level(residual.head)
                && routing.cost_along(node, residual) == 0
            {
                self.enter(problem, residual.head, level)?;
            }
        }
        Ok(())
    }

    /// A path from the source to the sink along free arcs, each to a higher level, if one is found.
    pub fn find_path(
        &mut self,
        alloc: Global,
        problem: &Problem,
        routing: &Routing,
    ) -> Result<Option<Vec<Arc>>, AllocError>
        requires standing { IsStanding problem.now routing.now }
        requires graph { IsLevelGraph problem.now self.old }
        ensures graph { OnOk result (IsLevelGraph problem.now self.new) }
        ensures path { IfOk result
            (λ o. IfSome o (λ path. IsFreePath problem.now routing.now path.items)) }
    {
        let mut path = Vec::new(alloc);
        let mut node = problem.sink;
        while node != problem.source {
            if let Some(arc) = self.last_arc(problem, routing, node) {
                path.push(arc)?;
                node = arc.tail;
            } else {
                self.levels[node as usize] = None;
                let Some(arc) = path.pop() else {
                    return Ok(None);
                };
                node = arc.head;
            }
        }
        path.reverse();
        Ok(Some(path))
    }

    /// The next free arc to a node from a lower level.
    fn last_arc(&mut self, problem: &Problem, routing: &Routing, node: u32) -> Option<Arc>
        requires standing { IsStanding problem.now routing.now }
        requires graph { IsLevelGraph problem.now self.old }
        requires node { node < problem.now.net.now.nodes }
        ensures levels { self.new.levels ≡ self.old.levels }
        ensures entered { self.new.entered ≡ self.old.entered }
        ensures cursors { length self.new.cursors.items ≡ length self.old.cursors.items }
        ensures free { IfSome result (λ a. IsFreeArc problem.now routing.now a) }
        ensures head { IfSome result (λ a. a.head ≡ node) }
        ensures steps_up { IfSome result (λ a. StepsUp self.old.levels.items a.tail a.head) }
    {
        let arcs = problem.arcs_from(node);
        let residuals = routing.residuals_from(problem, node);
        for index in self.cursors[node as usize]..arcs.len() {
            if self.steps_up(residuals[index].head, node) {
                let arc = arcs[index].turned();
                if routing.is_free(problem, &arc) {
                    self.cursors[node as usize] = index;
                    return Some(arc);
                }
            }
        }
        self.cursors[node as usize] = arcs.len();
        None
    }

    /// Whether an arc from the one node to the other leads from a level to a higher one.
    fn steps_up(&self, tail: u32, head: u32) -> bool
        requires tail { tail < length self.now.levels.items }
        requires head { head < length self.now.levels.items }
        ensures { IsTrue result ↔ StepsUp self.now.levels.items tail head }
    {
        match (self.level(tail), self.level(head)) {
            (Some(low), Some(high)) => low < high,
            _ => false,
        }
    }

    /// Whether a node has a level.
    fn has_level(&self, node: u32) -> bool
        requires { node < length self.now.levels.items }
        ensures { result ≡ is_some (level_at self.now.levels.items node) }
    {
        self.level(node).is_some()
    }

    /// The level of a node, if it has one.
    fn level(&self, node: u32) -> Option<u32>
        requires { node < length self.now.levels.items }
        ensures { result ≡ level_at self.now.levels.items node }
    {
        self.levels[node as usize]
    }
}
