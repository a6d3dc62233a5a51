//! The queue of a search: nodes with tentative labels, by their distances.
ghost use Rattle.std.specs.Prelude.{◌≡◌, ◌∷◌, [], pos, ◌≤ℤ◌, All, OnOk, MatchOption, IsPermutation};
ghost use Rattle.std.specs.BinaryHeap.{heap_items, IsHeap, IsHeap-prop};
ghost use Rattle.flow_net.specs.Entry.{entry_cmp};

use std::alloc::{AllocError, Global};
use std::cmp::Reverse;
use std::collections::{BinaryHeap, VecDeque};

/// Nodes with their distances, none below the level: the distance of the node that was taken out last.
/// Those at the level come first, in their order, and then the nearest one.
#[derive(Drop)]
pub(crate) struct Queue {
    pub level: i64,
    pub near: VecDeque<u32>,
    pub far: BinaryHeap<(Reverse<i64>, u32)>,
    ghost ordered: { IsHeap entry_cmp (heap_items far) } by { IsHeap-prop entry_cmp (heap_items far) },
    ghost above: { All (λ e. level ≤ℤ e.0.0) (heap_items far) },
}

impl Queue {
    ghost use Rattle.flow_net.specs.Queue.{entries_of, IsNext, IsEmptied};

    /// No node, at the level 0.
    pub fn new(alloc: Global) -> Queue
        ensures level { result.level ≡ pos 0 }
        ensures entries { entries_of result ≡ [] }
    {
        Queue {
            level: 0,
            near: VecDeque::new(alloc),
            far: BinaryHeap::new(alloc),
        }
    }

    /// Takes out all nodes, and is at the level 0 again. The memory is kept.
    pub fn clear(&mut self)
        ensures level { self.new.level ≡ pos 0 }
        ensures entries { entries_of self.new ≡ [] }
    {
        self.near.clear();
        self.far.clear();
        self.level = 0;
    }

    /// Enters a node with its distance.
    pub fn push(&mut self, distance: i64, node: u32) -> Result<(), AllocError>
        requires { self.old.level ≤ℤ distance }
        ensures level { OnOk result (self.new.level ≡ self.old.level) }
        ensures entries { OnOk result
            (IsPermutation ((record { 0 = distance }, node) ∷ entries_of self.old)
            (entries_of self.new)) }
    {
        if distance == self.level {
            self.near.push_back(node)?;
        } else {
            self.far.push((Reverse(distance), node))?;
        }
        Ok(())
    }

    /// Takes out the next node, whose distance is the level from then on.
    pub fn pop(&mut self) -> Option<u32>
        ensures { MatchOption result (IsEmptied self.old self.new)
            (λ v. IsNext self.old self.new v) }
    {
        if let Some(node) = self.near.pop_front() {
            return Some(node);
        }
        let (Reverse(distance), node) = self.far.pop()?;
        self.level = distance;
        Some(node)
    }
}
