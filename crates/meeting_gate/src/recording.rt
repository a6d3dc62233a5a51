//! A gate that records how often each item passes it.

use std::alloc::{AllocError, Global};
use std::sync::atomic::{AtomicU64, Ordering};
use workers::Gate;

/// How often an item was entered, and left.
pub type Passes = (u64, u64);

#[derive(Drop)]
struct Counts {
    entered: AtomicU64,
    left: AtomicU64,
}

/// A gate that counts how often each item is entered and left.
#[derive(Drop)]
pub struct RecordingGate {
    items: Vec<Counts>,
}

impl Gate for RecordingGate {
    fn enter(&self, number: u32) {
        if let Some(item) = self.items.get(number as usize) {
            item.entered.fetch_add(1, Ordering::SeqCst);
        }
    }

    fn leave(&self, number: u32) {
        if let Some(item) = self.items.get(number as usize) {
            item.left.fetch_add(1, Ordering::SeqCst);
        }
    }
}

impl RecordingGate {
    /// A gate of so many items that nothing has passed.
    pub fn new(alloc: Global, count: u32) -> Result<RecordingGate, AllocError> {
        let mut items = Vec::new(alloc);
        for _ in 0..count {
            items.push(Counts {
                entered: AtomicU64::new(0),
                left: AtomicU64::new(0),
            })?;
        }
        Ok(RecordingGate { items })
    }

    /// How often an item has passed so far.
    pub fn passes_of(&self, number: u32) -> Passes {
        match self.items.get(number as usize) {
            Some(item) => (
                item.entered.load(Ordering::SeqCst),
                item.left.load(Ordering::SeqCst),
            ),
            None => (0, 0),
        }
    }
}
