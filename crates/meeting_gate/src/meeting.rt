//! A gate at which two items meet.

use std::sync::atomic::{AtomicU64, Ordering};
use std::thread;
use workers::Gate;

/// As many turns as an item that does meet the other one never needs.
pub const MOST_TURNS: u32 = 10_000_000;

/// A gate at which each of two items waits for the other one, so many turns at most. It counts how
/// often each item is entered and left, and how often an item goes on alone.
#[derive(Drop)]
pub struct MeetingGate {
    turns: u32,
    first_entered: AtomicU64,
    second_entered: AtomicU64,
    first_left: AtomicU64,
    second_left: AtomicU64,
    gave_up: AtomicU64,
}

impl Gate for MeetingGate {
    fn enter(&self, number: u32) {
        let (own, other) = match number {
            0 => (&self.first_entered, &self.second_entered),
            _ => (&self.second_entered, &self.first_entered),
        };
        own.fetch_add(1, Ordering::SeqCst);
        for _ in 0..self.turns {
            if other.load(Ordering::SeqCst) > 0 {
                return;
            }
            thread::yield_now();
        }
        self.gave_up.fetch_add(1, Ordering::SeqCst);
    }

    fn leave(&self, number: u32) {
        let left = match number {
            0 => &self.first_left,
            _ => &self.second_left,
        };
        left.fetch_add(1, Ordering::SeqCst);
    }
}

impl MeetingGate {
    /// A gate that nothing has passed, at which an item looks so many times for the other one.
    pub fn new(turns: u32) -> MeetingGate {
        MeetingGate {
            turns,
            first_entered: AtomicU64::new(0),
            second_entered: AtomicU64::new(0),
            first_left: AtomicU64::new(0),
            second_left: AtomicU64::new(0),
            gave_up: AtomicU64::new(0),
        }
    }

    /// How often the first and the second item were entered, and left, and an item gave up.
    pub fn counts(&self) -> [u64; 5] {
        [
            self.first_entered.load(Ordering::SeqCst),
            self.second_entered.load(Ordering::SeqCst),
            self.first_left.load(Ordering::SeqCst),
            self.second_left.load(Ordering::SeqCst),
            self.gave_up.load(Ordering::SeqCst),
        ]
    }
}
