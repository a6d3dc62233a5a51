//! When a gate is told of an item, and how two items meet or give up.
ghost use Rattle.std.specs.Prelude.{◌≤◌};

use crate::meeting::{MOST_TURNS, MeetingGate};
use crate::recording::{Passes, RecordingGate};
use std::alloc::{AllocError, Global};
use std::fmt::Debug;
use std::process::Abort;
use std::test::Fail;
use std::thread::Threads;
use stream_case::Items;
use workers::{Gate, items_by_workers};

/// An item: its number, and how often its gate was passed when its work began.
type Seen = (u32, Passes);

/// The five items, each entered and not yet left when its work begins.
const ENTERED: &[Seen] = &[
    (0, (1, 0)),
    (1, (1, 0)),
    (2, (1, 0)),
    (3, (1, 0)),
    (4, (1, 0)),
];

/// Ends the test with both values where they differ; the text says at what.
fn assert_same<T: PartialEq + Debug>(rt: &impl Abort, at: &str, found: &T, wanted: &T) {
    assert_eq!(rt; *found, *wanted, "at {at}");
}

/// Five items of two workers, of which the one with the number of `without_memory`, if there is
/// one, answers want of memory.
fn five_items<R: Threads + Sync>(
    rt: &R,
    alloc: Global,
    gate: &RecordingGate,
    without_memory: Option<u32>,
) -> Result<Items<Seen>, AllocError> {
    items_by_workers(
        rt,
        alloc,
        gate,
        &|number: u32| -> Result<Seen, AllocError> {
            let seen = gate.passes_of(number);
            if without_memory == Some(number) {
                return Err(AllocError);
            }
            Ok((number, seen))
        },
        5,
        2,
    )
}

/// Each of the five items has passed its gate once.
fn check_passed(rt: &impl Abort, gate: &RecordingGate) {
    for number in 0..5 {
        assert_same(rt, "passes", &gate.passes_of(number), &(1, 1));
    }
}

#[test]
fn a_gate_is_told_each_item_before_its_work_and_after_it(rt: HostRuntime) -> Result<(), Fail> {
    let gate = RecordingGate::new(rt.alloc(), 5)?;
    let items = five_items(&rt, rt.alloc(), &gate, None)?;
    assert_eq!(rt; *items.as_slice(), *ENTERED);
    check_passed(&rt, &gate);
    Ok(())
}

#[test]
fn an_item_that_finds_no_memory_leaves_its_gate(rt: HostRuntime) -> Result<(), Fail> {
    let gate = RecordingGate::new(rt.alloc(), 5)?;
    let answer = five_items(&rt, rt.alloc(), &gate, Some(4));
    assert_same(&rt, "want of memory", &answer.is_err(), &true);
    check_passed(&rt, &gate);
    Ok(())
}

/// What a gate counts of two items of so many workers, where an item looks so many times for the
/// other one.
fn counts_of<R: Threads + Sync>(
    rt: &R,
    alloc: Global,
    turns: u32,
    workers: u32,
) -> Result<[u64; 5], AllocError>
    requires some_workers { 1 ≤ workers }
    requires few_workers { workers ≤ 2 }
{
    let gate = MeetingGate::new(turns);
    let item = |number: u32| -> Result<u32, AllocError> { Ok(number) };
    let _items = items_by_workers(rt, alloc, &gate, &item, 2, workers)?;
    Ok(gate.counts())
}

#[test]
fn items_of_two_workers_meet_and_the_first_of_one_gives_up(rt: HostRuntime) -> Result<(), Fail> {
    let alloc = rt.alloc();
    let two = counts_of(&rt, alloc, MOST_TURNS, 2)?;
    assert_same(&rt, "two workers", &two, &[1, 1, 1, 1, 0]);
    let one = counts_of(&rt, alloc, 1, 1)?;
    assert_same(&rt, "one worker", &one, &[1, 1, 1, 1, 1]);
    // An item that never looks for the other one gives up even where that has been.
    let none = counts_of(&rt, alloc, 0, 1)?;
    assert_same(&rt, "no turns", &none, &[1, 1, 1, 1, 2]);
    Ok(())
}

#[test]
fn a_meeting_counts_each_pass(rt: HostRuntime) -> Result<(), Fail> {
    let gate = MeetingGate::new(1);
    gate.enter(1);
    assert_same(&rt, "the second alone", &gate.counts(), &[0, 1, 0, 0, 1]);
    gate.enter(0);
    assert_same(&rt, "the first", &gate.counts(), &[1, 1, 0, 0, 1]);
    gate.leave(0);
    assert_same(&rt, "the first left", &gate.counts(), &[1, 1, 1, 0, 1]);
    gate.leave(1);
    assert_same(&rt, "both left", &gate.counts(), &[1, 1, 1, 1, 1]);
    Ok(())
}
