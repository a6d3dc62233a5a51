//! What the tests of the commands share.

use crate::{Word, run, run_gated};
use pinch_outside::{MemoryFile, MemoryShelf, MemorySink};
use std::alloc::{AllocError, Global};
use std::fmt::Debug;
use std::process::Abort;
use std::test::Fail;
use std::thread::Threads;
use stream_case::Items;
use study::Gate;

/// The four-stream table (Kemp 2007).
pub const FOUR_STREAM: &str = "contribution,,50,,,,
cold,C1,200,1350,200,,
hot,H2,1700,600,300,,
cold,C3,800,1400,400,,
hot,H4,1500,300,150,,
";

/// A hot stream with a contribution of its own, and a cold one with that of the case.
pub const OWN_CONTRIBUTION: &str =
    "contribution,,50,,,,\nhot,H,600,400,20,,100\ncold,C,300,700,10,,\n";

pub const FOUR_STREAM_TARGETS: &str = "hot 20000\ncold 60000\npinch 850\n";

/// What is printed where the words are no command.
pub const WORDS: &str =
    "words: targets flow curves design vertical audit site sweep sample certify prices\n";

/// The room of a sink, in bytes: more than the text of any test.
const ROOM: usize = 1_000_000;

/// How many bytes a sink takes at a time, where a test does not say.
const PIECE: usize = 5;

/// How the program ended.
#[derive(Drop)]
pub struct Outcome {
    pub status: u8,
    /// What the sink got.
    pub written: Vec<u8>,
    /// How many writes the sink had.
    pub writes: u64,
    /// How many calls the shelf had.
    pub calls: u64,
}

/// The numbers, counted from 1, of the calls that fail.
#[derive(Clone, Copy)]
pub struct Fails<'a> {
    pub shelf: &'a [u64],
    pub sink: &'a [u64],
}

/// No call fails.
pub const NONE: Fails<'static> = Fails {
    shelf: &[],
    sink: &[],
};

fn words_of(alloc: Global, texts: &[&str]) -> Result<Items<Word>, AllocError> {
    let mut words = Items::new(alloc);
    for text in texts {
        words.push(Word::new(String::from_str(alloc, text)?))?;
    }
    Ok(words)
}

/// A shelf with files of these names and bytes, of which the calls with these numbers fail.
pub fn shelf_of(
    alloc: Global,
    files: &[(&str, &[u8])],
    fails: &[u64],
) -> Result<MemoryShelf, AllocError> {
    let mut held = Vec::new(alloc);
    for (name, bytes) in files {
        held.push(MemoryFile {
            name: String::from_str(alloc, name)?,
            bytes: bytes.to_vec(alloc)?,
        })?;
    }
    Ok(MemoryShelf::new(held, fails.to_vec(alloc)?))
}

/// A sink that takes so many bytes at a time, of which the writes with these numbers fail.
pub fn sink_of(alloc: Global, piece: usize, fails: &[u64]) -> Result<MemorySink, AllocError> {
    MemorySink::new(alloc, ROOM, piece.max(1), fails.to_vec(alloc)?)
}

/// The status with which the program ends. This one call says nothing of what it answers, so that
/// no test is proved over the clauses of `run`.
fn status_of<R: Threads + Sync>(
    rt: &R,
    alloc: Global,
    words: &Items<Word>,
    shelf: &mut MemoryShelf,
    sink: &mut MemorySink,
) -> u8 {
    run(rt, alloc, words, shelf, sink).into_status()
}

/// The same, where workers pass this gate.
fn status_by<R: Threads + Sync, G: Gate + Sync>(
    rt: &R,
    alloc: Global,
    gate: &G,
    words: &Items<Word>,
    shelf: &mut MemoryShelf,
    sink: &mut MemorySink,
) -> u8 {
    run_gated(rt, alloc, gate, words, shelf, sink).into_status()
}

/// How the program ends over these words and files, where workers pass this gate.
pub fn outcome_by<R: Threads + Sync + AllocGlobal, G: Gate + Sync>(
    rt: &R,
    gate: &G,
    words: &[&str],
    files: &[(&str, &[u8])],
) -> Result<Outcome, AllocError> {
    let alloc = rt.alloc();
    let words = words_of(alloc, words)?;
    let mut shelf = shelf_of(alloc, files, &[])?;
    let mut sink = sink_of(alloc, PIECE, &[])?;
    let status = status_by(rt, alloc, gate, &words, &mut shelf, &mut sink);
    Ok(Outcome {
        status,
        written: sink.written,
        writes: sink.calls,
        calls: shelf.calls,
    })
}

/// How the program ends over these words and this shelf, where the sink takes so many bytes at a
/// time and the writes with these numbers fail.
pub fn outcome_over<R: Threads + Sync + AllocGlobal>(
    rt: &R,
    words: &[&str],
    shelf: &mut MemoryShelf,
    (piece, fails): (usize, &[u64]),
) -> Result<Outcome, AllocError> {
    let alloc = rt.alloc();
    let words = words_of(alloc, words)?;
    let mut sink = sink_of(alloc, piece, fails)?;
    let status = status_of(rt, alloc, &words, shelf, &mut sink);
    Ok(Outcome {
        status,
        written: sink.written,
        writes: sink.calls,
        calls: shelf.calls,
    })
}

/// How the program ends over these words and files, with such a sink.
pub fn outcome_to<R: Threads + Sync + AllocGlobal>(
    rt: &R,
    words: &[&str],
    files: &[(&str, &[u8])],
    sink: (usize, &[u64]),
) -> Result<Outcome, AllocError> {
    let mut shelf = shelf_of(rt.alloc(), files, &[])?;
    outcome_over(rt, words, &mut shelf, sink)
}

/// How the program ends over these words and files, where some calls fail.
pub fn outcome_under<R: Threads + Sync + AllocGlobal>(
    rt: &R,
    words: &[&str],
    files: &[(&str, &[u8])],
    fails: Fails<'_>,
) -> Result<Outcome, AllocError> {
    let mut shelf = shelf_of(rt.alloc(), files, fails.shelf)?;
    outcome_over(rt, words, &mut shelf, (PIECE, fails.sink))
}

/// How the program ends over these words and files.
pub fn outcome_of<R: Threads + Sync + AllocGlobal>(
    rt: &R,
    words: &[&str],
    files: &[(&str, &[u8])],
) -> Result<Outcome, AllocError> {
    outcome_to(rt, words, files, (PIECE, &[]))
}

/// How a command of one case file ends.
pub fn answer_of<R: Threads + Sync + AllocGlobal>(
    rt: &R,
    command: &str,
    case: &str,
) -> Result<Outcome, AllocError> {
    let files = [("plant.csv", case.as_bytes())];
    outcome_of(rt, &[command, "plant.csv"], &files)
}

/// How many lines a text has.
pub fn line_count(text: &[u8]) -> u64 {
    text.iter().filter(|byte| **byte == b'\n').count() as u64
}

/// Ends the test where a run of the program did not end with this status and this text. The
/// comparisons stand once, since each is proved anew wherever it stands.
pub fn check_end<R: Abort, A: Debug>(rt: &R, at: &A, outcome: &Outcome, status: u8, text: &[u8]) {
    assert_eq!(rt; outcome.status, status, "{at:?}");
    assert_eq!(rt; outcome.written.as_slice(), text, "{at:?}");
}

/// Ends the test where a run of the program did not end with this status and a text that begins so.
pub fn check_front<R: Abort, A: Debug>(rt: &R, at: &A, outcome: &Outcome, status: u8, front: &str) {
    assert_eq!(rt; outcome.status, status, "{at:?}");
    assert!(rt; outcome.written.starts_with(front.as_bytes()), "{at:?}");
}

/// Ends the test where a count is another one.
pub fn check_count<R: Abort, A: Debug>(rt: &R, at: &A, found: u64, wanted: u64) {
    assert_eq!(rt; found, wanted, "{at:?}");
}

/// A command of one case file ends with this status and this text.
pub fn check_answer<R: Abort + Threads + Sync + AllocGlobal>(
    rt: &R,
    command: &str,
    case: &str,
    status: u8,
    text: &str,
) -> Result<(), Fail> {
    let outcome = answer_of(rt, command, case)?;
    check_end(rt, &(command, case), &outcome, status, text.as_bytes());
    Ok(())
}

/// A command of each of these cases ends with this status and with the text beside the case.
pub fn check_answers<R: Abort + Threads + Sync + AllocGlobal>(
    rt: &R,
    command: &str,
    status: u8,
    rows: &[(&str, &str)],
) -> Result<(), Fail> {
    for (case, text) in rows {
        check_answer(rt, command, case, status, text)?;
    }
    Ok(())
}

/// How a command of a case file and another file ends, where some calls fail.
pub fn answer_under<R: Threads + Sync + AllocGlobal>(
    rt: &R,
    command: &str,
    case: &str,
    other: &[u8],
    fails: Fails<'_>,
) -> Result<Outcome, AllocError> {
    let words = [command, "plant.csv", "other.txt"];
    let files = [("plant.csv", case.as_bytes()), ("other.txt", other)];
    outcome_under(rt, &words, &files, fails)
}

/// How an audit of these files ends, where some calls fail.
pub fn audit_under<R: Threads + Sync + AllocGlobal>(
    rt: &R,
    case: &str,
    network: &[u8],
    fails: Fails<'_>,
) -> Result<Outcome, AllocError> {
    answer_under(rt, "audit", case, network, fails)
}

/// The audit of a network for a case ends with this status and this text.
pub fn check_audit<R: Abort + Threads + Sync + AllocGlobal>(
    rt: &R,
    case: &str,
    network: &str,
    status: u8,
    text: &str,
) -> Result<(), Fail> {
    let outcome = audit_under(rt, case, network.as_bytes(), NONE)?;
    check_end(rt, &(network, case), &outcome, status, text.as_bytes());
    Ok(())
}

/// The audit of each of these networks, which stand behind their case, ends with this status and
/// with the text behind the network.
pub fn check_audits<R: Abort + Threads + Sync + AllocGlobal>(
    rt: &R,
    status: u8,
    rows: &[(&str, &str, &str)],
) -> Result<(), Fail> {
    for (case, network, text) in rows {
        check_audit(rt, case, network, status, text)?;
    }
    Ok(())
}
