//! Four tables of hostile use over worked cases: refused calls of the shelf, refused writes, cut
//! files, and numbers at their ends.

use super::support::{
    FOUR_STREAM, FOUR_STREAM_TARGETS, check_count, check_end, outcome_of, outcome_over, outcome_to,
    shelf_of,
};
use std::process::Abort;
use std::test::Fail;
use std::thread::Threads;

/// A network of the four-stream table at its target.
const NETWORK: &str = "exchanger E1 H2 C3 240000
exchanger E2 H4 C1 90000
exchanger E3 H2 C1 90000
exchanger E4 H4 C1 30000
exchanger Q1 HOT C1 20000
exchanger Q2 H4 COLD 60000
pass H2 E1 h2a
pass h2a E3 h2b
end h2b
pass H4 E2 h4a
pass h4a E4 h4b
pass h4b Q2 h4c
end h4c
pass C1 E4 c1a
pass c1a E3 c1b
pass c1b E2 c1c
pass c1c Q1 c1d
end c1d
pass C3 E1 c3a
end c3a
";

const NETWORK_AUDIT: &str = "accepted
hot 20000
cold 60000
excess 0
cost 20000
floor 20000
place 850
penalty exchanger E1 0
penalty exchanger E2 0
penalty exchanger E3 0
penalty exchanger E4 0
penalty exchanger Q1 0
penalty exchanger Q2 0
";

/// The most bytes of a file.
const LONGEST_FILE: usize = 8_388_608;

/// An audit of a shelf that refuses one call ends with the fault of the file of that call, and the
/// next one over the same shelf, which refuses no later call, is answered.
fn check_refused_call<R: Abort + Threads + Sync + AllocGlobal>(
    rt: &R,
    number: u64,
    text: &str,
) -> Result<(), Fail> {
    let words = ["audit", "case", "network"];
    let files = [
        ("case", FOUR_STREAM.as_bytes()),
        ("network", NETWORK.as_bytes()),
    ];
    let mut shelf = shelf_of(rt.alloc(), &files, &[number])?;
    let refused = outcome_over(rt, &words, &mut shelf, (5, &[]))?;
    check_end(rt, &number, &refused, 6, text.as_bytes());
    check_count(rt, &number, shelf.calls, number);
    let again = outcome_over(rt, &words, &mut shelf, (5, &[]))?;
    check_end(rt, &number, &again, 0, NETWORK_AUDIT.as_bytes());
    check_count(rt, &number, shelf.calls, number.saturating_add(6));
    Ok(())
}

/// Of each file the start, the one take that brings bytes, and the take that brings its end; and
/// the fault that is told.
const CALLS: &[(u64, &str)] = &[
    (1, "read fault case\n"),
    (2, "read fault case\n"),
    (3, "read fault case\n"),
    (4, "read fault network\n"),
    (5, "read fault network\n"),
    (6, "read fault network\n"),
];

#[test]
fn each_call_of_the_shelf_is_refused(rt: HostRuntime) -> Result<(), Fail> {
    for (number, text) in CALLS {
        check_refused_call(&rt, *number, text)?;
    }
    println!(rt;
        "calls of the shelf refused in turn: {} runs",
        CALLS.len() * 2
    )?;
    Ok(())
}

/// A write, and what stands there before it.
const WRITES: &[(u64, &str)] = &[
    (1, ""),
    (2, "hot 2"),
    (3, "hot 20000\n"),
    (4, "hot 20000\ncold "),
    (5, "hot 20000\ncold 60000"),
    (6, "hot 20000\ncold 60000\npinc"),
    (7, "hot 20000\ncold 60000\npinch 850"),
];

#[test]
fn each_write_is_refused(rt: HostRuntime) -> Result<(), Fail> {
    let words = ["targets", "case"];
    let files = [("case", FOUR_STREAM.as_bytes())];
    for (number, front) in WRITES {
        let refused = outcome_to(&rt, &words, &files, (5, &[*number]))?;
        check_end(&rt, number, &refused, 7, front.as_bytes());
    }
    let whole = outcome_to(&rt, &words, &files, (5, &[8]))?;
    check_end(&rt, &8, &whole, 0, FOUR_STREAM_TARGETS.as_bytes());
    check_count(&rt, &8, whole.writes, 7);
    println!(rt; "writes refused in turn: {} runs", WRITES.len() + 1)?;
    Ok(())
}

/// The first bytes of a text, which may be cut anywhere.
fn front(text: &str, length: usize) -> &[u8] {
    text.as_bytes().get(..length).unwrap_or(&[])
}

fn check_targets<R: Abort + Threads + Sync + AllocGlobal>(
    rt: &R,
    case: &[u8],
    status: u8,
    text: &str,
) -> Result<(), Fail> {
    let outcome = outcome_of(rt, &["targets", "case"], &[("case", case)])?;
    check_end(rt, &text, &outcome, status, text.as_bytes());
    Ok(())
}

fn check_audit<R: Abort + Threads + Sync + AllocGlobal>(
    rt: &R,
    (case, network): (&[u8], &[u8]),
    status: u8,
    text: &str,
) -> Result<(), Fail> {
    let files = [("case", case), ("network", network)];
    let outcome = outcome_of(rt, &["audit", "case", "network"], &files)?;
    check_end(rt, &text, &outcome, status, text.as_bytes());
    Ok(())
}

/// How many bytes are left: the row of the contribution alone; the next row too, up to its last
/// comma; all but the end of the last line.
const CUTS: &[(usize, u8, &str)] = &[
    (21, 3, "case row 2 NoStream\n"),
    (42, 3, "case row 2 FieldCount\n"),
    (FOUR_STREAM.len() - 1, 0, FOUR_STREAM_TARGETS),
];

#[test]
fn cut_files_are_told(rt: HostRuntime) -> Result<(), Fail> {
    for (length, status, text) in CUTS {
        check_targets(&rt, front(FOUR_STREAM, *length), *status, text)?;
    }
    // The last two lines pass the cold side of `E1`, and end it.
    let lines = "pass C3 E1 c3a\nend c3a\n";
    assert!(rt; NETWORK.ends_with(lines));
    let network = front(NETWORK, NETWORK.len().saturating_sub(lines.len()));
    let files = (FOUR_STREAM.as_bytes(), network);
    check_audit(&rt, files, 4, "network line 1 MissingPass\n")?;
    println!(rt; "cut files: {} runs", CUTS.len() + 1)?;
    Ok(())
}

#[test]
fn numbers_at_their_ends_are_answered(rt: HostRuntime) -> Result<(), Fail> {
    // The longest and steepest streams.
    let case = "contribution,,1000,,,,\nhot,H,30000,-2731,100000,,\ncold,C,-2731,30000,100000,,\n";
    let text = "hot 200000000\ncold 200000000\npinch 29000\npinch -1731\n";
    check_targets(&rt, case.as_bytes(), 0, text)?;
    // A stream that is cooled by all but nothing: its end has the greatest denominator, and with a
    // little less heat a greater one.
    let case = "contribution,,50,,,,\nhot,H,1000,500,2,,\n";
    let network = "exchanger E1 H COLD 1/140737488355328\npass H E1 a\nend a\n";
    let text = "rejected line 3 MissedTarget found 281474976710655999/281474976710656 wanted 500\n";
    check_audit(&rt, (case.as_bytes(), network.as_bytes()), 1, text)?;
    let network = "exchanger E1 H COLD 1/140737488355329\npass H E1 a\nend a\n";
    let text = "too fine line 2 step 1\n";
    check_audit(&rt, (case.as_bytes(), network.as_bytes()), 9, text)?;
    // One byte above the longest file.
    let network = vec![in rt.alloc(); b'#'; LONGEST_FILE + 1]?;
    let files = (FOUR_STREAM.as_bytes(), network.as_slice());
    check_audit(&rt, files, 5, "too long network\n")?;
    println!(rt; "numbers at their ends: 4 runs")?;
    Ok(())
}
