//! Over every command: each call of the shelf is refused in turn, and each write.

use super::hostile_orders::{Row, rows};
use super::support::{
    Outcome, check_count, check_end, check_front, outcome_over, outcome_to, shelf_of,
};
use std::process::Abort;
use std::test::Fail;
use std::thread::Threads;

/// The most bytes that one take asks for.
const TAKE: usize = 4096;

/// How many calls of a shelf it takes to read a file of so many bytes: its start, the takes that
/// bring bytes, and the take that brings its end.
fn call_count(length: usize) -> u64 {
    length.div_ceil(TAKE).saturating_add(2) as u64
}

/// How many calls of a shelf it takes to read all files.
fn calls_of(files: &[(&str, &[u8])]) -> u64 {
    let mut calls: u64 = 0;
    for (_, bytes) in files {
        calls = calls.saturating_add(call_count(bytes.len()));
    }
    calls
}

/// The role of the file that the call with this number reads, if there are so many calls.
fn role_of<'a>(files: &[(&'a str, &[u8])], number: u64) -> Option<&'a str> {
    let mut calls: u64 = 0;
    for (role, bytes) in files {
        calls = calls.saturating_add(call_count(bytes.len()));
        if number <= calls {
            return Some(*role);
        }
    }
    None
}

/// Where this call of the shelf is refused, the command ends with the fault of its file and makes
/// no further call; over the same shelf, which refuses no later call, it then ends as it should.
fn check_refused_call<R: Abort + Threads + Sync + AllocGlobal>(
    rt: &R,
    (words, files): (&[&str], &[(&str, &[u8])]),
    number: u64,
    whole: &Outcome,
) -> Result<(), Fail> {
    let alloc = rt.alloc();
    let role = role_of(files, number).unwrap_or("nothing");
    let text = format!(in alloc; "read fault {role}\n")?;
    let mut shelf = shelf_of(alloc, files, &[number])?;
    let refused = outcome_over(rt, words, &mut shelf, (TAKE, &[]))?;
    check_end(rt, &(words, number), &refused, 6, text.as_bytes());
    check_count(rt, &words, shelf.calls, number);
    let again = outcome_over(rt, words, &mut shelf, (TAKE, &[]))?;
    check_end(rt, &(words, number), &again, whole.status, &whole.written);
    check_count(
        rt,
        &words,
        shelf.calls,
        number.saturating_add(calls_of(files)),
    );
    Ok(())
}

/// Each call of the shelf that the command makes is refused in turn. The answer is how many there
/// are.
fn check_refused_calls<R: Abort + Threads + Sync + AllocGlobal>(
    rt: &R,
    (words, files, status, front): Row,
) -> Result<u64, Fail> {
    let whole = outcome_to(rt, words, files, (TAKE, &[]))?;
    check_front(rt, &words, &whole, status, front);
    let calls = calls_of(files);
    for number in 1..=calls {
        check_refused_call(rt, (words, files), number, &whole)?;
    }
    Ok(calls)
}

#[test]
fn each_call_of_the_shelf_is_refused(rt: HostRuntime) -> Result<(), Fail> {
    let mut calls: u64 = 0;
    for row in rows() {
        calls = calls.saturating_add(check_refused_calls(&rt, *row)?);
    }
    println!(rt; "calls of the shelf refused in turn over every command: {calls}, each in 2 runs")?;
    assert!(rt; calls >= 60);
    Ok(())
}

/// Each write of the command is refused in turn, where one takes so many bytes. The answer is how
/// many there are.
fn check_refused_writes<R: Abort + Threads + Sync + AllocGlobal>(
    rt: &R,
    (words, files, status, front): Row,
    piece: usize,
) -> Result<u64, Fail> {
    let whole = outcome_to(rt, words, files, (piece, &[]))?;
    check_front(rt, &words, &whole, status, front);
    let text = whole.written.as_slice();
    let mut before: usize = 0;
    for number in 1..=whole.writes {
        let refused = outcome_to(rt, words, files, (piece, &[number]))?;
        let taken = text.get(..before).unwrap_or(text);
        check_end(rt, &(words, number, piece), &refused, 7, taken);
        before = before.saturating_add(piece);
    }
    // The last write brings the last byte, and none is empty.
    assert!(rt;
        before >= text.len() && before < text.len().saturating_add(piece),
        "{words:?}"
    );
    Ok(whole.writes)
}

/// Each write of every command is refused in turn, where one takes so many bytes.
fn check_writes_by<R: Abort + Threads + Sync + AllocGlobal>(
    rt: &R,
    piece: usize,
) -> Result<u64, Fail> {
    let mut writes: u64 = 0;
    for row in rows() {
        writes = writes.saturating_add(check_refused_writes(rt, *row, piece)?);
    }
    Ok(writes)
}

#[test]
fn each_write_of_one_byte_is_refused(rt: HostRuntime) -> Result<(), Fail> {
    let writes = check_writes_by(&rt, 1)?;
    println!(rt; "writes of 1 byte refused in turn over every command: {writes} runs")?;
    assert!(rt; writes >= 1000);
    Ok(())
}

#[test]
fn each_write_of_five_bytes_is_refused(rt: HostRuntime) -> Result<(), Fail> {
    let writes = check_writes_by(&rt, 5)?;
    println!(rt; "writes of 5 bytes refused in turn over every command: {writes} runs")?;
    assert!(rt; writes >= 200);
    Ok(())
}

#[test]
fn each_write_of_all_bytes_is_refused(rt: HostRuntime) -> Result<(), Fail> {
    let writes = check_writes_by(&rt, 4096)?;
    println!(rt; "writes of 4096 bytes refused in turn over every command: {writes} runs")?;
    // Each text is shorter than that, so each row makes one write.
    assert_eq!(rt; writes, rows().len() as u64);
    Ok(())
}
