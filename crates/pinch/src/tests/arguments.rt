//! The words of the arguments, and the status as the exit code.

use super::support::{FOUR_STREAM, FOUR_STREAM_TARGETS, WORDS, shelf_of, sink_of};
use crate::arguments::{collect_words, run_arguments};
use pinch_outside::{MemoryShelf, MemorySink};
use std::alloc::{AllocError, Global};
use std::env::{self, Args, FillError};
use std::io;
use std::process::ExitCode;
use std::rt::Env;
use std::test::Fail;
use std::thread::Threads;

/// The arguments of a program, from its name on, with a bar between each two.
#[derive(Drop)]
struct Arguments<'a> {
    line: &'a [u8],
}

impl Env for Arguments<'_> {
    fn arg(&self, i: usize, buf: &mut [u8]) -> Result<usize, FillError> {
        let Some(word) = self.line.split(|byte| *byte == b'|').nth(i) else {
            return Err(FillError::NotPresent);
        };
        if buf.len() < word.len() {
            return Err(FillError::TooLong);
        }
        buf[..word.len()].copy_from_slice(word);
        Ok(word.len())
    }

    fn var(&self, _name: &str, _buf: &mut [u8]) -> Result<usize, FillError> {
        Err(FillError::NotPresent)
    }

    fn var_at(&self, _i: usize, _buf: &mut [u8]) -> Result<usize, FillError> {
        Err(FillError::NotPresent)
    }
}

/// The words of these arguments, with a bar behind each.
fn words_text(alloc: Global, line: &[u8]) -> Result<String, AllocError> {
    let mut text = String::new(alloc);
    for word in collect_words(alloc, env::args(&(Arguments { line }, alloc)))?.as_slice() {
        text.push_str(word.as_str())?;
        text.push_str("|")?;
    }
    Ok(text)
}

/// Arguments, and the words with a bar behind each.
const LINES: &[(&[u8], &str)] = &[
    (b"pinch", ""),
    (b"pinch|targets|plant.csv", "targets|plant.csv|"),
    (b"pinch|| a  b |\xc3\xa9", "| a  b |é|"),
    (
        b"pinch|prices|plant.csv|study.csv|4",
        "prices|plant.csv|study.csv|4|",
    ),
    (
        b"pinch|sweep|plant.csv|0|100|50",
        "sweep|plant.csv|0|100|50|",
    ),
    (
        b"pinch|sweep|plant.csv|0|100|50|2",
        "sweep|plant.csv|0|100|50|2|",
    ),
    // An argument that is no text leaves no words.
    (b"pinch|targets|\xff", ""),
    (b"pinch|\xff|targets", ""),
];

#[test]
fn words_are_the_arguments_behind_the_name(rt: HostRuntime) -> Result<(), Fail> {
    for (line, wanted) in LINES {
        assert_eq!(rt; words_text(rt.alloc(), line)?.as_str(), *wanted);
    }
    Ok(())
}

/// The exit code of the program. This one call says nothing of what it answers, so that no test is
/// proved over the clauses of `run_arguments`.
fn code_of<R: Threads + Sync>(
    rt: &R,
    alloc: Global,
    texts: io::Result<Args>,
    shelf: &mut MemoryShelf,
    sink: &mut MemorySink,
) -> ExitCode {
    run_arguments(rt, alloc, texts, shelf, sink)
}

/// The exit code as it is printed, and what was written, for these arguments.
fn end_of<R: Threads + Sync + AllocGlobal>(
    rt: &R,
    line: &[u8],
) -> Result<(String, Vec<u8>), AllocError> {
    let alloc = rt.alloc();
    let texts = env::args(&(Arguments { line }, alloc));
    let mut shelf = shelf_of(alloc, &[("plant.csv", FOUR_STREAM.as_bytes())], &[])?;
    let mut sink = sink_of(alloc, 5, &[])?;
    let code = code_of(rt, alloc, texts, &mut shelf, &mut sink);
    Ok((format!(in alloc; "{code:?}")?, sink.written))
}

/// Arguments, the status, and what is written.
const EXIT_CODES: &[(&[u8], u8, &str)] = &[
    (b"pinch|targets|plant.csv", 0, FOUR_STREAM_TARGETS),
    (b"pinch|targets|other.csv", 6, "read fault case\n"),
    (
        b"pinch|sweep|plant.csv|50|50|1|1",
        0,
        "row 50 20000 60000 20000\n",
    ),
    (b"pinch|sweep|plant.csv|50|50|1", 2, WORDS),
    (b"pinch", 2, WORDS),
    (b"pinch|targets|\xff", 2, WORDS),
];

#[test]
fn the_exit_code_is_the_status(rt: HostRuntime) -> Result<(), Fail> {
    for (line, status, text) in EXIT_CODES {
        let (code, written) = end_of(&rt, line)?;
        let wanted = format!(in rt.alloc(); "ExitCode(unix_exit_status({status}))")?;
        assert_eq!(rt; code.as_str(), wanted.as_str());
        assert_eq!(rt; written.as_slice(), text.as_bytes());
    }
    Ok(())
}
