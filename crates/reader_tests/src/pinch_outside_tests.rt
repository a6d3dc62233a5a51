//! Shelves and sinks in memory, and how they fail.
ghost use Rattle.std.specs.Prelude.{refl};
ghost use Rattle.pinch_outside.specs.Memory.{memory_state};

use crate::compare::{assert_lists, assert_same};
use pinch_outside::{
    FileShelf, MemoryFile, MemoryShelf, MemorySink, OutSink, Shelf, ShelfFault, SinkFault,
    TakeFault, take_all, write_all_of,
};
use std::alloc::{AllocError, Global};
use std::cell::RefCell;
use std::fmt::Display;
use std::fs;
use std::io::{self, ErrorKind};
use std::test::Fail;

/// The most bytes that a file may have.
const LONGEST: usize = 8_388_608;

/// Bytes that are taken in a thousand pieces.
const LARGE: usize = 5_000_011;

/// So many bytes, which no shift by a piece makes the same.
fn varied_bytes(alloc: Global, count: usize) -> Result<Vec<u8>, AllocError> {
    let mut bytes = Vec::new(alloc);
    for number in 0..count {
        bytes.push((number % 251) as u8)?;
    }
    Ok(bytes)
}

/// A shelf in memory that notes the largest sum of what was taken and what a take asks for.
#[derive(Drop)]
struct WatchingShelf {
    shelf: MemoryShelf,
    most: usize,
}

impl Shelf for WatchingShelf {
    ghost use Rattle.std.proofs.Common.{rules};

    ghost state = { λ s. memory_state s.shelf };

    ghost told_together = { λ _. record { left = refl; asked = Prim.search rules } };

    fn start(&mut self, name: &str) -> Result<(), ShelfFault> {
        self.shelf.start(name)
    }

    fn take(&mut self, buf: &mut [u8]) -> Result<usize, ShelfFault> {
        self.most = self.most.max(self.shelf.pos + buf.len());
        self.shelf.take(buf)
    }
}

/// A shelf with one file of so many bytes, whose name is "streams".
fn shelf_of(alloc: Global, bytes: usize, fails: &[u64]) -> Result<MemoryShelf, AllocError> {
    let mut files = Vec::new(alloc);
    files.push(MemoryFile {
        name: String::from_str(alloc, "streams")?,
        bytes: vec![in alloc; 7u8; bytes]?,
    })?;
    Ok(MemoryShelf::new(files, fails.to_vec(alloc)?))
}

/// How many bytes a file has, the name that is asked for, the calls that fail, and the answer.
const FILES: &[(usize, &str, &[u64], Result<usize, TakeFault>)] = &[
    (10_000, "streams", &[], Ok(10_000)),
    (0, "streams", &[], Ok(0)),
    (10_000, "prices", &[], Err(TakeFault::Fault)),
    (10_000, "streams", &[1], Err(TakeFault::Fault)),
    (10_000, "streams", &[3], Err(TakeFault::Fault)),
    (LONGEST, "streams", &[], Ok(LONGEST)),
    (LONGEST + 1, "streams", &[], Err(TakeFault::Long)),
];

#[test]
fn files_in_memory_are_taken_whole_or_refused(rt: HostRuntime) -> Result<(), Fail> {
    let alloc = rt.alloc();
    for (bytes, name, fails, wanted) in FILES {
        let mut shelf = shelf_of(alloc, *bytes, fails)?;
        let answer = take_all(alloc, &mut shelf, name).map(|taken| taken.len());
        assert_same(&rt, name, &answer, wanted);
    }
    Ok(())
}

#[test]
fn no_take_asks_for_more_than_one_byte_above_the_limit(rt: HostRuntime) -> Result<(), Fail> {
    let alloc = rt.alloc();
    for bytes in [LONGEST, LONGEST + 1, 8_400_000] {
        let mut shelf = WatchingShelf {
            shelf: shelf_of(alloc, bytes, &[])?,
            most: 0,
        };
        let _answer = take_all(alloc, &mut shelf, "streams");
        assert_eq!(rt; shelf.most, LONGEST + 1);
    }
    Ok(())
}

/// How much room there is, the writes that fail, the answer, and what is written.
const ROOMS: &[(usize, &[u64], Result<(), SinkFault>, &str)] = &[
    (100, &[], Ok(()), "hot 20000\n"),
    (100, &[2], Err(SinkFault), "hot 2"),
    (7, &[], Err(SinkFault), "hot 200"),
];

#[test]
fn texts_are_written_whole_or_in_front(rt: HostRuntime) -> Result<(), Fail> {
    let alloc = rt.alloc();
    for (room, fails, wanted, written) in ROOMS {
        let mut sink = MemorySink::new(alloc, *room, 5, fails.to_vec(alloc)?)?;
        let answer = write_all_of(&mut sink, b"hot 20000\n");
        assert_same(&rt, written, &answer, wanted);
        assert_lists(&rt, written, sink.written.as_slice(), written.as_bytes());
    }
    Ok(())
}

#[test]
fn a_file_of_the_folder_is_taken(rt: HostRuntime) -> Result<(), Fail> {
    let alloc = rt.alloc();
    let name = "pinch_outside_streams.csv";
    fs::write(&rt, name, "hot,H,1000,500,10,,\n")?;
    let mut shelf = FileShelf::new(&rt);
    let bytes = take_all(alloc, &mut shelf, name);
    fs::remove_file(&rt, name)?;
    assert!(rt; bytes.is_ok_and(|bytes| bytes.as_slice() == b"hot,H,1000,500,10,,\n".as_slice()));
    assert!(rt; matches!(take_all(alloc, &mut shelf, name), Err(TakeFault::Fault)));
    Ok(())
}

#[test]
fn a_large_file_of_the_folder_is_taken_whole(rt: HostRuntime) -> Result<(), Fail> {
    let alloc = rt.alloc();
    let name = "pinch_outside_large.csv";
    let large = varied_bytes(alloc, LARGE)?;
    fs::write(&rt, name, large.as_slice())?;
    let mut shelf = FileShelf::new(&rt);
    let bytes = take_all(alloc, &mut shelf, name);
    fs::remove_file(&rt, name)?;
    assert!(rt; bytes.is_ok_and(|bytes| bytes.as_slice() == large.as_slice()));
    Ok(())
}

/// How many bytes a write takes at most.
#[derive(Clone, Copy)]
enum Most {
    Always(usize),
    OneMoreThanAreKept,
}

/// An output that keeps its bytes. A write is refused beyond the room.
#[derive(Drop)]
struct Page {
    bytes: RefCell<Vec<u8>>,
    room: usize,
    most: Most,
}

impl Print for Page {
    fn print<D: Display + Drop>(&self, _value: D) -> io::Result<()> {
        Err(io::Error::from(ErrorKind::Unsupported))
    }

    fn println<D: Display + Drop>(&self, _value: D) -> io::Result<()> {
        Err(io::Error::from(ErrorKind::Unsupported))
    }

    fn write_all(&self, _bytes: &[u8]) -> io::Result<()> {
        Err(io::Error::from(ErrorKind::Unsupported))
    }

    fn write_some(&self, bytes: &[u8]) -> io::Result<usize> {
        let Ok(mut kept) = self.bytes.try_borrow_mut() else {
            return Err(io::Error::from(ErrorKind::ResourceBusy));
        };
        let most = match self.most {
            Most::Always(count) => count,
            Most::OneMoreThanAreKept => kept.len().saturating_add(1),
        };
        let room = self.room.saturating_sub(kept.len());
        let count = bytes.len().min(most).min(room);
        kept.extend_from_slice(&bytes[..count])?;
        Ok(count)
    }
}

/// Writes a text to an output: the answer, and what the output keeps.
fn page_of(
    alloc: Global,
    room: usize,
    most: Most,
    text: &[u8],
) -> (Result<(), SinkFault>, Vec<u8>) {
    let page = Page {
        bytes: RefCell::new(Vec::new(alloc)),
        room,
        most,
    };
    let mut sink = OutSink::new(&page);
    let answer = write_all_of(&mut sink, text);
    (answer, page.bytes.into_inner())
}

/// How much room there is, the answer, and what is written. The last write of the whole text is of
/// a single byte.
const PAGES: &[(usize, Result<(), SinkFault>, &str)] = &[
    (100, Ok(()), "hot 200000\n"),
    (7, Err(SinkFault), "hot 200"),
    (0, Err(SinkFault), ""),
];

#[test]
fn an_output_takes_a_text_or_its_front(rt: HostRuntime) -> Result<(), Fail> {
    let alloc = rt.alloc();
    for (room, wanted, written) in PAGES {
        let (answer, bytes) = page_of(alloc, *room, Most::Always(5), b"hot 200000\n");
        assert_same(&rt, written, &answer, wanted);
        assert_lists(&rt, written, bytes.as_slice(), written.as_bytes());
    }
    Ok(())
}

#[test]
fn an_output_takes_a_large_text_by_small_writes_and_large_ones(
    rt: HostRuntime,
) -> Result<(), Fail> {
    let alloc = rt.alloc();
    let text = varied_bytes(alloc, LARGE)?;
    for most in [
        Most::OneMoreThanAreKept,
        Most::Always(4096),
        Most::Always(LARGE),
    ] {
        let (answer, bytes) = page_of(alloc, LARGE, most, text.as_slice());
        assert_same(&rt, "a large text", &answer, &Ok(()));
        assert!(rt; bytes.as_slice() == text.as_slice());
    }
    Ok(())
}

// What standard output shows, no test sees: only that it takes a text.
#[test]
fn standard_output_takes_a_text(rt: HostRuntime) {
    let mut sink = OutSink::new(&rt);
    assert_eq!(rt; write_all_of(&mut sink, b"hot 20000\n"), Ok(()));
}
