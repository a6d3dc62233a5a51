//! The outside of a program as two traits: `Shelf`, where files are taken from, and `Sink`, where bytes are written to.
//! Both stand in memory, where contracts see every byte and chosen calls fail, and over the files and the output of
//! the system.
#![tactic(auto)]

mod adapters;
mod counts;
mod limits;
mod memory_shelf;
mod memory_sink;
mod shelf;
mod sink;

pub use adapters::{FileShelf, OutSink};
pub use limits::MAX_FILE;
pub use memory_shelf::{MemoryFile, MemoryShelf};
pub use memory_sink::MemorySink;
pub use shelf::{Shelf, ShelfFault, TakeFault, take_all};
pub use sink::{Sink, SinkFault, write_all_of};
