//! The program, from its words to what it writes.
#![tactic(auto)]

mod arguments;
mod program;
#[cfg(test)]
mod tests;

use arguments::run_arguments;
pub use commands::{Status, Word};
use pinch_outside::{FileShelf, OutSink};
pub use program::{Done, run, run_gated};
use std::env;
use std::process::ExitCode;

// No contract can say what the system hands in and what becomes of the exit code: all else stands in `run_arguments`.
fn main(rt: HostRuntime) -> ExitCode {
    let mut shelf = FileShelf::new(&rt);
    let mut sink = OutSink::new(&rt);
    run_arguments(&rt, rt.alloc(), env::args(&rt), &mut shelf, &mut sink)
}
