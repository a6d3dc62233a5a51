//! The top call: from the words and the files to the text that is written.
ghost use Rattle.std.specs.Prelude.{◌≡◌, IfErr, IfOk, IsNone};
ghost use Rattle.reports.specs.Text.{IsPrintable};
ghost use Rattle.commands.specs.Answers.{ShowsCommand};
ghost use Rattle.pinch.specs.Run.{Prints, Runs};
ghost use Rattle.commands.specs.Status.{number_of};
ghost use Rattle.commands.specs.declared.status.Status.TheVariants.{OutOfMemory};

use commands::{Status, Word, answer, request_of, status_of};
use pinch_outside::{Shelf, Sink, write_all_of};
use reports::{Shown, text_of};
use std::alloc::{AllocError, Global};
use std::thread::Threads;
use stream_case::Items;
use study::{Gate, OpenGate};

/// How the program ended, and what it showed.
#[derive(Debug, Drop)]
pub struct Done {
    /// The number of a [`Status`], with which the program ends.
    pub status: u8,
    /// What is shown; nothing exactly where memory is wanted.
    pub shown: Option<Shown>,
}

impl Done {
    /// The number of the status alone.
    pub(crate) fn into_status(self) -> u8
        ensures { result ≡ self.status }
    {
        let Done { status, shown } = self;
        if let Some(shown) = shown {
            shown.discard();
        }
        status
    }
}

/// Does what the words say over the files of the shelf, and writes the text of what is shown to
/// the sink. All room is taken before the first write.
pub fn run<R: Threads + Sync, S: Shelf, K: Sink>(
    rt: &R,
    alloc: Global,
    words: &Items<Word>,
    shelf: &mut S,
    sink: &mut K,
) -> Done
    ensures { Runs K.written K.faults words.now (S.state shelf.old) (S.state shelf.new)
        sink.old sink.new result }
{
    run_gated(rt, alloc, &OpenGate, words, shelf, sink)
}

/// The same, where the workers of a sweep or of a price study pass this gate. It has no influence on what is shown.
pub fn run_gated<R: Threads + Sync, G: Gate + Sync, S: Shelf, K: Sink>(
    rt: &R,
    alloc: Global,
    gate: &G,
    words: &Items<Word>,
    shelf: &mut S,
    sink: &mut K,
) -> Done
    ensures { Runs K.written K.faults words.now (S.state shelf.old) (S.state shelf.new)
        sink.old sink.new result }
{
    let Ok(shown) = show(rt, alloc, gate, words, shelf) else {
        return out_of_memory();
    };
    match print(alloc, sink, &shown) {
        Ok(status) => Done {
            status: status.number(),
            shown: Some(shown),
        },
        Err(AllocError) => {
            shown.discard();
            out_of_memory()
        }
    }
}

/// What is shown for the words and the files, before anything is written: all is read first, and
/// then it is answered.
fn show<R: Threads + Sync, G: Gate + Sync, S: Shelf>(
    rt: &R,
    alloc: Global,
    gate: &G,
    words: &Items<Word>,
    shelf: &mut S,
) -> Result<Shown, AllocError>
    ensures { IfOk result
        (ShowsCommand words.now (S.state shelf.old) (S.state shelf.new)) }
{
    match request_of(alloc, shelf, words) {
        Ok(request) => Ok(answer(rt, alloc, gate, request)?),
        Err(stop) => stop.into_shown(),
    }
}

/// Writes the text of what is shown, and gives the status of the program.
fn print<K: Sink>(alloc: Global, sink: &mut K, shown: &Shown) -> Result<Status, AllocError>
    requires { IsPrintable shown.now }
    ensures prints { IfOk result (Prints (K.written sink.old) (K.written sink.new)
        (K.faults sink.old) (K.faults sink.new) shown.now) }
    ensures untouched { IfErr result (λ _. sink.new ≡ sink.old) }
{
    let printed = text_of(alloc, shown)?;
    match write_all_of(sink, printed.as_slice()) {
        Ok(()) => Ok(status_of(shown)),
        Err(_) => Ok(Status::WriteFault),
    }
}

fn out_of_memory() -> Done
    ensures status { result.status ≡ number_of OutOfMemory }
    ensures shown { IsNone result.shown }
{
    Done {
        status: Status::OutOfMemory.number(),
        shown: None,
    }
}
