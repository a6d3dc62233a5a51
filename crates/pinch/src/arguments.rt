//! The edge: from the arguments of the program to its exit code.
ghost use Rattle.std.specs.Prelude.{◌≡◌, ◌↔◌, IfErr, IfOk, IsErr};
ghost use Rattle.std.specs.IoError.{error_kind};
ghost use Rattle.std.specs.Process.{exit_status};
ghost use Rattle.pinch.specs.Arguments.{words_of, words_behind_name, Ends};
ghost use Rattle.commands.specs.Status.{number_of};
ghost use Rattle.commands.specs.declared.status.Status.TheVariants.{OutOfMemory};

use crate::program::run;
use commands::{Status, Word};
use pinch_outside::{Shelf, Sink};
use std::alloc::{AllocError, Global};
use std::env::Args;
use std::io::{self, ErrorKind};
use std::process::ExitCode;
use std::thread::Threads;
use stream_case::Items;

/// Runs the program over its arguments, the first of which is its own name.
pub fn run_arguments<R: Threads + Sync, S: Shelf, K: Sink>(
    rt: &R,
    alloc: Global,
    texts: io::Result<Args>,
    shelf: &mut S,
    sink: &mut K,
) -> ExitCode
    ensures ends { Ends K.written K.faults (words_of texts) (S.state shelf.old)
        (S.state shelf.new) sink.old sink.new (exit_status result) }
    ensures memory { IfErr texts (λ error. error_kind error ≡ ErrorKind.OutOfMemory
        → exit_status result ≡ number_of OutOfMemory) }
{
    let Ok(words) = collect_words(alloc, texts) else {
        return ExitCode::from(Status::OutOfMemory.number());
    };
    ExitCode::from(run(rt, alloc, &words, shelf, sink).into_status())
}

/// The words behind the program's name, or none where an argument is no text, which takes no memory.
pub fn collect_words(alloc: Global, texts: io::Result<Args>) -> Result<Items<Word>, AllocError>
    ensures words { IfOk result (λ words. words ≡ words_of texts) }
    ensures memory { IfErr texts
        (λ error. IsErr result ↔ (error_kind error ≡ ErrorKind.OutOfMemory)) }
{
    match texts {
        Ok(texts) => words_behind_name(alloc, texts),
        Err(error) if error.kind() == ErrorKind::OutOfMemory => Err(AllocError),
        Err(_) => Ok(Items::new(alloc)),
    }
}

/// The words behind the first of these texts, in their order.
fn words_behind_name(alloc: Global, texts: Args) -> Result<Items<Word>, AllocError>
    ensures { IfOk result (λ words. words ≡ words_behind_name texts) }
{
    let mut words = Items::new(alloc);
    for text in texts.skip(1) {
        words.push(Word::new(text))?;
    }
    Ok(words)
}
