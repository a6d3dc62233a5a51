//! The files of a folder as a shelf, and standard output as a sink. They tell nothing of content, and count each
//! refusal of the system once, whatever its cause.
ghost use Rattle.std.specs.Prelude.{◌≡◌, ◌+◌, ◌-◌, ◌^◌, ◌<◌, ◌≤◌, None, true, false, length, is_some, refl};
ghost use Rattle.std.specs.Io.KnownBytes.{WriteAppends};
ghost use Rattle.pinch_outside.specs.Faults.{HasCause, faults_after};
ghost use Rattle.pinch_outside.specs.Shelf.{Starts, Takes};
ghost use Rattle.pinch_outside.specs.Sink.{WritesSome};

use crate::{Shelf, ShelfFault, Sink, SinkFault};
use std::fs;
use std::io::Read;
use std::rt::Files;

/// The files of the folder that the program runs in, by their paths.
#[derive(Drop)]
pub struct FileShelf<'a, R: Files> {
    rt: &'a R,
    file: Option<R::File>,
    taken: usize,
    failed: bool,
    ended: bool,
    faults: u64,
}

impl<'a, R: Files> FileShelf<'a, R> {
    /// A shelf that has begun no file.
    pub fn new(rt: &'a R) -> FileShelf<'a, R>
        ensures { ⟦<FileShelf<'a, R> as Shelf>⟧.state result ≡ record {
          files = None;
          left = None;
          asked = None;
          taken = 0;
          begun = false;
          failed = false;
          ended = false;
          faults = 0;
        } }
    {
        FileShelf {
            rt,
            file: None,
            taken: 0,
            failed: false,
            ended: false,
            faults: 0,
        }
    }
}

impl<R: Files> Shelf for FileShelf<'_, R> {
    ghost state = { λ s. record {
      files = None;
      left = None;
      asked = None;
      taken = s.taken;
      begun = is_some s.file;
      failed = s.failed;
      ended = s.ended;
      faults = s.faults;
    } };

    ghost told_together = { λ _. record { left = refl; asked = λ _. refl } };

    fn start(&mut self, name: &str) -> Result<(), ShelfFault>
        ensures told { let state = ⟦<Self as Shelf>⟧.state in
            Starts name.now (state self.old) (state self.new) result }
        ensures counted { let state = ⟦<Self as Shelf>⟧.state in
            (state self.new).faults ≡ faults_after (state self.old).faults result }
    {
        self.file = fs::open(self.rt, name).ok();
        self.taken = 0;
        self.ended = false;
        self.failed = self.file.is_none();
        if self.failed {
            self.faults = self.faults.saturating_add(1);
            return Err(ShelfFault);
        }
        Ok(())
    }

    fn take(&mut self, buf: &mut [u8]) -> Result<usize, ShelfFault>
        requires begun { (⟦<Self as Shelf>⟧.state self.old).begun ≡ true }
        requires room { (⟦<Self as Shelf>⟧.state self.old).taken + length buf.old
            ≤ 2 ^ 63 - 1 }
        ensures told { let state = ⟦<Self as Shelf>⟧.state in
            Takes (state self.old) (state self.new) buf.new result }
        ensures counted { let state = ⟦<Self as Shelf>⟧.state in
            (state self.new).faults ≡ faults_after (state self.old).faults result }
    {
        let answer = self.file.as_mut().unwrap().read(buf);
        self.failed = answer.is_err();
        let Ok(count) = answer else {
            self.ended = false;
            self.faults = self.faults.saturating_add(1);
            return Err(ShelfFault);
        };
        self.ended = count == 0 && !buf.is_empty();
        self.taken += count;
        Ok(count)
    }
}

/// Standard output.
#[derive(Drop)]
pub struct OutSink<'a, R: Print> {
    rt: &'a R,
    faults: u64,
}

impl<'a, R: Print> OutSink<'a, R> {
    /// A sink that has refused no write.
    pub fn new(rt: &'a R) -> OutSink<'a, R>
        ensures written { ⟦<OutSink<'a, R> as Sink>⟧.written result ≡ None }
        ensures faults { ⟦<OutSink<'a, R> as Sink>⟧.faults result ≡ 0 }
    {
        OutSink { rt, faults: 0 }
    }
}

impl<R: Print> Sink for OutSink<'_, R> {
    ghost written = { λ _. None };

    ghost faults = { λ s. s.faults };

    // A write of no bytes is a fault.
    fn write(&mut self, bytes: &[u8]) -> Result<usize, SinkFault>
        requires { 0 < length bytes.now }
        ensures count { WritesSome result bytes.now }
        ensures written { let written = ⟦<Self as Sink>⟧.written in
            WriteAppends (written self.old) (written self.new) result bytes.now }
        ensures cause { let faults = ⟦<Self as Sink>⟧.faults in
            HasCause (faults self.old) (faults self.new) result }
        ensures counted { let faults = ⟦<Self as Sink>⟧.faults in
            faults self.new ≡ faults_after (faults self.old) result }
    {
        match self.rt.write_some(bytes) {
            Ok(count) if count > 0 => Ok(count),
            _ => {
                self.faults = self.faults.saturating_add(1);
                Err(SinkFault)
            }
        }
    }
}
