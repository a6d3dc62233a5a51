//! A shelf in memory, which tells everything and fails at the calls that it is told to fail at.
ghost use Rattle.std.specs.Prelude.{◌≡◌, ◌+◌, ◌-◌, ◌^◌, ◌≤◌, ◌&&◌, not, false, min, length, Some, is_some, is_ok, is_err, IfOk};
ghost use Rattle.pinch_outside.specs.Faults.{counted, faults_after};
ghost use Rattle.pinch_outside.specs.Failing.{is_failing};
ghost use Rattle.pinch_outside.specs.Shelf.{Starts, Takes, put_count, met_end};
ghost use Rattle.pinch_outside.specs.Memory.{index_of, bytes_from, memory_state};

use crate::counts::count_call;
use crate::{Shelf, ShelfFault};

/// A file by its name and its bytes.
#[derive(Drop)]
pub struct MemoryFile {
    pub name: String,
    pub bytes: Vec<u8>,
}

/// Files in memory, all told. A call whose number is in `fails` fails, and so does a start of a name that no file has.
#[derive(Drop)]
pub struct MemoryShelf {
    pub files: Vec<MemoryFile>,
    /// The index of the file of the last start, the first of its name, if one has it.
    pub at: Option<usize>,
    /// How many bytes of that file were taken.
    pub pos: usize,
    /// Whether the last start answered `Ok`.
    pub begun: bool,
    /// Whether the last call answered `Err`.
    pub failed: bool,
    /// Whether the last call was a take into a buffer with room that put nothing.
    pub ended: bool,
    /// How many starts and takes there were; it stays at `u64::MAX`.
    pub calls: u64,
    /// The numbers, counted from 1, of the calls that fail.
    pub fails: Vec<u64>,
    /// How many calls failed; it stays at `u64::MAX`.
    pub faults: u64,
}

impl MemoryShelf {
    /// A shelf that has begun no file and counted no call.
    pub fn new(files: Vec<MemoryFile>, fails: Vec<u64>) -> Self
        ensures { result ≡ record {
          files = files;
          at = None;
          pos = 0;
          begun = false;
          failed = false;
          ended = false;
          calls = 0;
          fails = fails;
          faults = 0;
        } }
    {
        MemoryShelf {
            files,
            at: None,
            pos: 0,
            begun: false,
            failed: false,
            ended: false,
            calls: 0,
            fails,
            faults: 0,
        }
    }

    // The bytes that are still to come.
    fn rest(&self) -> &[u8]
        ensures { result.now ≡ bytes_from self.now.files.items self.now.at self.now.pos }
    {
        let Some(file) = self.at.and_then(|at| self.files.get(at)) else {
            return &[];
        };
        &file.bytes[self.pos.min(file.bytes.len())..]
    }
}

// The index of the first file of that name.
fn find_index(files: &[MemoryFile], name: &str) -> Option<usize>
    ensures { result ≡ index_of name.now files.now }
{
    files.iter().position(|file| file.name.as_str() == name)
}

#[tactic(auto, using(crate::proofs::Files::asked_first, crate::proofs::Files::left_first, crate::proofs::Files::took))]
impl Shelf for MemoryShelf {
    ghost use Rattle.std.proofs.Common.{rules, refl};

    ghost state = { memory_state };

    ghost told_together = { λ _. record { left = refl; asked = Prim.search rules } };

    fn start(&mut self, name: &str) -> Result<(), ShelfFault>
        ensures outcome { is_ok result ≡ (not (is_failing self.old.fails.items self.new.calls)
            && is_some (index_of name.now self.old.files.items)) }
        ensures after { self.new ≡ record self.old {
          at = index_of name.now self.old.files.items;
          pos = 0;
          begun = is_ok result;
          failed = is_err result;
          ended = false;
          calls = counted self.old.calls;
          faults = faults_after self.old.faults result;
        } }
        ensures told { Starts name.now (memory_state self.old) (memory_state self.new) result }
    {
        let fails = count_call(&mut self.calls, &self.fails);
        self.at = find_index(&self.files, name);
        self.pos = 0;
        self.ended = false;
        self.begun = !fails && self.at.is_some();
        self.failed = !self.begun;
        if self.failed {
            self.faults = self.faults.saturating_add(1);
            return Err(ShelfFault);
        }
        Ok(())
    }

    fn take(&mut self, buf: &mut [u8]) -> Result<usize, ShelfFault>
        requires { self.old.pos + length buf.old ≤ 2 ^ 63 - 1 }
        ensures outcome { is_err result ≡ is_failing self.old.fails.items self.new.calls }
        ensures count { IfOk result (λ n. n
            ≡ min (length buf.old)
            (length (bytes_from self.old.files.items self.old.at self.old.pos))) }
        ensures after { self.new ≡ record self.old {
          pos = self.old.pos + put_count result;
          failed = is_err result;
          ended = met_end result (length buf.new);
          calls = counted self.old.calls;
          faults = faults_after self.old.faults result;
        } }
        ensures told { Takes (memory_state self.old) (memory_state self.new) buf.new result }
    {
        self.failed = count_call(&mut self.calls, &self.fails);
        self.ended = false;
        if self.failed {
            self.faults = self.faults.saturating_add(1);
            return Err(ShelfFault);
        }
        let rest = self.rest();
        let count = buf.len().min(rest.len());
        buf[..count].copy_from_slice(&rest[..count]);
        self.ended = count == 0 && !buf.is_empty();
        self.pos += count;
        Ok(count)
    }
}
