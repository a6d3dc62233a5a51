//! Where files are taken from.
ghost use Rattle.std.specs.Prelude.{◌≡◌, ◌+◌, ◌-◌, ◌^◌, ◌≤◌, ◌↔◌, true, length, IfOk, IsErrOf};
ghost use Rattle.pinch_outside.specs.Shelf.{ShelfState, IsToldTogether, Starts, Takes, KeepsFiles, IsWhole, IsTooLong, HasFailed};

use crate::limits::MAX_FILE;
use std::alloc::Global;

/// A start or a take was refused.
#[derive(Clone, Copy, Debug, PartialEq, Eq)]
pub struct ShelfFault;

/// Files by their names. A start begins a file, and takes give its bytes from the front.
pub trait Shelf {
    /// What it tells.
    ghost state: { Self → ShelfState };

    /// Begins a file. An `Err` comes only where the shelf counted a fault.
    fn start(&mut self, name: &str) -> Result<(), ShelfFault>
        ensures { Starts name.now (state self.old) (state self.new) result };

    /// Puts the next bytes of the file into the front of the buffer, and says how many: none into a buffer with room
    /// at the end of the file. An `Err` comes only where the shelf counted a fault, and then no byte was taken.
    fn take(&mut self, buf: &mut [u8]) -> Result<usize, ShelfFault>
        requires begun { (state self.old).begun ≡ true }
        requires room { (state self.old).taken + length buf.old ≤ 2 ^ 63 - 1 }
        ensures { Takes (state self.old) (state self.new) buf.new result };

    /// Files, bytes to come and the name asked for are told together or not at all.
    ghost told_together: { (shelf : Self) → IsToldTogether (state shelf) };
}

const PIECE: usize = 4096;

/// Why a file was not taken whole.
#[derive(Clone, Copy, Debug, PartialEq, Eq)]
pub enum TakeFault {
    /// A call of the shelf was refused.
    Fault,
    /// The file has more than `MAX_FILE` bytes.
    Long,
    /// There was no memory for its bytes.
    OutOfMemory,
}

impl From<ShelfFault> for TakeFault {
    ghost use Rattle.std.specs.Prelude.{◌≡◌};
    ghost use Rattle.pinch_outside.specs.declared.shelf.TakeFault.TheVariants.{Fault};

    ghost from_gives = { λ _ fault. fault ≡ Fault };

    fn from(_: ShelfFault) -> Self {
        TakeFault::Fault
    }
}

/// Starts a file and takes it to its end. It answers `Long` exactly where one byte above the limit was taken, and
/// `Fault` only where the shelf counted a fault at this file.
pub fn take_all<S: Shelf>(alloc: Global, shelf: &mut S, name: &str) -> Result<Vec<u8>, TakeFault>
    ensures whole { IfOk result
        (λ bytes. IsWhole name.now (S.state shelf.old) (S.state shelf.new) bytes.items) }
    ensures long { (result ≡ Err TakeFault.Long)
        ↔ ((S.state shelf.new).taken ≡ MAX_FILE + 1) }
    ensures long_file { IsErrOf result TakeFault.Long
        → IsTooLong name.now (S.state shelf.old) (S.state shelf.new) }
    ensures failed { (result ≡ Err TakeFault.Fault) ↔ ((S.state shelf.new).failed ≡ true) }
    ensures fault { IsErrOf result TakeFault.Fault
        → HasFailed name.now (S.state shelf.old) (S.state shelf.new) }

    // It never takes more than one byte above the limit.
    ensures most { (S.state shelf.new).taken ≤ MAX_FILE + 1 }
    ensures keeps { KeepsFiles (S.state shelf.old) (S.state shelf.new) }
{
    shelf.start(name)?;
    let mut bytes = Vec::new(alloc);
    let mut piece = [0u8; PIECE];
    loop {
        let ask = PIECE.min(MAX_FILE + 1 - bytes.len());
        let count = take_within_limit(shelf, &mut piece[..ask])?;
        if count == 0 {
            return Ok(bytes);
        }
        if bytes.len() + count > MAX_FILE {
            return Err(TakeFault::Long);
        }
        bytes
            .extend_from_slice(&piece[..count])
            .map_err(|_| TakeFault::OutOfMemory)?;
    }
}

// One turn of `take_all`. What is asked for and what was taken before come to at most one byte above the limit.
fn take_within_limit<S: Shelf>(shelf: &mut S, buf: &mut [u8]) -> Result<usize, ShelfFault>
    requires begun { (S.state shelf.old).begun ≡ true }
    requires within_limit { (S.state shelf.old).taken + length buf.old ≤ MAX_FILE + 1 }
    ensures { Takes (S.state shelf.old) (S.state shelf.new) buf.new result }
{
    shelf.take(buf)
}
