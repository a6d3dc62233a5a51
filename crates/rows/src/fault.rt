//! Why a file of rows is refused.

use std::alloc::AllocError;
use std::fmt::Debug;
use thiserror::Error;

/// Why a file of rows gives nothing, where `Why` has the causes of its grammar.
#[derive(Debug, PartialEq, Eq, Drop, Error)]
#[error_bound(Why: Debug)]
pub enum RowFault<Why> {
    /// The first row at fault, counted from 1, and the first of its checks that fails. For what
    /// the end of the file lacks, the row is the number of rows plus 1.
    #[error("row {row}: {why:?}")]
    Row { row: u32, why: Why },
    #[error("out of memory")]
    OutOfMemory,
}

impl<Why> From<AllocError> for RowFault<Why> {
    ghost use Rattle.std.specs.Prelude.{◌≡◌};
    ghost use Rattle.rows.specs.declared.fault.RowFault.TheVariants.{OutOfMemory};

    ghost from_gives = { λ _ fault. fault ≡ OutOfMemory };

    fn from(refused: AllocError) -> RowFault<Why> {
        RowFault::OutOfMemory
    }
}
