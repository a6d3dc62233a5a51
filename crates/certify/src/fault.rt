//! Why the text of a report is refused.

use std::alloc::AllocError;
use thiserror::Error;

/// Why a statement is at fault, or the end of the text.
#[derive(Clone, Copy, Debug, PartialEq, Eq)]
pub enum ReportWhy {
    /// The first field is no word of a statement.
    UnknownWord,
    /// The statement has too many or too few fields.
    FieldCount,
    /// The statement may not stand behind those before it.
    OutOfOrder,
    /// A cut is neither of demand nor of supply.
    BadKind,
    /// The name of a source is malformed.
    BadName,
    /// A field is no number text.
    BadNumber,
    /// A number is outside its range.
    OutOfRange,
    /// The text ended without a cost and without a cut.
    Ended,
}

/// Why there is no report.
#[derive(Debug, PartialEq, Eq, Drop, Error)]
pub enum ReportFault {
    /// The first statement at fault, counted from 1, and the first of its checks that fails. For
    /// what the end of the text lacks, it is the number of statements plus 1.
    #[error("statement {line}: {why:?}")]
    At { line: u32, why: ReportWhy },
    /// There was not memory enough.
    #[error("out of memory")]
    OutOfMemory,
}

impl From<AllocError> for ReportFault {
    ghost use Rattle.std.specs.Prelude.{◌≡◌};
    ghost use Rattle.certify.specs.declared.fault.ReportFault.TheVariants.{OutOfMemory};

    ghost from_gives = { λ _ fault. fault ≡ OutOfMemory };

    fn from(refused: AllocError) -> ReportFault {
        ReportFault::OutOfMemory
    }
}
