//! Why a case file is refused.

use rows::RowFault;

/// Why a row is at fault, or the end of the file.
#[derive(Clone, Copy, Debug, PartialEq, Eq)]
pub enum CaseWhy {
    /// The first field is no kind of row.
    UnknownKind,
    /// The row has other than seven fields, or a field that its kind leaves empty is not empty.
    FieldCount,
    /// A number field is no number text.
    BadNumber,
    /// A number is outside its range.
    OutOfRange,
    /// A name is malformed or reserved.
    BadName,
    /// A stream or utility has the name of an earlier one.
    SameName,
    /// A hot supply is below its target, or a cold supply above it.
    WrongWay,
    /// An earlier row gave a contribution, or forbade this match.
    Repeated,
    /// The row would pass a limit of counts.
    TooMany,
    /// A forbidden match names no earlier source of that side.
    UnknownName,
    /// The file ended without a contribution row.
    NoContribution,
    /// The file ended without a stream.
    NoStream,
    /// The least heat of a utility is above its most.
    BadRange,
    /// A stream whose supply equals its target gives no load.
    NoLoad,
    /// A stream that gives a load has a target other than its supply, or a heat-capacity flow.
    NotLatent,
}

/// Why there is no case: the first row at fault with its cause, or want of memory.
pub type CaseFault = RowFault<CaseWhy>;
