//! Why a study file is refused.

use rows::RowFault;

/// Why a row is at fault, or the end of the file.
#[derive(Clone, Copy, Debug, PartialEq, Eq)]
pub enum StudyWhy {
    /// The row has other than four fields, or a field that its kind leaves empty is not empty.
    FieldCount,
    /// The first field is no kind of row.
    UnknownKind,
    /// There would be too many scenarios and spans together.
    TooMany,
    /// A price stands below no scenario.
    NoScenario,
    /// The name of a scenario is malformed.
    BadName,
    /// An earlier scenario has the name.
    SameName,
    /// No utility of the case has the name.
    UnknownName,
    /// The scenario has a price of the utility already.
    Repeated,
    /// A number field is no number text.
    BadNumber,
    /// A number is outside its range.
    OutOfRange,
    /// The first price of a span is above its last one.
    BadRange,
    /// A span has too many prices.
    TooWide,
    /// The file ended without a scenario or a span.
    NoItem,
}

/// Why there is no study: the first row at fault with its cause, or want of memory.
pub type StudyFault = RowFault<StudyWhy>;
