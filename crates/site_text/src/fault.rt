//! Why a site file is refused.

use rows::RowFault;

/// Why a row is at fault, or the end of the file.
#[derive(Clone, Copy, Debug, PartialEq, Eq)]
pub enum SiteWhy {
    /// The first field is no kind of row.
    UnknownKind,
    /// The row has other than seven fields, or a field that its kind leaves empty is not empty.
    FieldCount,
    /// A number field is no number text.
    BadNumber,
    /// A number is outside its range.
    OutOfRange,
    /// A name is malformed, or that of a utility of the site.
    BadName,
    /// A plant, a main or a stream has the name of an earlier one of its kind.
    SameName,
    /// A hot supply is not above its target, or a cold supply not below it.
    WrongWay,
    /// An earlier row gave a contribution.
    Repeated,
    /// The row would pass a limit of counts.
    TooMany,
    /// A stream stands below no plant.
    NoPlant,
    /// The file ended without a contribution row.
    NoContribution,
    /// The file ended without a main.
    NoMain,
    /// The file ended without a stream.
    NoStream,
}

/// Why there is no site: the first row at fault with its cause, or want of memory.
pub type SiteFault = RowFault<SiteWhy>;
