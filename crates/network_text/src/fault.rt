//! Why the text of a network is refused.

use std::alloc::AllocError;
use thiserror::Error;

/// Why a statement is at fault, or the end of the text.
#[derive(Clone, Copy, Debug, PartialEq, Eq)]
pub enum NetWhy {
    /// The first field is no word of a statement.
    UnknownWord,
    /// The statement has too many or too few fields.
    FieldCount,
    /// A duty or a size is no fraction.
    BadNumber,
    /// The case has no source of this name, or no earlier statement declares this exchanger.
    UnknownName,
    /// The hot source of an exchanger is cold, or the cold one hot.
    WrongSide,
    /// An earlier exchanger, or an earlier branch, has the name, or the first new branch of this
    /// split.
    SameName,
    /// No earlier statement made this branch.
    UnknownBranch,
    /// An earlier statement used this branch, or it is the first one of this mix.
    SpentBranch,
    /// The exchanger has no side of the branch's stream, or that side was passed already.
    WrongPass,
    /// A side of this exchanger that is a stream is passed by no branch.
    MissingPass,
    /// The statement would pass a limit of counts.
    TooMany,
    /// A duty or a size is not above 0.
    NotPositive,
    /// Two branches of different streams are mixed.
    OtherStream,
    /// The name of a new exchanger or branch is malformed.
    BadName,
}

/// Why there is no network.
#[derive(Debug, PartialEq, Eq, Drop, Error)]
pub enum NetFault {
    /// The first statement at fault, counted from 1, and the first of its checks that fails. For a
    /// pass that is missing at the end, it is the statement of the exchanger.
    #[error("statement {line}: {why:?}")]
    At { line: u32, why: NetWhy },
    /// There was not memory enough.
    #[error("out of memory")]
    OutOfMemory,
}

impl From<AllocError> for NetFault {
    ghost use Rattle.std.specs.Prelude.{◌≡◌};
    ghost use Rattle.network_text.specs.declared.fault.NetFault.TheVariants.{OutOfMemory};

    ghost from_gives = { λ _ fault. fault ≡ OutOfMemory };

    fn from(refused: AllocError) -> NetFault {
        NetFault::OutOfMemory
    }
}
