//! What a row gives.

use crate::site::Main;
use stream_case::{Name, Stream};

/// What a row gives.
pub enum Entry {
    /// The row is passed over.
    Nothing,
    /// The contribution of each source, in tenths of °C.
    Contribution(i32),
    /// A plant, without streams so far.
    Plant(Name),
    Main(Main),
    /// A stream of the last plant. Its contribution is 0 until that of the file is known.
    Stream(Stream),
}
