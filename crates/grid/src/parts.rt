//! The parts of both sides.
ghost use Rattle.std.specs.Prelude.{◌≤◌, length, All};
ghost use Rattle.stream_case.specs.declared.limits.TheConstants.{MOST_PARTS};
ghost use Rattle.grid.specs.Bounds.{IsBounded};

use crate::part::Part;
use stream_case::Items;

/// The hot and the cold parts. Each list goes by falling high, then by falling low, then streams
/// before utilities in their order. It has at most `MOST_PARTS` parts; each has a least from 0 to
/// its most, a most of at most `MOST_HEAT` W and a price a watt of at most `MOST_PRICE` above or
/// below 0, which is 0 for a stream.
#[derive(Debug, Drop)]
pub struct Parts {
    pub hot: Items<Part>,
    pub cold: Items<Part>,
    ghost few_hot: { length hot ≤ MOST_PARTS },
    ghost few_cold: { length cold ≤ MOST_PARTS },
    ghost hot_bounded: { All IsBounded hot },
    ghost cold_bounded: { All IsBounded cold },
}
