//! What a report says that the utilities give and take.

ghost use Rattle.std.specs.Prelude.{◌≡◌, ◌↔◌, IsTrue};
ghost use Rattle.certify.specs.Answers.{AreUsesOf, use_of};

use crate::report::Used;
use grid::Parts;
use heat_flow::{Transfer, parts_of, utility_heat};
use stream_case::{Case, Utility};

/// Whether a use says what this utility gives or takes in all.
fn is_use_of(
    parts: &Parts,
    transfers: &[Transfer],
    index: usize,
    utility: &Utility,
    used: &Used,
) -> bool
    ensures { IsTrue result ↔ (used.now ≡
        use_of parts.now.hot parts.now.cold transfers.now index utility.now) }
{
    let side = utility.side;
    let heat = utility_heat(index, side, parts_of(side, parts), transfers);
    used.name == utility.name && i128::from(used.heat) == heat
}

/// Whether uses are those of the utilities of a case in their order.
pub fn are_uses_of(case: &Case, parts: &Parts, transfers: &[Transfer], uses: &[Used]) -> bool
    ensures { IsTrue result ↔
        AreUsesOf case.now parts.now.hot parts.now.cold transfers.now uses.now }
{
    if uses.len() != case.utilities.len() {
        return false;
    }
    for (index, utility) in case.utilities.as_slice().iter().enumerate() {
        if !is_use_of(parts, transfers, index, utility, &uses[index]) {
            return false;
        }
    }
    true
}
