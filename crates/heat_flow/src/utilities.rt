//! What the utilities give and take.
ghost use Rattle.std.specs.Prelude.{◌≡◌};
ghost use Rattle.heat_flow.specs.Certificate.{is_of_utility, heat_of_utility, utility_heat};

use crate::flow::Transfer;
use grid::Part;
use stream_case::{Side, Source};

fn is_of_utility(index: usize, parts: &[Part], part: u32) -> bool
    ensures { result ≡ is_of_utility index parts.now part }
{
    match parts.get(part as usize) {
        Some(part) => match part.source {
            Source::Utility(utility) => utility as usize == index,
            Source::Stream(_) => false,
        },
        None => false,
    }
}

/// The heat of a transfer, if its part of this side is that of the utility.
fn heat_of_utility(index: usize, side: Side, parts: &[Part], transfer: &Transfer) -> i64
    ensures { result ≡ heat_of_utility index side parts.now transfer.now }
{
    if is_of_utility(index, parts, transfer.part_index(side)) {
        transfer.heat
    } else {
        0
    }
}

/// What a utility gives or takes in all, in W.
pub fn utility_heat(index: usize, side: Side, parts: &[Part], transfers: &[Transfer]) -> i128
    ensures { result ≡ utility_heat index side parts.now transfers.now }
{
    let mut total: i128 = 0;
    for transfer in transfers {
        total += i128::from(heat_of_utility(index, side, parts, transfer));
    }
    total
}
