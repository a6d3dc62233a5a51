//! The cost of a heat flow.
ghost use Rattle.std.specs.Prelude.{◌≡◌, ℕ, Bool, pos, ◌*ℤ◌, List, length, All};
ghost use Rattle.stream_case.specs.declared.limits.TheConstants.{MOST_HEAT, MOST_PRICE};
ghost use Rattle.stream_case.specs.Limits.{IsHeat};
ghost use Rattle.grid.specs.declared.part.Part.{Part};
ghost use Rattle.grid.specs.Bounds.{IsBounded};
ghost use Rattle.heat_flow.specs.Checks.{HasCost};
ghost use Rattle.heat_flow.specs.Flow.{HaveParts, side_cost, cost_of, OneLeastCost};
ghost use Rattle.heat_flow.specs.Ranges.{IsWithin};

use crate::flow::{Flow, Transfer};
use crate::prices::product;
use grid::{Part, Parts};
use stream_case::Side;

/// The sum over the parts of a side of price times heat, formed transfer by transfer.
fn side_cost(parts: &[Part], transfers: &[Transfer], side: Side) -> i128
    requires bounded { All IsBounded parts.now }
    requires indexes { HaveParts side parts.now transfers.now }
    requires heats { All (λ t. IsHeat t.heat) transfers.now }
    ensures value { result ≡ side_cost side parts.now transfers.now }
    ensures range { IsWithin (pos (length transfers.now) *ℤ (MOST_PRICE *ℤ MOST_HEAT)) result }
{
    let mut total = 0i128;
    for transfer in transfers {
        let part = &parts[transfer.part_index(side) as usize];
        total += product(part.price, transfer.heat);
    }
    total
}

/// The cost of a heat flow: the sum over the parts of price times heat. A transfer between two
/// utilities counts in both.
pub fn cost_of(parts: &Parts, flow: &Flow) -> i128
    requires { HasCost parts.now.hot parts.now.cold flow.now.transfers }
    ensures { result ≡ cost_of parts.now.hot parts.now.cold flow.now.transfers }
{
    let transfers = flow.transfers.as_slice();
    side_cost(parts.hot.as_slice(), transfers, Side::Hot)
        + side_cost(parts.cold.as_slice(), transfers, Side::Cold)
}

/// Two least costs of the heat flows between the same parts are one number.
pub fn least_cost_is_one()
    ensures { (reach : ℕ → ℕ → Bool) (hot cold : List Part)
        → OneLeastCost reach hot cold }
{}
