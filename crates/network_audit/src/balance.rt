//! The balance of a network from the heats of its utilities, step by step.
ghost use Rattle.std.specs.Prelude.{◌≡◌, ◌+◌, ◌*◌, ◌<◌, ◌≤◌, ◌^◌, length};
ghost use Rattle.fractions.specs.Rationals.{minus, rational_sum, rational_zero, whole};
ghost use Rattle.problem_table.specs.Deficit.{hot_target};
ghost use Rattle.stream_case.specs.Stream.{AreStreams};
ghost use Rattle.network_audit.specs.AllItems.{cost_steps, sum_steps};
ghost use Rattle.network_audit.specs.Answers.{Formed};
ghost use Rattle.network_audit.specs.Table.{balance_in, balance_steps_in, heats_on_in, prices_in};

use crate::sum::Sum;
use crate::verdict::Balance;
use fractions::Frac;
use problem_table::{Target, targets};
use stream_case::{Case, Side, Utility};

/// The heats in W of the utilities on a side, added up, where so many steps were taken before; or
/// the number of the step that is too fine.
fn heat_on(side: Side, utilities: &[Utility], heats: &[Frac], before: u32) -> Result<Sum, u32>
    requires room { length heats.now ≡ length utilities.now }
    requires few { before + length utilities.now < 2 ^ 32 }
    ensures { Formed
        (λ at. sum_steps at before rational_zero (heats_on_in side utilities.now heats.now))
        (λ sum. sum ≡ record {
          total = rational_sum (heats_on_in side utilities.now heats.now);
          steps = before + length (heats_on_in side utilities.now heats.now);
        })
        result }
{
    let mut sum = Sum::after(before);
    for (index, utility) in utilities.iter().enumerate() {
        if utility.is_on(side) {
            sum = sum.plus(&heats[index])?;
        }
    }
    Ok(sum)
}

/// The price of one watt of a utility.
fn price(utility: &Utility) -> Frac
    ensures { result ≡ whole utility.now.price }
{
    Frac::whole(utility.price)
}

/// Each utility's price times its heat, added up, where so many steps were taken before; or the
/// number of the step that is too fine.
fn cost_of(utilities: &[Utility], heats: &[Frac], before: u32) -> Result<Frac, u32>
    requires room { length heats.now ≡ length utilities.now }
    requires few { before + 2 * length utilities.now < 2 ^ 32 }
    ensures { Formed
        (λ at. cost_steps at before rational_zero (prices_in utilities.now heats.now))
        (λ cost. cost ≡ rational_sum (prices_in utilities.now heats.now))
        result }
{
    let mut cost = Sum::after(before);
    for (index, utility) in utilities.iter().enumerate() {
        let steps = cost.steps + 1;
        let Some(price) = price(utility).times(&heats[index]) else {
            return Err(steps);
        };
        cost = Sum {
            total: cost.total,
            steps,
        }
        .plus(&price)?;
    }
    Ok(cost.total)
}

/// The hot target of the streams of a case, in W.
pub(crate) fn hot_target(case: &Case) -> Frac
    requires { AreStreams case.now.streams }
    ensures { result ≡ whole (hot_target case.now.streams) }
{
    hot_of(&targets(case))
}

/// The hot target of two, in W.
fn hot_of(target: &Target) -> Frac
    ensures { result ≡ whole target.now.hot }
{
    Frac::whole(target.hot)
}

/// The balance of a network whose utilities have these heats, where the hot target is this, all
/// in W; or the number of the step that is too fine.
pub(crate) fn balance_of(
    target: &Frac,
    utilities: &[Utility],
    heats: &[Frac],
) -> Result<Balance, u32>
    requires room { length heats.now ≡ length utilities.now }
    requires few { length utilities.now ≤ 1000 }
    ensures { Formed
        (λ at. balance_steps_in at target.now utilities.now heats.now)
        (λ balance. balance ≡ balance_in target.now utilities.now heats.now)
        result }
{
    let hot = heat_on(Side::Hot, utilities, heats, 0)?;
    let cold = heat_on(Side::Cold, utilities, heats, hot.steps)?;
    let steps = cold.steps + 1;
    let Some(excess) = hot.total.minus(target) else {
        return Err(steps);
    };
    let cost = cost_of(utilities, heats, steps)?;
    Ok(Balance {
        hot: hot.total,
        cold: cold.total,
        excess,
        cost,
    })
}
