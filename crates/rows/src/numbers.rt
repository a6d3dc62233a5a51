//! Number texts, and numbers within their limits.

ghost use Rattle.std.specs.Prelude.{◌≡◌, [], ◌∷◌};
ghost use Rattle.first_fault.specs.Checks.{Checked};
ghost use Rattle.rows.specs.Numbers.{is_contribution, is_flow_rate, is_flow_rate_beside, is_heat, is_load, is_own_contribution, is_own_load, is_price, is_temperature, is_within, number_in};

use stream_case::{
    HIGHEST_TEMPERATURE, LOWEST_TEMPERATURE, MOST_CONTRIBUTION, MOST_CP, MOST_HEAT, MOST_LOAD,
    MOST_PRICE, integer_of,
};

/// The most digits of a number text.
const MOST_DIGITS: usize = 13;

/// The number that a field spells, if it is a number text: an optional `-` and then 1 to 13
/// ASCII digits (this project's rule).
pub fn number_of(field: &[u8]) -> Option<i64>
    ensures { result ≡ number_in field.now }
{
    integer_of(field, MOST_DIGITS).map(|number| number as i64)
}

/// A number, if it lies from `low` to `high`.
#[tactic(auto, unfolding(crate::specs::Numbers::is_within))]
fn within<Cause: Drop>(low: i64, high: i64, n: i64, outside: Cause) -> Result<i64, Cause>
    ensures { Checked ((is_within low high n, outside) ∷ []) (λ m. m ≡ n) result }
{
    if low <= n && n <= high {
        Ok(n)
    } else {
        Err(outside)
    }
}

/// A number that is a temperature, in tenths of °C, or the cause for one outside the limits.
#[tactic(auto, unfolding(crate::specs::Numbers::is_within))]
pub fn temperature<Cause: Drop>(n: i64, outside: Cause) -> Result<i32, Cause>
    ensures { Checked ((is_temperature n, outside) ∷ []) (λ t. t ≡ n) result }
{
    let low = LOWEST_TEMPERATURE.into();
    Ok(within(low, HIGHEST_TEMPERATURE.into(), n, outside)? as i32)
}

/// A number that is a contribution, in tenths of °C, or the cause for one outside the limits.
#[tactic(auto, unfolding(crate::specs::Numbers::is_within))]
pub fn contribution<Cause: Drop>(n: i64, outside: Cause) -> Result<i32, Cause>
    ensures { Checked ((is_contribution n, outside) ∷ []) (λ c. c ≡ n) result }
{
    Ok(within(0, MOST_CONTRIBUTION.into(), n, outside)? as i32)
}

/// The contribution that a source gives, in tenths of °C, or the cause for one outside the limits;
/// it may give none.
#[tactic(auto, unfolding(crate::specs::Numbers::is_own_contribution))]
pub fn own_contribution<Cause: Drop>(n: Option<i64>, outside: Cause) -> Result<Option<i32>, Cause>
    ensures { Checked ((is_own_contribution n, outside) ∷ []) (λ c. c ≡ n) result }
{
    let Some(n) = n else {
        return Ok(None);
    };
    Ok(Some(contribution(n, outside)?))
}

/// A number that is a heat-capacity flow, in 10 W/K, or the cause for one outside the limits.
pub fn flow_rate<Cause: Drop>(n: i64, outside: Cause) -> Result<i64, Cause>
    ensures { Checked ((is_flow_rate n, outside) ∷ []) (λ cp. cp ≡ n) result }
{
    within(1, MOST_CP, n, outside)
}

/// The heat-capacity flow of a stream that may give a load, in 10 W/K, or the cause for one outside
/// the limits: it may be 0 where there is a load.
pub fn flow_rate_beside<Cause: Drop>(
    load: Option<i64>,
    n: i64,
    outside: Cause,
) -> Result<i64, Cause>
    ensures { Checked ((is_flow_rate_beside load n, outside) ∷ []) (λ cp. cp ≡ n) result }
{
    let least = match load {
        None => 1,
        Some(_) => 0,
    };
    within(least, MOST_CP, n, outside)
}

/// A number that is the load of a latent stream, in W, or the cause for one outside the limits.
pub(crate) fn load<Cause: Drop>(n: i64, outside: Cause) -> Result<i64, Cause>
    ensures { Checked ((is_load n, outside) ∷ []) (λ load. load ≡ n) result }
{
    within(1, MOST_LOAD, n, outside)
}

/// The load that a stream gives, in W, or the cause for one outside the limits; it may give none.
#[tactic(auto, unfolding(crate::specs::Numbers::is_own_load))]
pub fn own_load<Cause: Drop>(n: Option<i64>, outside: Cause) -> Result<Option<i64>, Cause>
    ensures { Checked ((is_own_load n, outside) ∷ []) (λ load. load ≡ n) result }
{
    let Some(n) = n else {
        return Ok(None);
    };
    Ok(Some(load(n, outside)?))
}

/// A number that is a heat, in W, or the cause for one outside the limits.
pub fn heat<Cause: Drop>(n: i64, outside: Cause) -> Result<i64, Cause>
    ensures { Checked ((is_heat n, outside) ∷ []) (λ heat. heat ≡ n) result }
{
    within(0, MOST_HEAT, n, outside)
}

/// A number that is a price of one W, or the cause for one outside the limits.
pub fn price<Cause: Drop>(n: i64, outside: Cause) -> Result<i64, Cause>
    ensures { Checked ((is_price n, outside) ∷ []) (λ price. price ≡ n) result }
{
    within(-MOST_PRICE, MOST_PRICE, n, outside)
}
