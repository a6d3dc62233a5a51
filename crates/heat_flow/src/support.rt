//! Whether prices support the heat flows over parts that reach each other.
ghost use Rattle.std.specs.Prelude.{◌↔◌, ℕ, ◌<◌, ◌≤◌, ◌≤ℤ◌, IsTrue, length};
ghost use Rattle.stream_case.specs.declared.limits.TheConstants.{MOST_PARTS};
ghost use Rattle.heat_flow.specs.Checks.{IsSupported, ReachesAmong};
ghost use Rattle.heat_flow.specs.Prices.{IsSupporting, price_at};

use crate::prices::Prices;
use crate::reach::{Reach, Reaches};

/// Whether none of the cold parts with these prices that the hot part reaches has a price above
/// this one.
fn is_row_supported<R: Reaches>(reach: &R, hot: u32, price: i64, cold_prices: &[i64]) -> bool
    requires sound { R.is_sound reach.now }
    requires few { length cold_prices.now ≤ MOST_PARTS }
    ensures { IsTrue result ↔ ((cold : ℕ) → cold < length cold_prices.now
        → IsTrue (R.reach reach.now hot cold) → price_at cold_prices.now cold ≤ℤ price) }
{
    for (cold, cold_price) in cold_prices.iter().enumerate() {
        if *cold_price > price && reach.reaches(hot, cold as u32) {
            return false;
        }
    }
    true
}

/// Whether prices, one for each part that may reach another, support the heat flows: where a hot
/// part reaches a cold part, the cold part's price is at most the hot part's.
pub fn are_supporting<R: Reaches>(reach: &R, hot_prices: &[i64], cold_prices: &[i64]) -> bool
    requires sound { R.is_sound reach.now }
    requires parts { ReachesAmong (R.reach reach.now)
        (length hot_prices.now) (length cold_prices.now) }
    ensures { IsTrue result ↔ IsSupporting (R.reach reach.now) hot_prices.now cold_prices.now }
{
    for (hot, price) in hot_prices.iter().enumerate() {
        if !is_row_supported(reach, hot as u32, *price, cold_prices) {
            return false;
        }
    }
    true
}

/// Whether prices support the heat flows over this table: there is one price for each part, and
/// where a hot part reaches a cold part, the cold part's price is at most the hot part's.
pub fn is_supported(reach: &Reach, prices: &Prices) -> bool
    ensures { IsTrue result ↔ IsSupported reach.now prices.now.hot prices.now.cold }
{
    let hot_prices = prices.hot.as_slice();
    let cold_prices = prices.cold.as_slice();
    if hot_prices.len() != reach.hots as usize || cold_prices.len() != reach.colds as usize {
        return false;
    }
    are_supporting(reach, hot_prices, cold_prices)
}
