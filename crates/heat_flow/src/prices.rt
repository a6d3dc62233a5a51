//! Prices of parts, and their value.
ghost use Rattle.std.specs.Prelude.{◌≡◌, ℕ, Bool, ◌≤◌, ℤ, pos, ◌≤ℤ◌, ◌*ℤ◌, length, All};
ghost use Rattle.stream_case.specs.declared.limits.TheConstants.{MOST_HEAT, MOST_PARTS};
ghost use Rattle.stream_case.specs.Limits.{IsHeat, IsPrice, IsPartPrice};
ghost use Rattle.grid.specs.Bounds.{IsBounded};
ghost use Rattle.heat_flow.specs.Prices.{least_product, IsLeastProduct, excess_price, side_value, value_of, WeakDuality};
ghost use Rattle.heat_flow.specs.Ranges.{IsWithin, most_excess, most_part_value};

use grid::{Part, Parts};
use stream_case::{Items, Side};

/// A price of one watt at each hot and at each cold part.
#[derive(Debug, PartialEq, Eq, Drop)]
pub struct Prices {
    pub hot: Items<i64>,
    pub cold: Items<i64>,
}

/// What a watt of a part costs beyond its price in the certificate.
fn excess_price(side: Side, price: i64, part_price: i64) -> i64
    requires price { IsPrice price }
    requires part_price { IsPartPrice part_price }
    ensures value { result ≡ excess_price side price part_price }
    ensures range { IsWithin most_excess result }
{
    match side {
        Side::Hot => price - part_price,
        Side::Cold => price + part_price,
    }
}

/// A price times a heat.
pub(crate) fn product(price: i64, heat: i64) -> i128
    requires price { IsWithin most_excess price }
    requires heat { IsHeat heat }
    ensures value { result ≡ price *ℤ heat }
    ensures range { (most : ℤ) → IsWithin most price → IsWithin (most *ℤ MOST_HEAT) result }
{
    i128::from(price) * i128::from(heat)
}

/// The least of `price * heat` for heats from `least` to `most`.
fn least_product(price: i64, least: i64, most: i64) -> i128
    requires price { IsWithin most_excess price }
    requires least { IsHeat least }
    requires most { IsHeat most }
    ensures value { result ≡ least_product price least most }
    ensures range { IsWithin most_part_value result }
{
    product(price, least).min(product(price, most))
}

/// The least product is the product with one heat of the range, and at most that with any other.
pub fn least_product_is_least()
    ensures { (price low high : ℤ) → low ≤ℤ high
        → IsLeastProduct price low high (least_product price low high) }
{}

/// The least that a part can cost at this price.
fn part_value(part: &Part, part_price: i64, side: Side) -> i128
    requires part { IsBounded part.now }
    requires part_price { IsPartPrice part_price }
    ensures value { result
        ≡ least_product (excess_price side part.now.price part_price)
        part.now.least part.now.most }
    ensures range { IsWithin most_part_value result }
{
    least_product(
        excess_price(side, part.price, part_price),
        part.least,
        part.most,
    )
}

/// The sum of the values of the parts of a side.
fn side_value(parts: &[Part], prices: &[i64], side: Side) -> i128
    requires count { length prices.now ≡ length parts.now }
    requires few { length parts.now ≤ MOST_PARTS }
    requires bounded { All IsBounded parts.now }
    requires prices { All IsPartPrice prices.now }
    ensures value { result ≡ side_value side parts.now prices.now }
    ensures range { IsWithin (pos MOST_PARTS *ℤ most_part_value) result }
{
    let mut total = 0i128;
    for (index, part) in parts.iter().enumerate() {
        total += part_value(part, prices[index], side);
    }
    total
}

/// The value of prices of the parts: the sum over the hot parts of the least of (price - y) * s
/// and over the cold parts of the least of (price + z) * d, where y and z are the prices given
/// and s and d lie in the part's range. No heat flow costs less than the value of prices that
/// support it (weak duality of linear programs).
pub fn value_of(parts: &Parts, prices: &Prices) -> i128
    requires hot_count { length prices.now.hot ≡ length parts.now.hot }
    requires cold_count { length prices.now.cold ≡ length parts.now.cold }
    requires hot_range { All IsPartPrice prices.now.hot }
    requires cold_range { All IsPartPrice prices.now.cold }
    ensures value { result
        ≡ value_of parts.now.hot parts.now.cold prices.now.hot prices.now.cold }
    ensures weak_duality { (reach : ℕ → ℕ → Bool)
        → WeakDuality reach parts.now.hot parts.now.cold prices.now.hot prices.now.cold }
{
    side_value(parts.hot.as_slice(), prices.hot.as_slice(), Side::Hot)
        + side_value(parts.cold.as_slice(), prices.cold.as_slice(), Side::Cold)
}
