//! The prices of the corner flow.
ghost use Rattle.std.specs.Prelude.{◌≡◌, ◌↔◌, map, All, IfOk, IsTrue};
ghost use Rattle.stream_case.specs.Case.{IsComplete, IsStandard};
ghost use Rattle.stream_case.specs.Limits.{IsPartPrice};
ghost use Rattle.stream_case.specs.Stream.{IsValidStream};
ghost use Rattle.problem_table.specs.Deficit.{hot_target, cold_target, IsReferencePlace, CountsFromItself};
ghost use Rattle.grid.specs.Part.{stands_above, AreCaseParts};
ghost use Rattle.heat_flow.specs.Prices.{IsSupporting, value_of};
ghost use Rattle.heat_flow.specs.Reach.{reach_between};
ghost use Rattle.corner_flow.specs.Corner.{counts_low, corner_price};

use grid::{Part, Parts};
use heat_flow::Prices;
use problem_table::Target;
use std::alloc::{AllocError, Global};
use stream_case::{Case, Items, Stream, counts_above, has_level_at};

/// Whether parts stand above the reference place with their low, as they do where it counts from
/// itself and where no latent stream stands at it; else they do with their high.
fn counts_low(streams: &[Stream], from_itself: bool, place: i32) -> bool
    requires { All IsValidStream streams.now }
    ensures { result ≡ counts_low streams.now from_itself place }
{
    from_itself || !has_level_at(streams, place)
}

/// Whether a part stands above a place, with its low or with its high.
fn stands_above(part: &Part, low: bool, place: i32) -> bool
    ensures { result ≡ stands_above low place part.now }
{
    counts_above(low, place, if low { part.low } else { part.high })
}

/// The price of a part: 1 where it stands above the reference place and some heat is needed.
fn corner_price(part: &Part, target: i64, low: bool, place: i32) -> i64
    ensures { result ≡ corner_price target low place part.now }
{
    if target == 0 {
        return 0;
    }
    if stands_above(part, low, place) { 1 } else { 0 }
}

fn side_prices(
    alloc: Global,
    parts: &[Part],
    target: i64,
    low: bool,
    place: i32,
) -> Result<Vec<i64>, AllocError>
    ensures { IfOk result
        (λ prices. prices.items ≡ map (corner_price target low place) parts.now) }
{
    parts
        .iter()
        .map(|part| corner_price(part, target, low, place))
        .collect(alloc)
}

/// The prices of the corner flow: where the hot target is 0 all are 0; else a part has the price
/// 1 where it stands above the reference place, and 0 elsewhere. Where the place counts above
/// itself and a latent stream stands at it, a part stands above it with its high above the place;
/// in all other cases with its low at least at the place. The prices support every heat flow of
/// the case's parts, and their value is the hot target, the cost of the corner flow: so they
/// certify it.
pub fn corner_prices(
    alloc: Global,
    case: &Case,
    parts: &Parts,
    place: i32,
    from_itself: bool,
    targets: Target,
) -> Result<Prices, AllocError>
    requires complete { IsComplete case.now }
    requires standard { IsStandard case.now }
    requires parts { AreCaseParts case.now parts.now.hot parts.now.cold }
    requires place { IsReferencePlace case.now.streams place }
    requires from_itself { IsTrue from_itself ↔ CountsFromItself case.now.streams place }
    requires hot_target { targets.hot ≡ hot_target case.now.streams }
    requires cold_target { targets.cold ≡ cold_target case.now.streams }
    ensures hot { let low = counts_low case.now.streams from_itself place in
        IfOk result (λ made. made.hot ≡ map (corner_price targets.hot low place) parts.now.hot) }
    ensures cold { let low = counts_low case.now.streams from_itself place in
        IfOk result
        (λ made. made.cold ≡ map (corner_price targets.hot low place) parts.now.cold) }
    ensures hot_range { IfOk result (λ prices. All IsPartPrice prices.hot) }
    ensures cold_range { IfOk result (λ prices. All IsPartPrice prices.cold) }
    ensures supporting { IfOk result (λ prices.
        IsSupporting (reach_between case.now parts.now.hot parts.now.cold) prices.hot prices.cold) }
    ensures value { IfOk result (λ prices.
        value_of parts.now.hot parts.now.cold prices.hot prices.cold ≡ targets.hot) }
{
    let low = counts_low(case.streams.as_slice(), from_itself, place);
    let hot = side_prices(alloc, parts.hot.as_slice(), targets.hot, low, place)?;
    let cold = side_prices(alloc, parts.cold.as_slice(), targets.hot, low, place)?;
    Ok(Prices {
        hot: Items::from_vec(hot),
        cold: Items::from_vec(cold),
    })
}
