//! The text of a heat flow with its prices.
ghost use Rattle.std.specs.Prelude.{◌≡◌, IfOk, string_bytes};
ghost use Rattle.std.specs.List.{flat_map};
ghost use Rattle.reports.specs.Lines.{line, texts_from};
ghost use Rattle.reports.specs.Flow.{part_text, part_at, side_prices, use_line, move_line, price_word, price_line, price_lines, certificate_lines, flow_text};

use crate::line::{line, number_at};
use crate::names::{SourceNames, case_names};
use grid::{Part, Parts};
use heat_flow::{Prices, Transfer, parts_of, utility_heat};
use std::alloc::{AllocError, Global};
use stream_case::{Case, Side, Utility};

/// The cost, the use of each utility, the transfers and the prices, a line each.
pub fn flow_text(
    alloc: Global,
    case: &Case,
    parts: &Parts,
    transfers: &[Transfer],
    prices: &Prices,
    cost: i128,
) -> Result<Vec<u8>, AllocError>
    ensures { IfOk result (λ text. text.items
        ≡ flow_text case.now parts.now transfers.now prices.now cost) }
{
    let names = case_names(alloc, case)?;
    let mut text = line(alloc, "cost", cost)?;
    text.push_str(&use_lines(alloc, case, parts, transfers)?)?;
    text.push_str(&certificate_lines(alloc, &names, parts, transfers, prices)?)?;
    Ok(text.into_bytes())
}

fn use_lines(
    alloc: Global,
    case: &Case,
    parts: &Parts,
    transfers: &[Transfer],
) -> Result<String, AllocError>
    ensures { IfOk result (λ text. string_bytes text
        ≡ texts_from (use_line parts.now transfers.now) 0 case.now.utilities) }
{
    let mut text = String::new(alloc);
    for (index, utility) in case.utilities.as_slice().iter().enumerate() {
        text.push_str(&use_line(alloc, parts, transfers, index, utility)?)?;
    }
    Ok(text)
}

fn use_line(
    alloc: Global,
    parts: &Parts,
    transfers: &[Transfer],
    index: usize,
    utility: &Utility,
) -> Result<String, AllocError>
    ensures { IfOk result (λ text. string_bytes text
        ≡ use_line parts.now transfers.now index utility.now) }
{
    let side = utility.side;
    let heat = utility_heat(index, side, parts_of(side, parts), transfers);
    let word = format!(in alloc; "use {}", utility.name)?;
    line(alloc, &word, heat)
}

/// The transfers and the prices of the parts, a line each.
pub fn certificate_lines(
    alloc: Global,
    names: &SourceNames,
    parts: &Parts,
    transfers: &[Transfer],
    prices: &Prices,
) -> Result<String, AllocError>
    ensures { IfOk result (λ text. string_bytes text
        ≡ certificate_lines names.now parts.now transfers.now prices.now) }
{
    let mut text = move_lines(alloc, names, parts, transfers)?;
    text.push_str(&price_lines(alloc, names, Side::Hot, parts, prices)?)?;
    text.push_str(&price_lines(alloc, names, Side::Cold, parts, prices)?)?;
    Ok(text)
}

fn move_lines(
    alloc: Global,
    names: &SourceNames,
    parts: &Parts,
    transfers: &[Transfer],
) -> Result<String, AllocError>
    ensures { IfOk result (λ text. string_bytes text
        ≡ flat_map (move_line names.now parts.now) transfers.now) }
{
    let mut text = String::new(alloc);
    for transfer in transfers {
        text.push_str(&move_line(alloc, names, parts, transfer)?)?;
    }
    Ok(text)
}

fn move_line(
    alloc: Global,
    names: &SourceNames,
    parts: &Parts,
    transfer: &Transfer,
) -> Result<String, AllocError>
    ensures { IfOk result
        (λ text. string_bytes text ≡ move_line names.now parts.now transfer.now) }
{
    let hot = part_at(alloc, names, parts.hot.as_slice(), transfer.hot)?;
    let cold = part_at(alloc, names, parts.cold.as_slice(), transfer.cold)?;
    let word = format!(in alloc; "move {hot} {cold}")?;
    line(alloc, &word, i128::from(transfer.heat))
}

fn price_lines(
    alloc: Global,
    names: &SourceNames,
    side: Side,
    parts: &Parts,
    prices: &Prices,
) -> Result<String, AllocError>
    ensures { IfOk result
        (λ text. string_bytes text ≡ price_lines names.now side parts.now prices.now) }
{
    let prices = side_prices(side, prices);
    let mut text = String::new(alloc);
    for (index, part) in parts_of(side, parts).iter().enumerate() {
        text.push_str(&price_line(alloc, names, side, number_at(prices, index), part)?)?;
    }
    Ok(text)
}

fn side_prices(side: Side, prices: &Prices) -> &[i64]
    ensures { result.now ≡ side_prices side prices.now }
{
    match side {
        Side::Hot => prices.hot.as_slice(),
        Side::Cold => prices.cold.as_slice(),
    }
}

fn price_line(
    alloc: Global,
    names: &SourceNames,
    side: Side,
    price: i64,
    part: &Part,
) -> Result<String, AllocError>
    ensures { IfOk result
        (λ text. string_bytes text ≡ price_line names.now side price part.now) }
{
    let word = format!(in alloc; "{} {}", price_word(side), part_text(alloc, names, part)?)?;
    line(alloc, &word, i128::from(price))
}

/// What a part of this side does with its heat.
fn price_word(side: Side) -> &'static str
    ensures { result.now ≡ price_word side }
{
    match side {
        Side::Hot => "give",
        Side::Cold => "take",
    }
}

/// The text of the part at an index; nothing past the end.
pub fn part_at(
    alloc: Global,
    names: &SourceNames,
    parts: &[Part],
    index: u32,
) -> Result<String, AllocError>
    ensures { IfOk result (λ text. string_bytes text ≡ part_at names.now parts.now index) }
{
    match parts.get(index as usize) {
        Some(part) => part_text(alloc, names, part),
        None => Ok(String::new(alloc)),
    }
}

/// The name of the part's source, its high and its low.
fn part_text(alloc: Global, names: &SourceNames, part: &Part) -> Result<String, AllocError>
    ensures { IfOk result (λ text. string_bytes text ≡ part_text names.now part.now) }
{
    format!(in alloc;
        "{} {} {}",
        names.source_name(part.source),
        part.high,
        part.low
    )
}
