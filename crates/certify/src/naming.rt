//! The parts that a report names.

ghost use Rattle.std.specs.Prelude.{◌≡◌, ◌↔◌, ◌<◌, ◌≤◌, IsTrue, All, IfOk, IfSome, OnErr, is_some, length};
ghost use Rattle.std.specs.List.{filter_map};
ghost use Rattle.stream_case.specs.Case.{IsSourceOf};
ghost use Rattle.certify.specs.Answers.{ArePricesOf, index_of, span_of, transfer_by, transfer_of, transfers_of};
ghost use Rattle.certify.specs.Table.{index_in};
ghost use Rattle.stream_case.specs.declared.limits.TheConstants.{MOST_PARTS};

use crate::part_table::{PartTable, index_in, table_of};
use crate::report::{Moved, Priced, Span};
use grid::{Part, Parts};
use heat_flow::{Flow, Transfer};
use std::alloc::{AllocError, Global};
use stream_case::{Case, Items};

/// Whether a report names this part and no other.
fn names(case: &Case, span: &Span, part: &Part) -> bool
    requires { IsSourceOf case.now part.now.source }
    ensures { IsTrue result ↔ (span.now ≡ span_of case.now part.now) }
{
    span.high == part.high && span.low == part.low && span.name == case.name_of(part.source)
}

/// Whether prices are those of these parts, in their order.
pub fn are_prices_of(case: &Case, parts: &[Part], prices: &[Priced]) -> bool
    requires { All (λ p. IsSourceOf case.now p.source) parts.now }
    ensures { IsTrue result ↔ ArePricesOf case.now parts.now prices.now }
{
    if prices.len() != parts.len() {
        return false;
    }
    for (index, part) in parts.iter().enumerate() {
        if !names(case, &prices[index].part, part) {
            return false;
        }
    }
    true
}

/// The transfer between the parts that a move names, by the tables of the two sides.
fn transfer_of(hot: &PartTable, cold: &PartTable, moved: &Moved) -> Option<Transfer>
    ensures { result ≡
        transfer_by moved.now.heat (index_in hot.now moved.now.hot)
        (index_in cold.now moved.now.cold) }
{
    Some(Transfer {
        hot: index_in(hot, &moved.hot)?,
        cold: index_in(cold, &moved.cold)?,
        heat: moved.heat,
    })
}

/// The transfers that moves say, if each names a hot and a cold part.
pub fn flow_of(
    alloc: Global,
    case: &Case,
    parts: &Parts,
    moves: &[Moved],
) -> Result<Option<Flow>, AllocError>
    requires hot_sources { All (λ p. IsSourceOf case.now p.source) parts.now.hot }
    requires cold_sources { All (λ p. IsSourceOf case.now p.source) parts.now.cold }
    ensures some { IfOk result (λ flow. IsTrue (is_some flow) ↔ All (λ m. IsTrue (is_some
        (transfer_of case.now parts.now.hot parts.now.cold m))) moves.now) }
    ensures transfers { IfOk result (λ flow. IfSome flow (λ f. f.transfers ≡
        transfers_of case.now parts.now.hot parts.now.cold moves.now)) }
{
    let hot = table_of(alloc, case, parts.hot.as_slice())?;
    let cold = table_of(alloc, case, parts.cold.as_slice())?;
    let mut transfers = Vec::with_capacity(alloc, moves.len())?;
    for moved in moves {
        let Some(transfer) = transfer_of(&hot, &cold, moved) else {
            return Ok(None);
        };
        transfers.push(transfer)?;
    }
    Ok(Some(Flow {
        transfers: Items::from_vec(transfers),
    }))
}

/// The indexes of the parts that a cut names, if each is one of these parts. A cut that names none
/// takes no memory.
pub fn members_of(
    alloc: Global,
    case: &Case,
    parts: &[Part],
    spans: &[Span],
) -> Result<Option<Items<u32>>, AllocError>
    requires few { length parts.now ≤ MOST_PARTS }
    requires sources { All (λ p. IsSourceOf case.now p.source) parts.now }
    ensures some { IfOk result (λ members. IsTrue (is_some members) ↔
        All (λ s. IsTrue (is_some (index_of case.now parts.now s))) spans.now) }
    ensures members { IfOk result (λ members. IfSome members (λ m. m ≡
        filter_map (index_of case.now parts.now) spans.now)) }
    ensures memory { OnErr result (0 < length spans.now) }
{
    if spans.is_empty() {
        return Ok(Some(Items::new(alloc)));
    }
    let table = table_of(alloc, case, parts)?;
    let mut members = Vec::with_capacity(alloc, spans.len())?;
    for span in spans {
        let Some(member) = index_in(&table, span) else {
            return Ok(None);
        };
        members.push(member)?;
    }
    Ok(Some(Items::from_vec(members)))
}
