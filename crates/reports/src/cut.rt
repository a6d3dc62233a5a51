//! The text of a cut.
ghost use Rattle.std.specs.Prelude.{◌≡◌, IfOk, string_bytes};
ghost use Rattle.std.specs.List.{flat_map};
ghost use Rattle.reports.specs.Cut.{cut_line, cut_word, member_line, stuck_text};

use crate::flow::part_at;
use crate::line::line;
use crate::names::SourceNames;
use grid::{Part, Parts};
use heat_flow::{Cut, CutKind, parts_of};
use std::alloc::{AllocError, Global};

/// That there is no heat flow, the cut with its need and its offer in W, and its parts.
pub fn stuck_text(
    alloc: Global,
    names: &SourceNames,
    parts: &Parts,
    cut: &Cut,
) -> Result<String, AllocError>
    ensures { IfOk result (λ text. string_bytes text ≡ stuck_text names.now parts.now cut.now) }
{
    let parts = parts_of(cut.kind.side(), parts);
    let mut text = String::from_str(alloc, "infeasible\n")?;
    text.push_str(&cut_line(alloc, cut)?)?;
    text.push_str(&member_lines(alloc, names, parts, cut.parts.as_slice())?)?;
    Ok(text)
}

fn cut_line(alloc: Global, cut: &Cut) -> Result<String, AllocError>
    ensures { IfOk result (λ text. string_bytes text ≡ cut_line cut.now) }
{
    let word = format!(in alloc; "cut {} {}", cut_word(cut.kind), cut.need)?;
    line(alloc, &word, i128::from(cut.offer))
}

/// Whether the parts have to take heat or to give it.
fn cut_word(kind: CutKind) -> &'static str
    ensures { result.now ≡ cut_word kind }
{
    match kind {
        CutKind::Demand => "demand",
        CutKind::Supply => "supply",
    }
}

fn member_lines(
    alloc: Global,
    names: &SourceNames,
    parts: &[Part],
    members: &[u32],
) -> Result<String, AllocError>
    ensures { IfOk result (λ text. string_bytes text
        ≡ flat_map (member_line names.now parts.now) members.now) }
{
    let mut text = String::new(alloc);
    for index in members {
        text.push_str(&member_line(alloc, names, parts, *index)?)?;
    }
    Ok(text)
}

fn member_line(
    alloc: Global,
    names: &SourceNames,
    parts: &[Part],
    index: u32,
) -> Result<String, AllocError>
    ensures { IfOk result (λ text. string_bytes text ≡ member_line names.now parts.now index) }
{
    let part = part_at(alloc, names, parts, index)?;
    format!(in alloc; "part {part}\n")
}
