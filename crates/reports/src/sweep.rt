//! The text of a sweep.
ghost use Rattle.std.specs.Prelude.{◌≡◌, IfOk, string_bytes};
ghost use Rattle.reports.specs.Sweep.{row_line, sweep_text};

use crate::line::cost_line;
use std::alloc::{AllocError, Global};
use study::SweepRow;

/// A line for each row of a sweep.
pub fn sweep_text(alloc: Global, rows: &[SweepRow]) -> Result<Vec<u8>, AllocError>
    ensures { IfOk result (λ text. text.items ≡ sweep_text rows.now) }
{
    let mut text = String::new(alloc);
    for row in rows {
        text.push_str(&row_line(alloc, row)?)?;
    }
    Ok(text.into_bytes())
}

/// The contribution, the targets and the least cost.
fn row_line(alloc: Global, row: &SweepRow) -> Result<String, AllocError>
    ensures { IfOk result (λ text. string_bytes text ≡ row_line row.now) }
{
    let word = format!(in alloc; "row {} {} {}", row.contribution, row.hot, row.cold)?;
    cost_line(alloc, &word, row.cost)
}
