//! The text of a sample.
ghost use Rattle.std.specs.Prelude.{◌≡◌, IfOk};
ghost use Rattle.reports.specs.Sample.{sample_text};

use crate::line::line;
use std::alloc::{AllocError, Global};

/// The hot and the cold target, then the least cost.
pub fn sample_text(alloc: Global, hot: i64, cold: i64, cost: i128) -> Result<Vec<u8>, AllocError>
    ensures { IfOk result (λ text. text.items ≡ sample_text hot cold cost) }
{
    let mut text = line(alloc, "hot", i128::from(hot))?;
    text.push_str(&line(alloc, "cold", i128::from(cold))?)?;
    text.push_str(&line(alloc, "cost", cost)?)?;
    Ok(text.into_bytes())
}
