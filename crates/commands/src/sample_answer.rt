//! What `sample` shows.
ghost use Rattle.std.specs.Prelude.{IfOk};
ghost use Rattle.commands.specs.Numbers.{IsSampleOf};
ghost use Rattle.commands.specs.Sample.{ShowsSample};

use reports::Shown;
use std::alloc::{AllocError, Global};
use study::sample_row;

/// The targets and the least cost of the completed sample of a number, with so many streams on
/// each side. No file is read.
pub fn show_sample(alloc: Global, number: u32, count: u32) -> Result<Shown, AllocError>
    requires { IsSampleOf number count }
    ensures { IfOk result (ShowsSample number count) }
{
    let row = sample_row(alloc, number, count)?;
    Ok(Shown::Sample {
        hot: row.hot,
        cold: row.cold,
        cost: row.cost,
    })
}
