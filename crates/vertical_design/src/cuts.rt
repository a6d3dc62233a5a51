//! Where the heat axis is cut.

ghost use Rattle.std.specs.Prelude.{◌≡◌, ◌++◌, Contains, IfOk, OnOk};
ghost use Rattle.sums.specs.Order.{ListsFalling};
ghost use Rattle.vertical_design.specs.Axis.{AreCuts, ends_of};

use crate::band::Band;
use std::alloc::{AllocError, Global};

/// The heats, each once, from the greatest down.
fn falling(mut heats: Vec<i64>) -> Vec<i64>
    ensures { ListsFalling (Contains heats.items) result.items }
{
    heats.sort_unstable();
    heats.dedup();
    heats.reverse();
    heats
}

/// Appends where bands begin and end, in W.
fn push_ends(ends: &mut Vec<i64>, bands: &[Band]) -> Result<(), AllocError>
    ensures { OnOk result (ends.new.items ≡ ends.old.items ++ ends_of bands.now) }
{
    for band in bands {
        ends.push(band.from)?;
        ends.push(band.to)?;
    }
    Ok(())
}

/// The cuts of the heat axis, in W, from the greatest down: wherever a band begins or ends.
pub(crate) fn cuts_of(alloc: Global, hot: &[Band], cold: &[Band]) -> Result<Vec<i64>, AllocError>
    ensures { IfOk result (λ cuts. AreCuts hot.now cold.now cuts.items) }
{
    let mut ends = Vec::new(alloc);
    push_ends(&mut ends, hot)?;
    push_ends(&mut ends, cold)?;
    Ok(falling(ends))
}
