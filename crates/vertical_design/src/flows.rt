//! What runs between two cuts of the heat axis.

ghost use Rattle.std.specs.Prelude.{◌≡◌, ◌≤◌, All, length, IfOk};
ghost use Rattle.sums.specs.Sum.{int_sum_by};
ghost use Rattle.vertical_design.specs.Limits.{AreBands, IsFlow, IsSideFlow};
ghost use Rattle.vertical_design.specs.Matches.{flow_in, flows_in, scaled};
ghost use Rattle.vertical_design.specs.declared.limits.TheConstants.{MOST_BANDS};

use crate::band::Band;
use std::alloc::{AllocError, Global};

/// The flow of a source between two cuts, in 10 W/K: 0 where it does not run from the one to the
/// other.
fn flow_in(band: &Band, low: i64, high: i64) -> i64
    ensures { result ≡ flow_in low high band.now }
{
    if band.from <= low && high <= band.to {
        band.cp
    } else {
        0
    }
}

/// The flows of all sources of a side, in 10 W/K.
pub(crate) fn flows_in(
    alloc: Global,
    bands: &[Band],
    low: i64,
    high: i64,
) -> Result<Vec<i64>, AllocError>
    requires { AreBands bands.now }
    ensures flows { IfOk result (λ flows. flows.items ≡ flows_in low high bands.now) }
    ensures each { IfOk result (λ flows. All IsFlow flows.items) }
    ensures few { IfOk result (λ flows. length flows.items ≤ MOST_BANDS) }
{
    let mut flows = Vec::new(alloc);
    for band in bands {
        flows.push(flow_in(band, low, high))?;
    }
    Ok(flows)
}

/// The flow of a side, in 10 W/K.
pub(crate) fn sum_of(flows: &[i64]) -> i64
    requires each { All IsFlow flows.now }
    requires few { length flows.now ≤ MOST_BANDS }
    ensures sum { result ≡ int_sum_by (λ f. f) flows.now }
    ensures range { IsSideFlow result }
{
    let mut sum = 0;
    for flow in flows {
        sum += *flow;
    }
    sum
}

/// The flows times the flow of the other side.
pub(crate) fn scaled(alloc: Global, flows: &[i64], by: i64) -> Result<Vec<i64>, AllocError>
    requires each { All IsFlow flows.now }
    requires by { IsSideFlow by }
    ensures { IfOk result (λ amounts. amounts.items ≡ scaled by flows.now) }
{
    let mut amounts = Vec::new(alloc);
    for flow in flows {
        amounts.push(*flow * by)?;
    }
    Ok(amounts)
}
