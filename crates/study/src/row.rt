//! A row of a sweep.
ghost use Rattle.std.specs.Prelude.{◌≡◌, IfOk};
ghost use Rattle.stream_case.specs.Case.{IsComplete, IsValid};
ghost use Rattle.stream_case.specs.Limits.{IsContribution};
ghost use Rattle.problem_table.specs.Deficit.{hot_target};
ghost use Rattle.study.specs.Cost.{IsCostOf};
ghost use Rattle.study.specs.Row.{IsRow};

use crate::contribution::with_contribution;
use problem_table::{Target, targets};
use std::alloc::{AllocError, Global};
use stream_case::{Case, complete};
use transport::case_cost;

/// What a contribution of all sources makes of a case: the targets in W, and the least cost of a
/// heat flow, or none where there is no heat flow.
#[derive(Clone, Copy, Debug, PartialEq, Eq)]
pub struct SweepRow {
    /// The contribution of each source to the least approach, in tenths of °C.
    pub contribution: i32,
    pub hot: i64,
    pub cold: i64,
    pub cost: Option<i128>,
}

/// The least cost of the heat flows of a completed case with these targets, or none exactly where
/// it has no heat flow.
fn cost_of(alloc: Global, case: &Case, targets: Target) -> Result<Option<i128>, AllocError>
    requires complete { IsComplete case.now }
    requires hot_target { targets.hot ≡ hot_target case.now.streams }
    ensures { IfOk result (IsCostOf case.now) }
{
    let found = case_cost(alloc, case, targets)?;
    Ok(found.ok())
}

/// The row of this contribution.
pub(crate) fn sweep_row(
    alloc: Global,
    case: &Case,
    contribution: i32,
) -> Result<SweepRow, AllocError>
    requires valid { IsValid case.now }
    requires contribution { IsContribution contribution }
    ensures { IfOk result (λ row. IsRow case.now contribution row) }
{
    let given = with_contribution(alloc, case, contribution)?;
    let case = complete(alloc, &given)?;
    let targets = targets(&case);
    let cost = cost_of(alloc, &case, targets)?;
    Ok(SweepRow {
        contribution,
        hot: targets.hot,
        cold: targets.cold,
        cost,
    })
}
