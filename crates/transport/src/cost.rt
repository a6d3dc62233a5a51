//! The least cost of a case.
ghost use Rattle.std.specs.Prelude.{◌≡◌, IfOk, MatchResult};
ghost use Rattle.stream_case.specs.Case.{IsComplete};
ghost use Rattle.problem_table.specs.Deficit.{hot_target};
ghost use Rattle.transport.specs.CaseCost.{IsCaseCost, IsCaseCut};

use crate::answer::Answer;
use crate::case_net::least_case;
use corner_flow::standard_cost;
use grid::case_parts;
use heat_flow::Cut;
use problem_table::Target;
use std::alloc::{AllocError, Global};
use stream_case::{Case, is_standard};

/// The least cost of the heat flows of a completed case with these targets, in price units times W,
/// or a cut of its parts. For a standard case it is the hot target, and no heat flow is made.
pub fn case_cost(
    alloc: Global,
    case: &Case,
    targets: Target,
) -> Result<Result<i128, Cut>, AllocError>
    requires complete { IsComplete case.now }
    requires hot_target { targets.hot ≡ hot_target case.now.streams }
    ensures { IfOk result
        (λ found. MatchResult found (IsCaseCost case.now) (IsCaseCut case.now)) }
{
    if is_standard(case) {
        return Ok(Ok(standard_cost(case, targets)));
    }
    let parts = case_parts(alloc, case)?;
    match least_case(alloc, case, &parts)? {
        Answer::Least { cost, .. } => Ok(Ok(cost)),
        Answer::Stuck(cut) => Ok(Err(cut)),
    }
}
