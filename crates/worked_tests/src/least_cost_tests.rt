//! Least costs over chains and over a table of all pairs, in samples.
ghost use Rattle.std.specs.Prelude.{◌≤◌};
ghost use Rattle.stream_case.specs.Case.{IsComplete};
ghost use Rattle.grid.specs.Part.{AreCaseParts};

use crate::compare::assert_same;
use crate::flows::{parts_of_case, reach_of_case};
use crate::transport_tests::answer_of;
use grid::Parts;
use std::alloc::Global;
use std::process::Abort;
use std::test::Fail;
use stream_case::Case;
use study::sample_case;
use transport::{Answer, MOST_PAIRS, least};
use worked_tables::completed;

/// The least cost, if there is a heat flow.
pub fn cost_in(answer: &Answer) -> Option<i128> {
    match answer {
        Answer::Least { cost, .. } => Some(*cost),
        Answer::Stuck(_) => None,
    }
}

/// The answer by a table of the pairs of parts.
pub fn answer_by_pairs(alloc: Global, case: &Case, parts: &Parts) -> Result<Answer, Fail>
    requires complete { IsComplete case.now }
    requires parts { AreCaseParts case.now parts.now.hot parts.now.cold }
{
    let reach = reach_of_case(alloc, case, parts)?;
    if reach.hots.saturating_mul(reach.colds) as usize > MOST_PAIRS {
        return Err("the pairs are too many".into());
    }
    Ok(least(alloc, parts, &reach)?)
}

/// Compares the two least costs of a sample, which always has a heat flow.
fn compare_sample(rt: &impl Abort, alloc: Global, number: u32, count: u32) -> Result<(), Fail>
    requires least_number { 1 ≤ number }
    requires most_number { number ≤ 20 }
    requires some_streams { 1 ≤ count }
    requires few_streams { count ≤ 3 }
{
    let case = completed(alloc, &sample_case(alloc, number, count)?)?;
    let parts = parts_of_case(alloc, &case)?;
    let by_chains = cost_in(&answer_of(alloc, &case, &parts)?).ok_or("a cut of the chains")?;
    let by_pairs = cost_in(&answer_by_pairs(alloc, &case, &parts)?).ok_or("a cut of the pairs")?;
    assert_same(rt, "the least cost", &by_chains, &by_pairs);
    Ok(())
}

#[test]
fn chains_and_pairs_give_the_same_least_cost(rt: HostRuntime) -> Result<(), Fail> {
    for number in 1..=20 {
        for count in 1..=3 {
            compare_sample(&rt, rt.alloc(), number, count)?;
        }
    }
    Ok(())
}
