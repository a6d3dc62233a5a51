//! The targets and the least cost of a sample.
ghost use Rattle.std.specs.Prelude.{◌≤◌, IfOk};
ghost use Rattle.study.specs.declared.limits.TheConstants.{MOST_SAMPLE_NUMBER, MOST_SAMPLE_STREAMS};
ghost use Rattle.study.specs.SampleRow.{IsSampleRow, OneSampleRow};

use crate::sample::sample_case;
use problem_table::targets;
use std::alloc::{AllocError, Global};
use stream_case::complete;
use transport::case_cost;

/// What the completed sample of a number needs, in W, and what it costs at least.
#[derive(Clone, Copy, Debug, PartialEq, Eq)]
pub struct SampleRow {
    pub hot: i64,
    pub cold: i64,
    pub cost: i128,
}

/// The targets and the least cost of the sample of this number with `count` hot and `count` cold
/// streams, completed with the standard utilities.
pub fn sample_row(alloc: Global, number: u32, count: u32) -> Result<SampleRow, AllocError>
    requires least_number { 1 ≤ number }
    requires most_number { number ≤ MOST_SAMPLE_NUMBER }
    requires some_streams { 1 ≤ count }
    requires few_streams { count ≤ MOST_SAMPLE_STREAMS }
    ensures { IfOk result (IsSampleRow number count) }
{
    let given = sample_case(alloc, number, count)?;
    let case = complete(alloc, &given)?;
    let targets = targets(&case);
    match case_cost(alloc, &case, targets)? {
        Ok(cost) => Ok(SampleRow {
            hot: targets.hot,
            cold: targets.cold,
            cost,
        }),
        // `HOT` may heat each cold part and `COLD` cool each hot one, and each has more heat than
        // all streams of a case: so no cut stands.
        Err(_) => unreachable!(),
    }
}

/// A sample has one row.
pub fn sample_rows_are_one()
    ensures { OneSampleRow }
{}
