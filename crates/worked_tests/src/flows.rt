//! The parts of a completed case, which of them reach, and its net of chains.
ghost use Rattle.std.specs.Prelude.{IfOk};
ghost use Rattle.stream_case.specs.Case.{IsComplete, IsStandard};
ghost use Rattle.grid.specs.Part.{AreCaseParts};
ghost use Rattle.price_floor.specs.Floor.{IsReachOf};

use chains::{Chains, chains_of};
use grid::{Parts, grid_of, parts_of};
use heat_flow::{Reach, reach_of};
use std::alloc::{AllocError, Global};
use std::test::Fail;
use stream_case::{Case, is_standard};
use worked_tables::{FOUR_STREAMS, Table, completed_case};

pub fn parts_of_case(alloc: Global, case: &Case) -> Result<Parts, AllocError>
    requires { IsComplete case.now }
    ensures { IfOk result (λ parts. AreCaseParts case.now parts.hot parts.cold) }
{
    let grid = grid_of(alloc, case)?;
    parts_of(alloc, case, &grid)
}

pub fn reach_of_case(alloc: Global, case: &Case, parts: &Parts) -> Result<Reach, AllocError>
    requires complete { IsComplete case.now }
    requires parts { AreCaseParts case.now parts.now.hot parts.now.cold }
    ensures { IfOk result (IsReachOf case.now parts.now.hot parts.now.cold) }
{
    reach_of(alloc, case, parts)
}

pub fn chains_of_case(alloc: Global, case: &Case, parts: &Parts) -> Result<Chains, AllocError>
    requires complete { IsComplete case.now }
    requires parts { AreCaseParts case.now parts.now.hot parts.now.cold }
{
    chains_of(alloc, case, parts)
}

/// A completed case, its parts, and the table of their pairs.
#[derive(Drop)]
pub struct Parted {
    pub case: Case,
    pub parts: Parts,
    pub reach: Reach,
}

/// The streams of a table with `HOT` and `COLD`.
pub fn with_standard_utilities(alloc: Global, table: &Table) -> Result<Parted, Fail>
    ensures complete { IfOk result (λ made. IsComplete made.case) }
    ensures standard { IfOk result (λ made. IsStandard made.case) }
    ensures parts { IfOk result (λ made. AreCaseParts made.case made.parts.hot made.parts.cold) }
{
    let case = completed_case(alloc, table)?;
    if !is_standard(&case) {
        return Err("the case is not standard".into());
    }
    let parts = parts_of_case(alloc, &case)?;
    let reach = reach_of_case(alloc, &case, &parts)?;
    Ok(Parted { case, parts, reach })
}

/// The four streams with `HOT` and `COLD`.
pub fn four_streams(alloc: Global) -> Result<Parted, Fail>
    ensures complete { IfOk result (λ four. IsComplete four.case) }
    ensures standard { IfOk result (λ four. IsStandard four.case) }
    ensures parts { IfOk result (λ four. AreCaseParts four.case four.parts.hot four.parts.cold) }
{
    with_standard_utilities(alloc, &FOUR_STREAMS)
}
