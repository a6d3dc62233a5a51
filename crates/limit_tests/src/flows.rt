//! The parts of a completed case, which of them reach, its net of chains, and its answer. What a test
//! asks of them is a number: what it owned would be carried through the proof of all that it does.
ghost use Rattle.std.specs.Prelude.{IfOk};
ghost use Rattle.stream_case.specs.Case.{IsComplete};
ghost use Rattle.grid.specs.Part.{AreCaseParts};

use chains::{Chains, chains_of};
use grid::{Parts, grid_of, parts_of};
use heat_flow::{Reach, reach_of};
use std::alloc::{AllocError, Global};
use stream_case::Case;
use transport::{Answer, least_case};

fn parts_of_case(alloc: Global, case: &Case) -> Result<Parts, AllocError>
    requires { IsComplete case.now }
    ensures { IfOk result (λ parts. AreCaseParts case.now parts.hot parts.cold) }
{
    let grid = grid_of(alloc, case)?;
    parts_of(alloc, case, &grid)
}

fn reach_of_case(alloc: Global, case: &Case, parts: &Parts) -> Result<Reach, AllocError>
    requires complete { IsComplete case.now }
    requires parts { AreCaseParts case.now parts.now.hot parts.now.cold }
{
    reach_of(alloc, case, parts)
}

fn chains_of_case(alloc: Global, case: &Case, parts: &Parts) -> Result<Chains, AllocError>
    requires complete { IsComplete case.now }
    requires parts { AreCaseParts case.now parts.now.hot parts.now.cold }
{
    chains_of(alloc, case, parts)
}

fn answer_of(alloc: Global, case: &Case, parts: &Parts) -> Result<Answer, AllocError>
    requires complete { IsComplete case.now }
    requires parts { AreCaseParts case.now parts.now.hot parts.now.cold }
{
    least_case(alloc, case, parts)
}

/// How many places the grid of a case has.
pub fn place_count(alloc: Global, case: &Case) -> Result<usize, AllocError>
    requires { IsComplete case.now }
{
    Ok(grid_of(alloc, case)?.places.len())
}

/// How many hot and cold parts a case has.
pub fn part_counts(alloc: Global, case: &Case) -> Result<[usize; 2], AllocError>
    requires { IsComplete case.now }
{
    let parts = parts_of_case(alloc, case)?;
    Ok([parts.hot.len(), parts.cold.len()])
}

/// How many cells the table of its parts has.
pub fn cell_count(alloc: Global, case: &Case) -> Result<usize, AllocError>
    requires { IsComplete case.now }
{
    let parts = parts_of_case(alloc, case)?;
    Ok(reach_of_case(alloc, case, &parts)?.cells.len())
}

/// How many groups, nodes and links its net of chains has.
pub fn chain_counts(alloc: Global, case: &Case) -> Result<[usize; 3], AllocError>
    requires { IsComplete case.now }
{
    let parts = parts_of_case(alloc, case)?;
    let chains = chains_of_case(alloc, case, &parts)?;
    let net = &chains.net;
    Ok([chains.groups.len(), net.nodes as usize, net.links.len()])
}

/// The least cost of a case, or how many parts its cut has.
pub fn cost_or_cut(alloc: Global, case: &Case) -> Result<Result<i128, usize>, AllocError>
    requires { IsComplete case.now }
{
    let parts = parts_of_case(alloc, case)?;
    match answer_of(alloc, case, &parts)? {
        Answer::Least { cost, .. } => Ok(Ok(cost)),
        Answer::Stuck(cut) => Ok(Err(cut.parts.len())),
    }
}
