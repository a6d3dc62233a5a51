//! What `sweep` shows of the case that it reads.
ghost use Rattle.std.specs.Prelude.{IfOk};
ghost use Rattle.stream_case.specs.Case.{IsValid};
ghost use Rattle.study.specs.Plan.{IsSweepPlan};
ghost use Rattle.commands.specs.Numbers.{CanWork};
ghost use Rattle.commands.specs.Sweep.{ShowsSweep};

use reports::Shown;
use std::alloc::{AllocError, Global};
use std::thread::Threads;
use stream_case::Case;
use study::{Gate, SweepPlan, sweep};

/// The targets and the least cost of a case for each contribution of a plan, by so many workers.
pub fn show_sweep<R: Threads + Sync, G: Gate + Sync>(
    rt: &R,
    alloc: Global,
    gate: &G,
    case: &Case,
    plan: SweepPlan,
    workers: u32,
) -> Result<Shown, AllocError>
    requires valid { IsValid case.now }
    requires plan { IsSweepPlan plan }
    requires workers { CanWork workers }
    ensures { IfOk result (ShowsSweep plan case.now) }
{
    let rows = sweep(rt, alloc, gate, case, plan, workers)?;
    Ok(Shown::Sweep { rows })
}
