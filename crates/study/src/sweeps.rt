//! Sweeps by several workers.
ghost use Rattle.std.specs.Prelude.{◌≤◌, IfOk};
ghost use Rattle.stream_case.specs.Case.{IsValid};
ghost use Rattle.study.specs.declared.limits.TheConstants.{MOST_WORKERS};
ghost use Rattle.study.specs.Plan.{has_row, IsSweepPlan};
ghost use Rattle.study.specs.Row.{OneRow};
ghost use Rattle.study.specs.Sweep.{AreRows, IsRowAt, OneSweep};

use crate::plan::{SweepPlan, contribution_at, row_count};
use crate::row::{SweepRow, sweep_row};
use std::alloc::{AllocError, Global};
use std::thread::Threads;
use stream_case::{Case, Items};
use workers::{Gate, items_by_workers};

/// A row, by its number.
fn numbered_row(
    alloc: Global,
    case: &Case,
    plan: SweepPlan,
    number: u32,
) -> Result<SweepRow, AllocError>
    requires valid { IsValid case.now }
    requires plan { IsSweepPlan plan }
    requires row { has_row plan number }
    ensures { IfOk result (IsRowAt case.now plan number) }
{
    sweep_row(alloc, case, contribution_at(plan, number))
}

/// The rows of a sweep, in rising contribution: the targets of the case with each contribution,
/// and the least cost of its heat flows (Kemp 2007 on the choice of the least approach). The
/// workers share the rows out among them; the rows are the same for every number of workers and
/// every gate. Where a worker finds no memory the others end their rows, and the answer is want
/// of memory.
pub fn sweep<R: Threads + Sync, G: Gate + Sync>(
    rt: &R,
    alloc: Global,
    gate: &G,
    case: &Case,
    plan: SweepPlan,
    workers: u32,
) -> Result<Items<SweepRow>, AllocError>
    requires valid { IsValid case.now }
    requires plan { IsSweepPlan plan }
    requires some_workers { 1 ≤ workers }
    requires few_workers { workers ≤ MOST_WORKERS }
    ensures { IfOk result (λ rows. AreRows case.now plan rows) }
{
    items_by_workers(
        rt,
        alloc,
        gate,
        &|number: u32| -> Result<SweepRow, AllocError>
            requires valid { IsValid case.now }
            requires plan { IsSweepPlan plan }
            requires row { has_row plan number }
            ensures { IfOk result (IsRowAt case.entry.now plan number) }
        { numbered_row(alloc, case, plan, number) },
        row_count(plan),
        workers,
    )
}

/// A case has one row for each contribution, and one list of rows for each sweep.
pub fn rows_are_one()
    ensures row { (case : _) → OneRow case }
    ensures rows { (case : _) → OneSweep case }
{}
