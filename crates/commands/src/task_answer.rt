//! What a task shows of a completed case.
ghost use Rattle.std.specs.Prelude.{IfOk};
ghost use Rattle.stream_case.specs.Case.{IsComplete};
ghost use Rattle.stream_case.specs.Stream.{AreStreams};
ghost use Rattle.commands.specs.Tasks.{AreCurvesOf, AreTargetsOf, ShowsTask};

use crate::design::show_design;
use crate::flow::show_flow;
use crate::request::CaseTask;
use curves::{cold_curve, grand_curve, hot_curve};
use problem_table::{pinches_at, targets};
use reports::Shown;
use std::alloc::{AllocError, Global};
use stream_case::Case;

/// What a task shows of a completed case.
pub fn show_task(alloc: Global, case: Case, task: CaseTask) -> Result<Shown, AllocError>
    requires { IsComplete case }
    ensures { IfOk result (ShowsTask task case) }
{
    match task {
        CaseTask::Targets => show_targets(alloc, &case),
        CaseTask::Flow => show_flow(alloc, case),
        CaseTask::Design => show_design(alloc, case),
        CaseTask::Curves => show_curves(alloc, &case),
    }
}

/// The targets of the streams of a case and their pinches.
fn show_targets(alloc: Global, case: &Case) -> Result<Shown, AllocError>
    requires { AreStreams case.now.streams }
    ensures { IfOk result (AreTargetsOf case.now.streams) }
{
    let targets = targets(case);
    Ok(Shown::Targets {
        targets,
        pinches: pinches_at(alloc, case, targets.hot)?,
    })
}

/// The three curves of the streams of a case.
fn show_curves(alloc: Global, case: &Case) -> Result<Shown, AllocError>
    requires { AreStreams case.now.streams }
    ensures { IfOk result (AreCurvesOf case.now.streams) }
{
    Ok(Shown::Curves {
        hot: hot_curve(alloc, case)?,
        cold: cold_curve(alloc, case)?,
        net: grand_curve(alloc, case)?,
    })
}
