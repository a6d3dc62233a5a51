//! What is shown of a request: no file is read here, and none is refused.
ghost use Rattle.std.specs.Prelude.{IfOk};
ghost use Rattle.commands.specs.Answers.{Answers, IsRequest};

use crate::audit::show_audit;
use crate::certify_answer::show_certify;
use crate::prices_answer::show_prices;
use crate::request::Request;
use crate::sample_answer::show_sample;
use crate::site_answer::show_site;
use crate::sweep_answer::show_sweep;
use crate::task_answer::show_task;
use crate::vertical_answer::show_vertical;
use reports::Shown;
use std::alloc::{AllocError, Global};
use std::thread::Threads;
use study::Gate;

/// What is shown of a request. Workers pass the gate, which has no influence on it.
#[tactic(auto, unfolding(crate::specs::Answers::Answers))]
pub fn answer<R: Threads + Sync, G: Gate + Sync>(
    rt: &R,
    alloc: Global,
    gate: &G,
    request: Request,
) -> Result<Shown, AllocError>
    requires { IsRequest request }
    ensures { IfOk result (Answers request) }
{
    match request {
        Request::OfCase { case, task } => show_task(alloc, case, task),
        Request::Vertical { case } => show_vertical(alloc, case),
        Request::Audit { case, network } => show_audit(alloc, case, network),
        Request::Certify { case, report } => show_certify(alloc, &case, &report),
        Request::Prices {
            case,
            study,
            workers,
        } => show_prices(rt, alloc, gate, case, study, workers),
        Request::Sweep {
            case,
            plan,
            workers,
        } => show_sweep(rt, alloc, gate, &case, plan, workers),
        Request::OfSite { site } => show_site(alloc, site),
        Request::Sample { number, count } => show_sample(alloc, number, count),
    }
}
