//! The heat flow of a completed case, or a cut.
ghost use Rattle.std.specs.Prelude.{◌≡◌, IfOk};
ghost use Rattle.stream_case.specs.Case.{IsComplete};
ghost use Rattle.commands.specs.Flow.{AnswersFlow, shown_answer};

use grid::{Parts, case_parts};
use reports::Shown;
use std::alloc::{AllocError, Global};
use stream_case::Case;
use transport::{Answer, case_answer};

/// A heat flow of least cost of a completed case with its certificate, the corner flow where the
/// case is standard, or a cut where it has no heat flow.
pub fn show_flow(alloc: Global, case: Case) -> Result<Shown, AllocError>
    requires { IsComplete case }
    ensures { IfOk result (AnswersFlow case) }
{
    let parts = case_parts(alloc, &case)?;
    let answer = case_answer(alloc, &case, &parts)?;
    Ok(shown_answer(case, parts, answer))
}

fn shown_answer(case: Case, parts: Parts, answer: Answer) -> Shown
    ensures { result ≡ shown_answer case parts answer }
{
    match answer {
        Answer::Least { flow, prices, cost } => Shown::Flow {
            case,
            parts,
            flow,
            prices,
            cost,
        },
        Answer::Stuck(cut) => Shown::Stuck { case, parts, cut },
    }
}
