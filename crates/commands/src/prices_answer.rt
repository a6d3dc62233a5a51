//! What `prices` shows.
ghost use Rattle.std.specs.Prelude.{IfOk};
ghost use Rattle.stream_case.specs.Case.{IsComplete};
ghost use Rattle.study_text.specs.Study.{IsStudy};
ghost use Rattle.commands.specs.Numbers.{CanWork};
ghost use Rattle.commands.specs.Prices.{AnswersStudy};

use reports::Shown;
use std::alloc::{AllocError, Global};
use std::thread::Threads;
use stream_case::Case;
use study::{Gate, Study, price_study};

/// The answers to a price study of a completed case, by so many workers.
pub fn show_prices<R: Threads + Sync, G: Gate + Sync>(
    rt: &R,
    alloc: Global,
    gate: &G,
    case: Case,
    study: Study,
    workers: u32,
) -> Result<Shown, AllocError>
    requires complete { IsComplete case }
    requires study { IsStudy case study }
    requires workers { CanWork workers }
    ensures { IfOk result (AnswersStudy case study) }
{
    let answers = price_study(rt, alloc, gate, &case, &study, workers)?;
    Ok(Shown::Prices {
        case,
        study,
        answers,
    })
}
