//! Price studies by several workers.
ghost use Rattle.std.specs.Prelude.{◌≤◌, ◌<◌, length, IfOk};
ghost use Rattle.stream_case.specs.Case.{IsComplete};
ghost use Rattle.study.specs.declared.limits.TheConstants.{MOST_WORKERS};
ghost use Rattle.study.specs.PricedCase.{IsPricedCase};
ghost use Rattle.study.specs.StudyAnswers.{AreAnswers, IsAnswerAt, IsItemAnswer, OneAnswer, RisesFall};
ghost use Rattle.study_text.specs.Study.{IsItem, IsStudy};

use crate::priced::PricedCase;
use crate::segments::span_segments;
use crate::study_answer::StudyAnswer;
use grid::case_parts;
use std::alloc::{AllocError, Global};
use std::thread::Threads;
use stream_case::{Case, Items};
use study_text::{Study, StudyItem};
use transport::CaseNet;
use workers::{Gate, items_by_workers};

/// The answer to an item of a study.
fn item_answer(
    alloc: Global,
    priced: &PricedCase,
    item: &StudyItem,
) -> Result<StudyAnswer, AllocError>
    requires priced { IsPricedCase priced.now }
    requires item { IsItem priced.now.case.now item.now }
    ensures { IfOk result (IsItemAnswer priced.now.case.now item.now) }
{
    match item {
        StudyItem::Scenario { prices, .. } => {
            let cost = priced.cost_at(alloc, prices.as_slice())?;
            Ok(StudyAnswer::Cost(cost))
        }
        StudyItem::Span { utility, from, to } => {
            let segments = span_segments(alloc, priced, *utility, *from, *to)?;
            Ok(StudyAnswer::Segments(segments))
        }
    }
}

/// The answer to the item of a number, from 0.
fn numbered_answer(
    alloc: Global,
    priced: &PricedCase,
    study: &Study,
    number: u32,
) -> Result<StudyAnswer, AllocError>
    requires priced { IsPricedCase priced.now }
    requires study { IsStudy priced.now.case.now study.now }
    requires item { number < length study.now.items }
    ensures { IfOk result (IsAnswerAt priced.now.case.now study.now number) }
{
    item_answer(alloc, priced, &study.items.as_slice()[number as usize])
}

/// The answers to the items of a study, in their order: what each scenario costs at least, and the
/// segments of the least cost over each span, of a completed case. The workers share the items out
/// among them; the answers are the same for every number of workers and every gate. Where a worker
/// finds no memory the others end their items, and the answer is want of memory.
pub fn price_study<R: Threads + Sync, G: Gate + Sync>(
    rt: &R,
    alloc: Global,
    gate: &G,
    case: &Case,
    study: &Study,
    workers: u32,
) -> Result<Items<StudyAnswer>, AllocError>
    requires complete { IsComplete case.now }
    requires study { IsStudy case.now study.now }
    requires some_workers { 1 ≤ workers }
    requires few_workers { workers ≤ MOST_WORKERS }
    ensures { IfOk result (AreAnswers case.now study.now) }
{
    let parts = case_parts(alloc, case)?;
    let net = CaseNet::new(alloc, case, &parts)?;
    let priced = &PricedCase {
        case,
        parts: &parts,
        net: &net,
    };
    items_by_workers(
        rt,
        alloc,
        gate,
        &|number: u32| -> Result<StudyAnswer, AllocError>
            requires priced { IsPricedCase priced.now }
            requires study { IsStudy priced.now.case.now study.now }
            requires item { number < length study.now.items }
            ensures { IfOk result (IsAnswerAt priced.entry.now.case.now study.entry.now number) }
        { numbered_answer(alloc, priced, study, number) },
        study.items.len() as u32,
        workers,
    )
}

/// A study of a case has one list of answers.
pub fn answers_are_one()
    ensures { (case : _) → OneAnswer case }
{}

/// The least cost of a case never rises more behind a price of a utility than before it.
pub fn rises_fall()
    ensures { (case : _) → RisesFall case }
{}
