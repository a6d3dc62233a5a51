//! The text of a price study.
ghost use Rattle.std.specs.Prelude.{◌≡◌, IfOk, string_bytes};
ghost use Rattle.reports.specs.Prices.{answer_lines, item_lines, item_words, prices_text, segment_line, segment_lines};

use crate::line::{cost_line, infeasible_line, line};
use crate::names::{SourceNames, case_names};
use std::alloc::{AllocError, Global};
use stream_case::{Case, Source};
use study::{Segment, Study, StudyAnswer, StudyItem};

/// The items of a study of the case in their order, each with its answer.
pub fn prices_text(
    alloc: Global,
    case: &Case,
    study: &Study,
    answers: &[StudyAnswer],
) -> Result<Vec<u8>, AllocError>
    ensures { IfOk result (λ text. text.items ≡ prices_text case.now study.now answers.now) }
{
    let names = case_names(alloc, case)?;
    Ok(item_lines(alloc, &names, study.items.as_slice(), answers)?.into_bytes())
}

fn item_lines(
    alloc: Global,
    names: &SourceNames,
    items: &[StudyItem],
    answers: &[StudyAnswer],
) -> Result<String, AllocError>
    ensures { IfOk result
        (λ text. string_bytes text ≡ item_lines names.now items.now answers.now) }
{
    let mut text = String::new(alloc);
    for (item, answer) in items.iter().zip(answers) {
        let words = item_words(alloc, names, item)?;
        text.push_str(&answer_lines(alloc, &words, answer)?)?;
    }
    Ok(text)
}

/// A scenario and its name, or a span and the name of its utility.
fn item_words(alloc: Global, names: &SourceNames, item: &StudyItem) -> Result<String, AllocError>
    ensures { IfOk result (λ text. string_bytes text ≡ item_words names.now item.now) }
{
    match item {
        StudyItem::Scenario { name, .. } => format!(in alloc; "scenario {name}"),
        StudyItem::Span { utility, .. } => {
            let name = names.source_name(Source::Utility(*utility));
            format!(in alloc; "span {name}")
        }
    }
}

/// What is answered to an item of these words.
fn answer_lines(alloc: Global, words: &str, answer: &StudyAnswer) -> Result<String, AllocError>
    ensures { IfOk result (λ text. string_bytes text ≡ answer_lines words.now answer.now) }
{
    match answer {
        StudyAnswer::Cost(cost) => cost_line(alloc, words, *cost),
        StudyAnswer::Segments(segments) => segment_lines(alloc, words, segments.as_slice()),
    }
}

/// A line for each segment, or that there is no heat flow.
fn segment_lines(alloc: Global, words: &str, segments: &[Segment]) -> Result<String, AllocError>
    ensures { IfOk result (λ text. string_bytes text ≡ segment_lines words.now segments.now) }
{
    if segments.is_empty() {
        return infeasible_line(alloc, words);
    }
    let mut text = String::new(alloc);
    for segment in segments {
        text.push_str(&segment_line(alloc, words, segment)?)?;
    }
    Ok(text)
}

/// The first and the last price, what the line costs at the price 0, and its slope in W.
fn segment_line(alloc: Global, words: &str, segment: &Segment) -> Result<String, AllocError>
    ensures { IfOk result (λ text. string_bytes text ≡ segment_line words.now segment.now) }
{
    let line_words = format!(in alloc; "{words} {} {} {}", segment.from, segment.to, segment.base)?;
    line(alloc, &line_words, segment.slope)
}
