//! What is asked: all files are read here, and all that is refused is refused here.
ghost use Rattle.std.specs.Prelude.{◌↔◌, IfErr, IfOk, IsTrue};
ghost use Rattle.stream_case.specs.Case.{IsComplete};
ghost use Rattle.stream_case.specs.Stream.{AreSensible};
ghost use Rattle.commands.specs.Answers.{IsRequest};
ghost use Rattle.commands.specs.Files.{NoText, ReadsCompleted};
ghost use Rattle.commands.specs.Formats.{case_file};
ghost use Rattle.commands.specs.Reading.{audit_form, certify_form, prices_form, reading_behind, reading_of, sample_form, site_form, sweep_form, task_form};
ghost use Rattle.commands.specs.Reading.{vertical_form};
ghost use Rattle.commands.specs.Stop.{IfEarly, Reads};

use crate::files::{take_case, take_network, take_report, take_site, take_study};
use crate::forms::{one_file, sample_words, study_words, sweep_words, two_files};
use crate::stop::Stop;
use crate::word::Word;
use certify::Report;
use network_text::Network;
use pinch_outside::Shelf;
use reports::Shown;
use site::Site;
use std::alloc::Global;
use stream_case::{Case, Items, complete, has_latent, is_standard};
use study::{Study, SweepPlan};

/// What is asked of the completed case of a file, with nothing beside it.
#[derive(Clone, Copy, Debug)]
pub enum CaseTask {
    /// The targets and the pinches.
    Targets,
    /// A heat flow of least cost, with prices that prove it.
    Flow,
    /// The composite curves and the grand composite curve.
    Curves,
    /// A network that realises a heat flow of least cost.
    Design,
}

/// What is asked, with what its files say.
#[derive(Debug, Drop)]
pub enum Request {
    /// A task on a completed case.
    OfCase {
        case: Case,
        task: CaseTask,
    },
    /// The network of a completed standard case of sensible streams by its composite curves.
    Vertical {
        case: Case,
    },
    /// Whether a network is valid for a completed case.
    Audit {
        case: Case,
        network: Network,
    },
    /// Whether a report proves what it says of a completed case.
    Certify {
        case: Case,
        report: Report,
    },
    /// What a price study of a completed case asks, by so many workers.
    Prices {
        case: Case,
        study: Study,
        workers: u32,
    },
    /// The rows of a plan for a case, which is completed for each contribution, by so many workers.
    Sweep {
        case: Case,
        plan: SweepPlan,
        workers: u32,
    },
    /// The profiles of a site, and its least boiler heat.
    OfSite {
        site: Site,
    },
    /// The sample of a number, with so many streams on each side.
    Sample {
        number: u32,
        count: u32,
    },
}

/// What the words and the files ask.
#[tactic(auto, unfolding(crate::specs::Reading::reading_of, crate::specs::Files::EndsIn))]
pub fn request_of<S: Shelf>(
    alloc: Global,
    shelf: &mut S,
    words: &Items<Word>,
) -> Result<Request, Stop>
    ensures request { IfOk result IsRequest }
    ensures reads { Reads (reading_of words.now) (S.state shelf.old) (S.state shelf.new) result }
{
    match words.as_slice() {
        [word, words @ ..] => request_behind(alloc, shelf, word.as_str(), words),
        [] => Err(Stop::Early(Shown::BadWords)),
    }
}

/// The table of the commands, in the order in which they are told where words form none.
#[tactic(auto, unfolding(crate::specs::Reading::reading_behind, crate::specs::Files::EndsIn))]
fn request_behind<S: Shelf>(
    alloc: Global,
    shelf: &mut S,
    word: &str,
    words: &[Word],
) -> Result<Request, Stop>
    ensures request { IfOk result IsRequest }
    ensures reads { Reads (reading_behind word.now words.now) (S.state shelf.old)
        (S.state shelf.new) result }
{
    match word {
        "targets" => request_task(alloc, shelf, CaseTask::Targets, words),
        "flow" => request_task(alloc, shelf, CaseTask::Flow, words),
        "curves" => request_task(alloc, shelf, CaseTask::Curves, words),
        "design" => request_task(alloc, shelf, CaseTask::Design, words),
        "vertical" => request_vertical(alloc, shelf, words),
        "audit" => request_audit(alloc, shelf, words),
        "site" => request_site(alloc, shelf, words),
        "sweep" => request_sweep(alloc, shelf, words),
        "sample" => request_sample(shelf, words),
        "certify" => request_certify(alloc, shelf, words),
        "prices" => request_prices(alloc, shelf, words),
        _ => Err(Stop::Early(Shown::BadWords)),
    }
}

/// `targets CASE`, `flow CASE`, `curves CASE` and `design CASE`.
fn request_task<S: Shelf>(
    alloc: Global,
    shelf: &mut S,
    task: CaseTask,
    words: &[Word],
) -> Result<Request, Stop>
    ensures request { IfOk result IsRequest }
    ensures reads { Reads (task_form task words.now) (S.state shelf.old)
        (S.state shelf.new) result }
{
    let case = one_file(words)?;
    let case = take_completed(alloc, shelf, case)?;
    Ok(Request::OfCase { case, task })
}

/// `vertical CASE`. A case that is not standard is refused, and so is one with latent streams.
fn request_vertical<S: Shelf>(alloc: Global, shelf: &mut S, words: &[Word]) -> Result<Request, Stop>
    ensures request { IfOk result IsRequest }
    ensures reads { Reads (vertical_form words.now) (S.state shelf.old) (S.state shelf.new) result }
{
    let case = one_file(words)?;
    let case = take_completed(alloc, shelf, case)?;
    if !is_standard(&case) {
        return Err(Stop::Early(Shown::NotStandard));
    }
    if is_sensible(&case) {
        Ok(Request::Vertical { case })
    } else {
        Err(Stop::Early(Shown::Latent))
    }
}

/// `audit CASE NETWORK`. The network is read for the completed case, and only after it.
fn request_audit<S: Shelf>(alloc: Global, shelf: &mut S, words: &[Word]) -> Result<Request, Stop>
    ensures request { IfOk result IsRequest }
    ensures reads { Reads (audit_form words.now) (S.state shelf.old) (S.state shelf.new) result }
{
    let (case, network) = two_files(words)?;
    let case = take_completed(alloc, shelf, case)?;
    let network = take_network(alloc, shelf, &case, network)?;
    Ok(Request::Audit { case, network })
}

/// `site SITE`.
fn request_site<S: Shelf>(alloc: Global, shelf: &mut S, words: &[Word]) -> Result<Request, Stop>
    ensures request { IfOk result IsRequest }
    ensures reads { Reads (site_form words.now) (S.state shelf.old) (S.state shelf.new) result }
{
    let site = one_file(words)?;
    let site = take_site(alloc, shelf, site)?;
    Ok(Request::OfSite { site })
}

/// `sweep CASE FROM TO STEP WORKERS`. The sweep completes the case for each contribution.
fn request_sweep<S: Shelf>(alloc: Global, shelf: &mut S, words: &[Word]) -> Result<Request, Stop>
    ensures request { IfOk result IsRequest }
    ensures reads { Reads (sweep_form words.now) (S.state shelf.old) (S.state shelf.new) result }
{
    let (case, plan, workers) = sweep_words(words)?;
    let case = take_case(alloc, shelf, case)?;
    Ok(Request::Sweep {
        case,
        plan,
        workers,
    })
}

/// `sample NUMBER N`. No file is read.
#[tactic(auto, unfolding(crate::specs::Reading::sample_form, crate::specs::Files::EndsIn))]
fn request_sample<S: Shelf>(shelf: &S, words: &[Word]) -> Result<Request, Stop>
    ensures request { IfOk result IsRequest }
    ensures reads { Reads (sample_form words.now) (S.state shelf.now) (S.state shelf.now) result }
{
    let (number, count) = sample_words(words)?;
    Ok(Request::Sample { number, count })
}

/// `certify CASE REPORT`. The report is read behind the case.
fn request_certify<S: Shelf>(alloc: Global, shelf: &mut S, words: &[Word]) -> Result<Request, Stop>
    ensures request { IfOk result IsRequest }
    ensures reads { Reads (certify_form words.now) (S.state shelf.old) (S.state shelf.new) result }
{
    let (case, report) = two_files(words)?;
    let case = take_completed(alloc, shelf, case)?;
    let report = take_report(alloc, shelf, report)?;
    Ok(Request::Certify { case, report })
}

/// `prices CASE STUDY WORKERS`. The study is read for the completed case, and only after it.
fn request_prices<S: Shelf>(alloc: Global, shelf: &mut S, words: &[Word]) -> Result<Request, Stop>
    ensures request { IfOk result IsRequest }
    ensures reads { Reads (prices_form words.now) (S.state shelf.old) (S.state shelf.new) result }
{
    let (case, study, workers) = study_words(words)?;
    let case = take_completed(alloc, shelf, case)?;
    let study = take_study(alloc, shelf, &case, study)?;
    Ok(Request::Prices {
        case,
        study,
        workers,
    })
}

/// The case of a file, with the standard utilities where it has none of its own. The given one
/// ends here, so that no path of a caller has to drop both.
fn take_completed<S: Shelf>(alloc: Global, shelf: &mut S, name: &Word) -> Result<Case, Stop>
    ensures case { IfOk result (ReadsCompleted name.now (S.state shelf.old) (S.state shelf.new)) }
    ensures complete { IfOk result IsComplete }
    ensures stop { IfErr result
        (λ stop. IfEarly stop
        (NoText case_file name.now (S.state shelf.old) (S.state shelf.new))) }
{
    let given = take_case(alloc, shelf, name)?;
    Ok(complete(alloc, &given)?)
}

/// Whether a completed case has no latent stream.
fn is_sensible(case: &Case) -> bool
    requires { IsComplete case.now }
    ensures { IsTrue result ↔ AreSensible case.now.streams }
{
    !has_latent(case.streams.as_slice())
}
