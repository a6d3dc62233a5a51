//! The words behind the word of a command: names of files, and numbers.
ghost use Rattle.std.specs.Prelude.{◌≡◌, IfOk, IfSome, MatchResult, None, Some};
ghost use Rattle.study.specs.Plan.{IsSweepPlan};
ghost use Rattle.commands.specs.Forms.{one_file, sample_words, study_words, sweep_numbers, sweep_words, two_files};
ghost use Rattle.commands.specs.Numbers.{CanWork, IsSampleOf};

use crate::numbers::{plan_of, sample_count_of, sample_number_of, workers_of};
use crate::word::Word;
use study::SweepPlan;

/// The words form no command.
#[derive(Debug, Drop)]
pub struct NoCommand;

/// The name of a file, where the words are just that; it is not empty.
pub fn one_file(words: &[Word]) -> Result<&Word, NoCommand>
    ensures { MatchResult result (λ name. one_file words.now ≡ Some name.now)
        (λ _. one_file words.now ≡ None) }
{
    match words {
        [name] if !name.as_str().is_empty() => Ok(name),
        _ => Err(NoCommand),
    }
}

/// The names of two files, where the words are just those; none is empty.
pub fn two_files(words: &[Word]) -> Result<(&Word, &Word), NoCommand>
    ensures { MatchResult result (λ names. two_files words.now ≡ Some (names.0.now, names.1.now))
        (λ _. two_files words.now ≡ None) }
{
    match words {
        [first, second] if !first.as_str().is_empty() && !second.as_str().is_empty() => {
            Ok((first, second))
        }
        _ => Err(NoCommand),
    }
}

/// The plan of a sweep and its number of workers, where the words are just their four numbers.
fn sweep_numbers(words: &[Word]) -> Option<(SweepPlan, u32)>
    ensures numbers { result ≡ sweep_numbers words.now }
    ensures plan { IfSome result (λ found. IsSweepPlan found.0) }
    ensures workers { IfSome result (λ found. CanWork found.1) }
{
    match words {
        [from, to, step, workers] => plan_of(from, to, step).zip(workers_of(workers)),
        _ => None,
    }
}

/// The name of a case file, which is not empty, and behind it the numbers of a sweep.
pub fn sweep_words(words: &[Word]) -> Result<(&Word, SweepPlan, u32), NoCommand>
    ensures words { MatchResult result
        (λ found. sweep_words words.now ≡ Some (found.0.now, found.1, found.2))
        (λ _. sweep_words words.now ≡ None) }
    ensures plan { IfOk result (λ found. IsSweepPlan found.1) }
    ensures workers { IfOk result (λ found. CanWork found.2) }
{
    match words {
        [case, numbers @ ..] if !case.as_str().is_empty() => match sweep_numbers(numbers) {
            Some((plan, workers)) => Ok((case, plan, workers)),
            None => Err(NoCommand),
        },
        _ => Err(NoCommand),
    }
}

/// The names of a case file and of a study file, of which none is empty, and a number of workers,
/// where the words are just those.
pub fn study_words(words: &[Word]) -> Result<(&Word, &Word, u32), NoCommand>
    ensures words { MatchResult result
        (λ found. study_words words.now ≡ Some (found.0.now, found.1.now, found.2))
        (λ _. study_words words.now ≡ None) }
    ensures workers { IfOk result (λ found. CanWork found.2) }
{
    match words {
        [case, study, workers] if !case.as_str().is_empty() && !study.as_str().is_empty() => {
            match workers_of(workers) {
                Some(workers) => Ok((case, study, workers)),
                None => Err(NoCommand),
            }
        }
        _ => Err(NoCommand),
    }
}

/// The number of a sample and how many streams it has on each side, where the words are just those.
pub fn sample_words(words: &[Word]) -> Result<(u32, u32), NoCommand>
    ensures words { MatchResult result (λ found. sample_words words.now ≡ Some found)
        (λ _. sample_words words.now ≡ None) }
    ensures sample { IfOk result (λ found. IsSampleOf found.0 found.1) }
{
    match words {
        [number, count] => match (sample_number_of(number), sample_count_of(count)) {
            (Some(number), Some(count)) => Ok((number, count)),
            _ => Err(NoCommand),
        },
        _ => Err(NoCommand),
    }
}
