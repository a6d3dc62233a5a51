//! The numbers of a sweep and of a sample, as words spell them.
ghost use Rattle.std.specs.Prelude.{◌≡◌, ◌≤◌, IfSome};
ghost use Rattle.study.specs.Plan.{IsSweepPlan};
ghost use Rattle.commands.specs.Numbers.{CanWork, IsSampleCount, IsSampleNumber, number_within, plan_of, sample_count_of, sample_number_of, workers_of};

use crate::word::Word;
use stream_case::{MOST_CONTRIBUTION, natural_of};
use study::{
    LONGEST_STEP, MOST_ROWS, MOST_SAMPLE_NUMBER, MOST_SAMPLE_STREAMS, MOST_WORKERS, SweepPlan,
};

/// The most digits of a number.
const MOST_DIGITS: usize = 10;

/// The greatest contribution of a sweep, in tenths of °C.
const MOST_END: u32 = MOST_CONTRIBUTION as u32;

/// The greatest step of a sweep, in tenths of °C.
const MOST_STEP: u32 = LONGEST_STEP as u32;

/// The number that a word of 1 to 10 digits spells, if it lies from `least` to `most`.
fn number_within(least: u32, most: u32, word: &Word) -> Option<u32>
    ensures number { result ≡ number_within least most word.now }
    ensures within { IfSome result (λ number. (least ≤ number) × (number ≤ most)) }
{
    let number = natural_of(word.as_str().as_bytes(), MOST_DIGITS)?;
    if u128::from(least) <= number && number <= u128::from(most) {
        Some(number as u32)
    } else {
        None
    }
}

/// The plan that these words spell, if a sweep can have it.
pub fn plan_of(from: &Word, to: &Word, step: &Word) -> Option<SweepPlan>
    ensures plan { result ≡ plan_of from.now to.now step.now }
    ensures runs { IfSome result IsSweepPlan }
{
    let from = number_within(0, MOST_END, from)?;
    let to = number_within(0, MOST_END, to)?;
    let step = number_within(1, MOST_STEP, step)?;
    if from <= to && to < from + MOST_ROWS * step {
        Some(SweepPlan {
            from: from as i32,
            to: to as i32,
            step: step as i32,
        })
    } else {
        None
    }
}

/// How many workers a word asks for, if a sweep can have so many.
pub fn workers_of(word: &Word) -> Option<u32>
    ensures workers { result ≡ workers_of word.now }
    ensures work { IfSome result CanWork }
{
    number_within(1, MOST_WORKERS, word)
}

/// The number of a sample that a word spells, if there is a sample of it.
pub fn sample_number_of(word: &Word) -> Option<u32>
    ensures number { result ≡ sample_number_of word.now }
    ensures within { IfSome result IsSampleNumber }
{
    number_within(1, MOST_SAMPLE_NUMBER, word)
}

/// How many streams of each side a word asks for, if a sample can have so many.
pub fn sample_count_of(word: &Word) -> Option<u32>
    ensures count { result ≡ sample_count_of word.now }
    ensures within { IfSome result IsSampleCount }
{
    number_within(1, MOST_SAMPLE_STREAMS, word)
}
