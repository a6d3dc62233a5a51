//! Samples, of which one was worked by hand.

use super::support::{WORDS, check_count, check_end, outcome_of};
use std::process::Abort;
use std::test::Fail;
use std::thread::Threads;

/// A sample of these words ends with this status and this text, and no call of the shelf.
fn check_sample<R: Abort + Threads + Sync + AllocGlobal>(
    rt: &R,
    words: &[&str],
    status: u8,
    text: &str,
) -> Result<(), Fail> {
    let outcome = outcome_of(rt, words, &[])?;
    check_end(rt, &words, &outcome, status, text.as_bytes());
    check_count(rt, &words, outcome.calls, 0);
    Ok(())
}

#[test]
fn a_sample_has_its_targets_and_its_cost(rt: HostRuntime) -> Result<(), Fail> {
    // H1 falls from 1857 to 607 with 74 and could heat most of C1, which rises from 158 to 589
    // with 273. But the two are a forbidden match, so C1 has all of its heat from `HOT`.
    let text = "hot 25163\ncold 0\ncost 117663\n";
    check_sample(&rt, &["sample", "1", "1"], 0, text)?;
    // Zeros may lead.
    check_sample(&rt, &["sample", "0000000001", "01"], 0, text)
}

#[test]
fn the_largest_sample_is_the_same_each_time(rt: HostRuntime) -> Result<(), Fail> {
    for words in [["sample", "1", "12"], ["sample", "2147483646", "12"]] {
        let first = outcome_of(&rt, &words, &[])?;
        let second = outcome_of(&rt, &words, &[])?;
        check_end(&rt, &words, &first, 0, &second.written);
        check_end(&rt, &words, &second, 0, &first.written);
    }
    Ok(())
}

/// Numbers and counts that no sample has.
const NO_NUMBERS: &[(&str, &str)] = &[
    // A number, or a count, that is too small or too large.
    ("0", "1"),
    ("2147483647", "1"),
    ("1", "0"),
    ("1", "13"),
    // A sign, a blank, no digit, eleven digits, and a number beyond 32 bits.
    ("-1", "1"),
    ("1", "+1"),
    (" 1", "1"),
    ("1", ""),
    ("00000000001", "1"),
    ("1", "4294967297"),
];

#[test]
fn numbers_that_a_sample_cannot_have_are_no_command(rt: HostRuntime) -> Result<(), Fail> {
    for (number, count) in NO_NUMBERS {
        check_sample(&rt, &["sample", number, count], 2, WORDS)?;
    }
    Ok(())
}

/// Words of no sample.
const NO_SAMPLES: &[&[&str]] = &[
    &["sample"],
    &["sample", "1"],
    &["sample", "1", "1", "1"],
    &["Sample", "1", "1"],
];

#[test]
fn other_words_are_no_sample(rt: HostRuntime) -> Result<(), Fail> {
    for row in NO_SAMPLES {
        check_sample(&rt, row, 2, WORDS)?;
    }
    Ok(())
}
