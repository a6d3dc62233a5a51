//! Words that form no command.

use super::support::{FOUR_STREAM, WORDS, check_count, check_end, outcome_of};
use std::test::Fail;

/// Words of no command.
const NO_COMMANDS: &[&[&str]] = &[
    &[],
    &["targets"],
    &["vertical"],
    &["targets", ""],
    &["", "plant.csv"],
    &["Targets", "plant.csv"],
    &["targets ", "plant.csv"],
    &["flow", "plant.csv", "plant.csv"],
    &["plant.csv", "curves"],
    &["audit", "plant.csv"],
    &["audit", "plant.csv", ""],
    &["audit", "", "plant.csv"],
    &["audit", "plant.csv", "plant.csv", "plant.csv"],
    &["certify", "plant.csv"],
    &["certify", "plant.csv", ""],
    &["certify", "", "plant.csv"],
    &["certify", "plant.csv", "plant.csv", "plant.csv"],
];

#[test]
fn words_that_form_no_command_are_told(rt: HostRuntime) -> Result<(), Fail> {
    let files = [("plant.csv", FOUR_STREAM.as_bytes())];
    for row in NO_COMMANDS {
        let outcome = outcome_of(&rt, row, &files)?;
        check_end(&rt, &row, &outcome, 2, WORDS.as_bytes());
        check_count(&rt, &row, outcome.calls, 0);
    }
    Ok(())
}
