//! The curves of cases that were worked by hand.

use super::support::{FOUR_STREAM, OWN_CONTRIBUTION, check_answers};
use std::test::Fail;

/// Cases, and their curves.
const WORKED: &[(&str, &str)] = &[
    (
        FOUR_STREAM,
        "hot 0 300\nhot 45000 600\nhot 450000 1500\nhot 510000 1700\n\
         cold 0 200\ncold 120000 800\ncold 450000 1350\ncold 470000 1400\n\
         net 20000 1650\nnet 80000 1450\nnet 82500 1400\nnet 0 850\n\
         net 75000 550\nnet 60000 250\n",
    ),
    (
        "contribution,,50,,,,\nhot,H,1000,500,10,,\n",
        "hot 0 500\nhot 5000 1000\nnet 0 950\nnet 5000 450\n",
    ),
    (
        OWN_CONTRIBUTION,
        "hot 0 400\nhot 4000 600\ncold 0 300\ncold 4000 700\n\
         net 2500 750\nnet 0 500\nnet 1500 350\nnet 2500 300\n",
    ),
];

#[test]
fn curves_of_worked_tables(rt: HostRuntime) -> Result<(), Fail> {
    check_answers(&rt, "curves", 0, WORKED)
}
