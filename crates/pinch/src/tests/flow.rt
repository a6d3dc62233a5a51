//! Heat flows of least cost, with their prices, of cases that were worked by hand.

use super::support::{FOUR_STREAM, OWN_CONTRIBUTION, check_answers};
use std::test::Fail;

/// The heat flow of the four-stream table.
pub const FOUR_STREAM_FLOW: &str = "cost 20000
use HOT 20000
use COLD 60000
move HOT 1650 1650 C3 1450 1400 20000
move H2 1650 1450 C1 1400 850 60000
move H2 1450 1400 C1 1400 850 15000
move H4 1450 1400 C1 1400 850 7500
move H2 1400 850 C1 1400 850 27500
move H2 1400 850 C3 1400 850 137500
move H4 1400 850 C3 1400 850 82500
move H2 850 550 C1 850 550 60000
move H2 850 550 C1 550 250 30000
move H4 850 550 C1 550 250 30000
move H4 850 550 COLD 250 250 15000
move H4 550 250 COLD 250 250 45000
give HOT 1650 1650 1
give H2 1650 1450 1
give H2 1450 1400 1
give H4 1450 1400 1
give H2 1400 850 1
give H4 1400 850 1
give H2 850 550 0
give H4 850 550 0
give H4 550 250 0
take C3 1450 1400 1
take C1 1400 850 1
take C3 1400 850 1
take C1 850 550 0
take C1 550 250 0
take COLD 250 250 0
";

/// Cases, and their heat flows.
const WORKED: &[(&str, &str)] = &[
    (FOUR_STREAM, FOUR_STREAM_FLOW),
    // Hot streams only.
    (
        "contribution,,50,,,,\nhot,H,1000,500,10,,\n",
        "cost 0\nuse HOT 0\nuse COLD 5000\nmove H 950 450 COLD 450 450 5000\n\
         give HOT 950 950 0\ngive H 950 450 0\ntake COLD 450 450 0\n",
    ),
    // Cold streams only.
    (
        "contribution,,50,,,,\ncold,C,300,700,10,,\n",
        "cost 4000\nuse HOT 4000\nuse COLD 0\nmove HOT 750 750 C 750 350 4000\n\
         give HOT 750 750 1\ntake C 750 350 1\ntake COLD 350 350 1\n",
    ),
    // Two streams that never overlap.
    (
        "contribution,,50,,,,\nhot,H,400,300,10,,\ncold,C,600,700,10,,\n",
        "cost 1000\nuse HOT 1000\nuse COLD 1000\nmove HOT 750 750 C 750 650 1000\n\
         move H 350 250 COLD 250 250 1000\ngive HOT 750 750 1\ngive H 350 250 0\n\
         take C 750 650 1\ntake COLD 250 250 0\n",
    ),
    // The standard utilities, given by the file in the other order, at the ends of the stream.
    (
        "contribution,,50,,,,\nhot,H,1000,500,10,,\n\
         cooler,COLD,400,0,1000000000000,0,\nheater,HOT,1000,0,1000000000000,1,\n",
        "cost 0\nuse COLD 5000\nuse HOT 0\nmove H 950 450 COLD 450 450 5000\n\
         give HOT 950 950 0\ngive H 950 450 0\ntake COLD 450 450 0\n",
    ),
    (
        OWN_CONTRIBUTION,
        "cost 2500\nuse HOT 2500\nuse COLD 2500\nmove HOT 750 750 C 750 500 2500\n\
         move H 500 350 C 500 350 1500\nmove H 500 350 COLD 300 300 1500\n\
         move H 350 300 COLD 300 300 1000\ngive HOT 750 750 1\ngive H 500 350 0\n\
         give H 350 300 0\ntake C 750 500 1\ntake C 500 350 0\ntake COLD 300 300 0\n",
    ),
];

#[test]
fn flows_of_worked_tables(rt: HostRuntime) -> Result<(), Fail> {
    check_answers(&rt, "flow", 0, WORKED)
}
