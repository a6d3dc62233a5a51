//! Cases without a heat flow, with the cuts that prove it.

use super::support::{check_answer, check_answers};
use std::test::Fail;

/// Cases, and their cuts.
const CUTS: &[(&str, &str)] = &[
    // The cooling water takes 1000 W of the stream's 5000, and the cold stream another 1000.
    (
        "contribution,,50,,,,\nhot,H,1000,500,10,,\ncold,C,300,400,10,,\n\
         cooler,CW,200,0,1000,0,\n",
        "infeasible\ncut supply 5000 2000\npart H 950 450\n",
    ),
    // The steam is too cold for the upper part of the stream.
    (
        "contribution,,50,,,,\ncold,C,200,500,10,,\nheater,ST,400,0,1000000000000,1,\n",
        "infeasible\ncut demand 2000 0\npart C 550 350\n",
    ),
    // Two cold streams, and steam for a sixth of them.
    (
        "contribution,,50,,,,\ncold,C,200,500,10,,\ncold,D,300,600,10,,\n\
         heater,ST,1000,0,1000,1,\n",
        "infeasible\ncut demand 6000 1000\npart D 650 550\npart C 550 350\n\
         part D 550 350\npart C 350 250\n",
    ),
    // Two hot streams, and cooling water for a tenth of them.
    (
        "contribution,,50,,,,\nhot,H,1000,500,10,,\nhot,G,900,400,10,,\n\
         cooler,CW,200,0,1000,0,\n",
        "infeasible\ncut supply 10000 1000\npart H 950 850\npart H 850 450\n\
         part G 850 450\npart G 450 350\n",
    ),
    // A heater has to give what no cooler may take: it is itself the cut.
    (
        "contribution,,50,,,,\ncold,C,200,500,10,,\nheater,A,1000,0,1000000000000,1,\n\
         heater,B,250,700,900,-5,\ncooler,W,300,0,1000000000000,0,\n",
        "infeasible\ncut supply 700 0\npart B 200 200\n",
    ),
];

#[test]
fn cases_without_a_heat_flow(rt: HostRuntime) -> Result<(), Fail> {
    check_answers(&rt, "flow", 1, CUTS)
}

#[test]
fn every_match_is_forbidden(rt: HostRuntime) -> Result<(), Fail> {
    let case = "contribution,,50,,,,\nhot,H,1000,500,10,,\nheater,ST,1500,0,1000,1,\n\
                cooler,CW,200,0,1000000000000,0,\nforbid,H,CW,,,,\nforbid,ST,CW,,,,\n";
    let text = "infeasible\ncut supply 5000 0\npart H 950 450\n";
    check_answer(&rt, "flow", case, 1, text)
}
