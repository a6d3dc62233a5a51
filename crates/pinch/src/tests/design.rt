//! Designs of cases that were worked by hand, each accepted again.

use super::support::{FOUR_STREAM, OWN_CONTRIBUTION, check_answer, check_answers, check_audits};
use std::test::Fail;

/// The design of the four-stream table.
const FOUR_STREAM_DESIGN: &str = "# hot 20000 cold 60000 excess 0 cost 20000
exchanger E1 HOT C3 20000
exchanger E2 H2 C1 60000
exchanger E3 H2 C1 15000
exchanger E4 H4 C1 7500
exchanger E5 H2 C1 27500
exchanger E6 H2 C3 137500
exchanger E7 H4 C3 82500
exchanger E8 H2 C1 60000
exchanger E9 H2 C1 30000
exchanger E10 H4 C1 30000
exchanger E11 H4 COLD 15000
exchanger E12 H4 COLD 45000
split C1 .1 100 .2
pass .1 E9 .3
pass .2 E10 .4
mix .3 .4 .5
pass .5 E8 .6
split .6 .7 1200/11 .8
split .8 .9 300/11 .10
split .10 .11 150/11 .12
pass .7 E2 .13
pass .9 E3 .14
pass .11 E4 .15
pass .12 E5 .16
mix .13 .14 .17
mix .17 .15 .18
mix .18 .16 .19
end .19
pass H2 E2 .20
pass .20 E3 .21
split .21 .22 50 .23
pass .22 E5 .24
pass .23 E6 .25
mix .24 .25 .26
split .26 .27 200 .28
pass .27 E8 .29
pass .28 E9 .30
mix .29 .30 .31
end .31
split C3 .32 250 .33
pass .32 E6 .34
pass .33 E7 .35
mix .34 .35 .36
pass .36 E1 .37
end .37
pass H4 E4 .38
pass .38 E7 .39
split .39 .40 100 .41
pass .40 E10 .42
pass .41 E11 .43
mix .42 .43 .44
pass .44 E12 .45
end .45
";

/// Its audit: nothing is lost anywhere.
const FOUR_STREAM_AUDIT: &str = "accepted
hot 20000
cold 60000
excess 0
cost 20000
floor 20000
place 850
penalty exchanger E1 0
penalty exchanger E2 0
penalty exchanger E3 0
penalty exchanger E4 0
penalty exchanger E5 0
penalty exchanger E6 0
penalty exchanger E7 0
penalty exchanger E8 0
penalty exchanger E9 0
penalty exchanger E10 0
penalty exchanger E11 0
penalty exchanger E12 0
penalty mix 16 0
penalty mix 25 0
penalty mix 26 0
penalty mix 27 0
penalty mix 34 0
penalty mix 38 0
penalty mix 43 0
penalty mix 51 0
";

/// A hot and a cold stream that may not meet.
const APART: &str =
    "contribution,,50,,,,\nhot,H,1000,500,10,,\ncold,C,300,700,10,,\nforbid,H,C,,,,\n";

/// Each stream has its own utility, which it meets in two parts.
const APART_DESIGN: &str = "# hot 4000 cold 5000 excess 4000 cost 4000
exchanger E1 HOT C 3000
exchanger E2 HOT C 1000
exchanger E3 H COLD 2000
exchanger E4 H COLD 3000
pass H E3 .1
pass .1 E4 .2
end .2
pass C E2 .3
pass .3 E1 .4
end .4
";

/// A hot stream, a heater that has to give, and a cooler that takes the heat of both.
const OWN_UTILITIES: &str = "contribution,,50,,,,\nhot,H,1000,500,10,,\n\
     heater,S,450,100,1000,2,\ncooler,W,350,0,1000000000000,0,\n";

const OWN_UTILITIES_DESIGN: &str = "# hot 100 cold 5100 excess 100 cost 200
exchanger E1 H W 5000
exchanger E2 S W 100
pass H E1 .1
end .1
";

/// Cases, and their designs.
const WORKED: &[(&str, &str)] = &[
    (FOUR_STREAM, FOUR_STREAM_DESIGN),
    (APART, APART_DESIGN),
    (OWN_UTILITIES, OWN_UTILITIES_DESIGN),
    // Hot streams only.
    (
        "contribution,,50,,,,\nhot,H,1000,500,10,,\n",
        "# hot 0 cold 5000 excess 0 cost 0\nexchanger E1 H COLD 5000\npass H E1 .1\nend .1\n",
    ),
    // Cold streams only.
    (
        "contribution,,50,,,,\ncold,C,300,700,10,,\n",
        "# hot 4000 cold 0 excess 0 cost 4000\nexchanger E1 HOT C 4000\npass C E1 .1\nend .1\n",
    ),
    // Two streams that never overlap.
    (
        "contribution,,50,,,,\nhot,H,400,300,10,,\ncold,C,600,700,10,,\n",
        "# hot 1000 cold 1000 excess 0 cost 1000\nexchanger E1 HOT C 1000\n\
         exchanger E2 H COLD 1000\npass H E2 .1\nend .1\npass C E1 .2\nend .2\n",
    ),
    (
        OWN_CONTRIBUTION,
        "# hot 2500 cold 2500 excess 0 cost 2500\nexchanger E1 HOT C 2500\n\
         exchanger E2 H C 1500\nexchanger E3 H COLD 1500\nexchanger E4 H COLD 1000\n\
         split H .1 10 .2\npass .1 E2 .3\npass .2 E3 .4\nmix .3 .4 .5\n\
         pass .5 E4 .6\nend .6\npass C E2 .7\npass .7 E1 .8\nend .8\n",
    ),
];

#[test]
fn designs_of_worked_tables(rt: HostRuntime) -> Result<(), Fail> {
    check_answers(&rt, "design", 0, WORKED)
}

#[test]
fn what_has_no_heat_flow_has_no_design(rt: HostRuntime) -> Result<(), Fail> {
    let case = "contribution,,50,,,,\nhot,H,1000,500,10,,\ncold,C,300,400,10,,\n\
                cooler,CW,200,0,1000,0,\n";
    let cut = "infeasible\ncut supply 5000 2000\npart H 950 450\n";
    check_answer(&rt, "design", case, 1, cut)
}

/// Cases, their designs, and the audits of these.
const ACCEPTED: &[(&str, &str, &str)] = &[
    (FOUR_STREAM, FOUR_STREAM_DESIGN, FOUR_STREAM_AUDIT),
    // The hot utility does what the hot stream may not.
    (
        APART,
        APART_DESIGN,
        "accepted\nhot 4000\ncold 5000\nexcess 4000\ncost 4000\nfloor 4000\nplace 950\n\
         penalty exchanger E1 3000\npenalty exchanger E2 1000\npenalty exchanger E3 0\n\
         penalty exchanger E4 0\n",
    ),
    // The heat of the heater is lost: the streams need none.
    (
        OWN_UTILITIES,
        OWN_UTILITIES_DESIGN,
        "accepted\nhot 100\ncold 5100\nexcess 100\ncost 200\nfloor 200\nplace 950\n\
         penalty exchanger E1 0\npenalty exchanger E2 100\n",
    ),
];

#[test]
fn designs_are_accepted(rt: HostRuntime) -> Result<(), Fail> {
    check_audits(&rt, 0, ACCEPTED)
}
