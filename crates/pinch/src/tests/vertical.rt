//! Vertical designs of cases that were worked by hand, each accepted again.

use super::support::{FOUR_STREAM, OWN_CONTRIBUTION, check_answer, check_audits};
use std::test::Fail;

/// The vertical design of the four-stream table.
const FOUR_STREAM_DESIGN: &str = "# hot 20000 cold 60000 excess 0 cost 20000
exchanger E1 HOT C3 20000
exchanger E2 H2 C1 20000
exchanger E3 H2 C3 40000
exchanger E4 H2 C1 90000
exchanger E5 H2 C3 90000
exchanger E6 H4 C3 90000
exchanger E7 H2 C1 80000
exchanger E8 H4 C1 40000
exchanger E9 H2 COLD 10000
exchanger E10 H4 COLD 5000
exchanger E11 H4 COLD 45000
split C1 .1 400/3 .2
pass .1 E7 .3
pass .2 E8 .4
mix .3 .4 .5
pass .5 E4 .6
pass .6 E2 .7
end .7
split H2 .8 100 .9
pass .8 E2 .10
pass .9 E3 .11
mix .10 .11 .12
split .12 .13 150 .14
pass .13 E4 .15
pass .14 E5 .16
mix .15 .16 .17
pass .17 E7 .18
pass .18 E9 .19
end .19
split C3 .20 200 .21
pass .20 E5 .22
pass .21 E6 .23
mix .22 .23 .24
pass .24 E3 .25
pass .25 E1 .26
end .26
pass H4 E6 .27
pass .27 E8 .28
pass .28 E10 .29
pass .29 E11 .30
end .30
";

/// Its audit: nothing is lost anywhere.
const FOUR_STREAM_AUDIT: &str = "accepted
hot 20000
cold 60000
excess 0
cost 20000
floor 20000
place 850
penalty exchanger E1 0
penalty exchanger E2 0
penalty exchanger E3 0
penalty exchanger E4 0
penalty exchanger E5 0
penalty exchanger E6 0
penalty exchanger E7 0
penalty exchanger E8 0
penalty exchanger E9 0
penalty exchanger E10 0
penalty exchanger E11 0
penalty mix 15 0
penalty mix 22 0
penalty mix 26 0
penalty mix 33 0
";

/// A hot stream that heats two cold ones with equal ends.
const ONE_AND_TWO: &str =
    "contribution,,50,,,,\nhot,H,1000,500,10,,\ncold,C,300,500,5,,\ncold,D,300,500,10,,\n";

const ONE_AND_TWO_DESIGN: &str = "# hot 0 cold 2000 excess 0 cost 0
exchanger E1 H C 1000
exchanger E2 H D 2000
exchanger E3 H COLD 2000
split H .1 10/3 .2
pass .1 E1 .3
pass .2 E2 .4
mix .3 .4 .5
pass .5 E3 .6
end .6
pass C E1 .7
end .7
pass D E2 .8
end .8
";

/// Two streams with equal ends on each side.
const TWO_AND_TWO: &str = "contribution,,50,,,,
hot,H,1000,500,10,,
hot,K,1000,500,5,,
cold,C,400,800,5,,
cold,D,400,800,10,,
";

const TWO_AND_TWO_DESIGN: &str = "# hot 0 cold 1500 excess 0 cost 0
exchanger E1 H C 2000
exchanger E2 H D 2000
exchanger E3 K D 2000
exchanger E4 H COLD 1000
exchanger E5 K COLD 500
split H .1 5 .2
pass .1 E1 .3
pass .2 E2 .4
mix .3 .4 .5
pass .5 E4 .6
end .6
pass K E3 .7
pass .7 E5 .8
end .8
pass C E1 .9
end .9
split D .10 5 .11
pass .10 E2 .12
pass .11 E3 .13
mix .12 .13 .14
end .14
";

/// Cases, their vertical designs, and the audits of these.
const WORKED: &[(&str, &str, &str)] = &[
    (FOUR_STREAM, FOUR_STREAM_DESIGN, FOUR_STREAM_AUDIT),
    (
        ONE_AND_TWO,
        ONE_AND_TWO_DESIGN,
        "accepted\nhot 0\ncold 2000\nexcess 0\ncost 0\nfloor 0\nplace 950\n\
         penalty exchanger E1 0\npenalty exchanger E2 0\npenalty exchanger E3 0\n\
         penalty mix 7 0\n",
    ),
    (
        TWO_AND_TWO,
        TWO_AND_TWO_DESIGN,
        "accepted\nhot 0\ncold 1500\nexcess 0\ncost 0\nfloor 0\nplace 950\n\
         penalty exchanger E1 0\npenalty exchanger E2 0\npenalty exchanger E3 0\n\
         penalty exchanger E4 0\npenalty exchanger E5 0\npenalty mix 9 0\npenalty mix 20 0\n",
    ),
    // One cold stream, which only the hot utility can heat.
    (
        "contribution,,50,,,,\ncold,C,300,700,10,,\n",
        "# hot 4000 cold 0 excess 0 cost 4000\nexchanger E1 HOT C 4000\npass C E1 .1\nend .1\n",
        "accepted\nhot 4000\ncold 0\nexcess 0\ncost 4000\nfloor 4000\nplace 350\npenalty exchanger E1 0\n",
    ),
    // The standard utilities, the cold one first.
    (
        "contribution,,50,,,,\ncooler,COLD,300,0,1000000000000,0,\n\
         heater,HOT,800,0,1000000000000,1,\ncold,C,300,700,10,,\n",
        "# hot 4000 cold 0 excess 0 cost 4000\nexchanger E1 HOT C 4000\npass C E1 .1\nend .1\n",
        "accepted\nhot 4000\ncold 0\nexcess 0\ncost 4000\nfloor 4000\nplace 350\npenalty exchanger E1 0\n",
    ),
    // A gap between the hot streams, and no utility at all.
    (
        "contribution,,50,,,,\nhot,H,1000,900,10,,\nhot,K,500,400,10,,\ncold,C,200,400,10,,\n",
        "# hot 0 cold 0 excess 0 cost 0\nexchanger E1 H C 1000\nexchanger E2 K C 1000\n\
         pass H E1 .1\nend .1\npass K E2 .2\nend .2\npass C E2 .3\npass .3 E1 .4\nend .4\n",
        "accepted\nhot 0\ncold 0\nexcess 0\ncost 0\nfloor 0\nplace 950\n\
         penalty exchanger E1 0\npenalty exchanger E2 0\n",
    ),
    (
        OWN_CONTRIBUTION,
        "# hot 2500 cold 2500 excess 0 cost 2500\nexchanger E1 HOT C 2500\n\
         exchanger E2 H C 1500\nexchanger E3 H COLD 2500\npass H E2 .1\npass .1 E3 .2\n\
         end .2\npass C E2 .3\npass .3 E1 .4\nend .4\n",
        "accepted\nhot 2500\ncold 2500\nexcess 0\ncost 2500\nfloor 2500\nplace 500\n\
         penalty exchanger E1 0\npenalty exchanger E2 0\npenalty exchanger E3 0\n",
    ),
];

#[test]
fn vertical_designs_are_drawn_and_accepted(rt: HostRuntime) -> Result<(), Fail> {
    for (case, network, _) in WORKED {
        check_answer(&rt, "vertical", case, 0, network)?;
    }
    check_audits(&rt, 0, WORKED)
}

/// Cases that are not standard.
const NOT_STANDARD: &[&str] = &[
    // A forbidden match.
    "contribution,,50,,,,\nhot,H,1000,500,10,,\ncold,C,300,700,10,,\nforbid,H,C,,,,\n",
    // A heater at another price than that of `HOT`.
    "contribution,,50,,,,\ncold,C,300,700,10,,\nheater,HOT,800,0,1000000000000,2,\n",
    // `HOT` as it is added, but for its contribution.
    "contribution,,50,,,,\ncold,C,300,700,10,,\nheater,HOT,800,0,1000000000000,1,51\n",
];

#[test]
fn cases_that_are_not_standard_are_refused(rt: HostRuntime) -> Result<(), Fail> {
    for case in NOT_STANDARD {
        check_answer(&rt, "vertical", case, 3, "case not standard\n")?;
    }
    Ok(())
}
