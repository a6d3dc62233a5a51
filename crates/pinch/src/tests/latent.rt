//! Streams that condense or evaporate at one temperature.

use super::support::{answer_of, check_answer, check_audit, check_end, check_front, outcome_of};
use std::test::Fail;

/// A hot stream above an evaporating one, which stands at the pinch. The place counts from itself.
pub const EVAPORATING: &str = "contribution,,50,,,,\nhot,H,1500,700,10,,\ncold,B,900,900,0,8000,\n";

pub const EVAPORATING_FLOW: &str = "cost 3000
use HOT 3000
use COLD 3000
move HOT 1450 1450 B 950 950 3000
move H 1450 950 B 950 950 5000
move H 950 650 COLD 650 650 3000
give HOT 1450 1450 1
give H 1450 950 1
give H 950 650 0
take B 950 950 1
take COLD 650 650 0
";

const EVAPORATING_DESIGN: &str = "# hot 3000 cold 3000 excess 0 cost 3000
exchanger E1 HOT B 3000
exchanger E2 H B 5000
exchanger E3 H COLD 3000
pass H E2 .1
pass .1 E3 .2
end .2
split B .3 3000 .4
pass .3 E1 .5
pass .4 E2 .6
mix .5 .6 .7
end .7
";

/// A condensing stream in the range of a cold one, also at the pinch. The place counts above itself.
pub const CONDENSING: &str =
    "contribution,,50,,,,\nhot,S,1000,1000,0,8000,\ncold,C,500,1300,10,,\n";

pub const CONDENSING_FLOW: &str = "cost 4000
use HOT 4000
use COLD 4000
move HOT 1350 1350 C 1350 950 4000
move S 950 950 C 950 550 4000
move S 950 950 COLD 550 550 4000
give HOT 1350 1350 1
give S 950 950 0
take C 1350 950 1
take C 950 550 0
take COLD 550 550 0
";

const CONDENSING_DESIGN: &str = "# hot 4000 cold 4000 excess 0 cost 4000
exchanger E1 HOT C 4000
exchanger E2 S C 4000
exchanger E3 S COLD 4000
split S .1 4000 .2
pass .1 E2 .3
pass .2 E3 .4
mix .3 .4 .5
end .5
pass C E2 .6
pass .6 E1 .7
end .7
";

/// Two latent streams at one level.
const LEVEL: &str = "contribution,,50,,,,\nhot,H,1000,1000,0,5000,\ncold,B,900,900,0,8000,\n";

/// What takes just a watt, and two hot utilities.
const ONE_WATT: &str =
    "contribution,,50,,,,\ncold,B,900,900,0,1,\nheater,S,2000,0,9,1,\nheater,T,2000,0,9,1,\n";

/// Commands with their cases, statuses and texts.
const ANSWERS: &[(&str, &str, u8, &str)] = &[
    (
        "targets",
        EVAPORATING,
        0,
        "hot 3000\ncold 3000\npinch 950\n",
    ),
    ("targets", CONDENSING, 0, "hot 4000\ncold 4000\npinch 950\n"),
    ("targets", LEVEL, 0, "hot 3000\ncold 0\npinch none\n"),
    // The condensing stream stands above all others.
    (
        "targets",
        "contribution,,50,,,,\nhot,S,1000,1000,0,5000,\ncold,C,300,700,10,,\n",
        0,
        "hot 0\ncold 1000\npinch none\n",
    ),
    // A larger contribution of its own brings the condensing stream below the other.
    (
        "targets",
        "contribution,,50,,,,\nhot,S,1000,1000,0,5000,100\ncold,B,900,900,0,8000,\n",
        0,
        "hot 8000\ncold 5000\npinch none\n",
    ),
    // The largest load.
    (
        "targets",
        "contribution,,50,,,,\ncold,B,900,900,0,10000000000,\n",
        0,
        "hot 10000000000\ncold 0\npinch none\n",
    ),
    ("flow", EVAPORATING, 0, EVAPORATING_FLOW),
    ("flow", CONDENSING, 0, CONDENSING_FLOW),
    (
        "curves",
        EVAPORATING,
        0,
        "hot 0 700\nhot 8000 1500\ncold 0 900\ncold 8000 900\n\
         net 3000 1450\nnet 8000 950\nnet 0 950\nnet 3000 650\n",
    ),
    (
        "curves",
        CONDENSING,
        0,
        "hot 0 1000\nhot 8000 1000\ncold 0 500\ncold 8000 1300\n\
         net 4000 1350\nnet 0 950\nnet 8000 950\nnet 4000 550\n",
    ),
    // A load at the supply of another stream, and equal loads at one level.
    (
        "curves",
        "contribution,,50,,,,\nhot,H,1000,500,10,,\nhot,S,1000,1000,0,2000,\n\
         cold,B,900,900,0,2000,\n",
        0,
        "hot 0 500\nhot 5000 1000\nhot 7000 1000\ncold 0 900\ncold 2000 900\n\
         net 0 950\nnet 0 950\nnet 5000 450\n",
    ),
    ("design", EVAPORATING, 0, EVAPORATING_DESIGN),
    ("design", CONDENSING, 0, CONDENSING_DESIGN),
    ("vertical", EVAPORATING, 3, "case has latent streams\n"),
    // That a case is not standard is said first.
    (
        "vertical",
        "contribution,,50,,,,\nhot,H,1500,700,10,,\ncold,B,900,900,0,8000,\nforbid,H,B,,,,\n",
        3,
        "case not standard\n",
    ),
];

#[test]
fn latent_streams_are_answered(rt: HostRuntime) -> Result<(), Fail> {
    for (command, case, status, text) in ANSWERS {
        check_answer(&rt, command, case, *status, text)?;
    }
    let words = ["sweep", "plant.csv", "0", "100", "50", "2"];
    let outcome = outcome_of(&rt, &words, &[("plant.csv", EVAPORATING.as_bytes())])?;
    let text = b"row 0 2000 2000 2000\nrow 50 3000 3000 3000\nrow 100 4000 4000 4000\n";
    check_end(&rt, &words, &outcome, 0, text);
    Ok(())
}

/// Commands with their cases, a further row of each, their statuses, and how their texts begin.
const FRONTS: &[(&str, &str, &str, u8, &str)] = &[
    // All that evaporates is heated by the hot utility.
    (
        "flow",
        EVAPORATING,
        "forbid,H,B,,,,\n",
        0,
        "cost 8000\nuse HOT 8000\nuse COLD 8000\n",
    ),
    (
        "design",
        EVAPORATING,
        "forbid,H,B,,,,\n",
        0,
        "# hot 8000 cold 8000 excess 5000 cost 8000\n",
    ),
    // Steam that condenses just at the level, and a tenth of a degree below it.
    (
        "flow",
        EVAPORATING,
        "heater,S,1000,0,1000000000000,2,\n",
        0,
        "cost 6000\nuse S 3000\nuse COLD 3000\n",
    ),
    (
        "design",
        EVAPORATING,
        "heater,S,999,0,1000000000000,2,\n",
        1,
        "infeasible\ncut demand 8000 5000\npart B 950 950\n",
    ),
    // Heat of the condensing stream is sold, and what it heated is heated by the hot utility.
    (
        "flow",
        CONDENSING,
        "cooler,W,900,0,5000,-2,\n",
        0,
        "cost -5000\nuse W 5000\nuse HOT 5000\n",
    ),
];

#[test]
fn latent_streams_have_heat_flows_with_any_utilities(rt: HostRuntime) -> Result<(), Fail> {
    let alloc = rt.alloc();
    for (command, streams, more, status, front) in FRONTS {
        let case = format!(in alloc; "{streams}{more}")?;
        let answer = answer_of(&rt, command, case.as_str())?;
        check_front(&rt, &case, &answer, *status, front);
    }
    Ok(())
}

/// Cases with their networks, and the statuses and texts of the audits.
///
/// Of a watt the part 1/3^15 is given first, and then branches of 1/2^30 and the like have heights
/// that are outside the limits of fractions.
const AUDITS: &[(&str, &str, u8, &str)] = &[
    (
        EVAPORATING,
        EVAPORATING_DESIGN,
        0,
        "accepted\nhot 3000\ncold 3000\nexcess 0\ncost 3000\nfloor 3000\nplace 950\n\
         penalty exchanger E1 0\npenalty exchanger E2 0\npenalty exchanger E3 0\n\
         penalty mix 10 0\n",
    ),
    (
        CONDENSING,
        CONDENSING_DESIGN,
        0,
        "accepted\nhot 4000\ncold 4000\nexcess 0\ncost 4000\nfloor 4000\nplace 950\n\
         penalty exchanger E1 0\npenalty exchanger E2 0\npenalty exchanger E3 0\n\
         penalty mix 7 0\n",
    ),
    // More than the load.
    (
        EVAPORATING,
        "exchanger E1 HOT B 8800\npass B E1 a\nend a\n",
        1,
        "rejected line 2 Overdrawn found 11/10 wanted 1\n",
    ),
    (
        CONDENSING,
        "exchanger E1 S COLD 8800\npass S E1 a\nend a\n",
        1,
        "rejected line 2 Overdrawn found -1/10 wanted 0\n",
    ),
    (
        EVAPORATING,
        "split B a 8000 b\n",
        1,
        "rejected line 1 Overdrawn found 8000 wanted 8000\n",
    ),
    // Less than the load.
    (
        EVAPORATING,
        "exchanger E1 HOT B 4000\npass B E1 a\nend a\n",
        1,
        "rejected line 3 MissedTarget found 1/2 wanted 1\n",
    ),
    (
        EVAPORATING,
        "split B a 3000 b\nend a\n",
        1,
        "rejected line 2 Unfinished found 3000 wanted 8000\n",
    ),
    (
        ONE_WATT,
        "",
        1,
        "rejected stream B Unfinished found 0 wanted 1\n",
    ),
    // Heat that passes the place: a cooler takes it above, a heater gives it below. The latent
    // stream counts above its place in the first case, and below it in the second.
    (
        EVAPORATING,
        "exchanger E1 HOT B 4000\nexchanger E2 H B 4000\nexchanger E3 H COLD 4000\n\
         pass H E2 a\npass a E3 b\nend b\npass B E1 c\npass c E2 d\nend d\n",
        0,
        "accepted\nhot 4000\ncold 4000\nexcess 1000\ncost 4000\nfloor 3000\nplace 950\n\
         penalty exchanger E1 0\npenalty exchanger E2 0\npenalty exchanger E3 1000\n",
    ),
    (
        CONDENSING,
        "exchanger E1 HOT C 5000\nexchanger E2 S C 3000\nexchanger E3 S COLD 5000\n\
         pass S E2 a\npass a E3 b\nend b\npass C E2 c\npass c E1 d\nend d\n",
        0,
        "accepted\nhot 5000\ncold 5000\nexcess 1000\ncost 5000\nfloor 4000\nplace 950\n\
         penalty exchanger E1 1000\npenalty exchanger E2 0\npenalty exchanger E3 0\n",
    ),
    // Two latent streams against each other. One is divided, passed in parts, and mixed where
    // one branch has taken 5/7 of its load and the other nothing.
    (
        LEVEL,
        "exchanger E1 H B 5000\nexchanger E2 HOT B 3000\npass H E1 a\nend a\n\
         split B c 7000 d\npass c E1 e\nmix d e f\npass f E2 g\nend g\n",
        0,
        "accepted\nhot 3000\ncold 0\nexcess 0\ncost 3000\nfloor 3000\nplace 950\n\
         penalty exchanger E1 0\npenalty exchanger E2 0\npenalty mix 7 0\n",
    ),
    // A utility at the least approach, and a tenth of a degree nearer.
    (
        "contribution,,50,,,,\ncold,B,900,900,0,8000,\nheater,S,1000,0,10000,1,\n",
        "exchanger E1 S B 8000\npass B E1 a\nend a\n",
        0,
        "accepted\nhot 8000\ncold 0\nexcess 0\ncost 8000\nfloor 8000\nplace 950\n\
         penalty exchanger E1 0\n",
    ),
    (
        "contribution,,50,,,,\ncold,B,900,900,0,8000,\nheater,S,999,0,10000,1,\n",
        "exchanger E1 S B 8000\npass B E1 a\nend a\n",
        1,
        "rejected exchanger E1 HotEndApproach found 999 wanted 1000\n",
    ),
    // What is taken of the load, and the state behind it.
    (
        "contribution,,50,,,,\ncold,B,900,900,0,3,\n",
        "exchanger E1 HOT B 1/281474976710655\npass B E1 a\nend a\n",
        9,
        "too fine line 2 step 1\n",
    ),
    (
        ONE_WATT,
        "exchanger E1 S B 1/281474976710655\nexchanger E2 S B 1/281474976710656\n\
         pass B E1 a\npass a E2 b\nend b\n",
        9,
        "too fine line 4 step 2\n",
    ),
    // The height of a cold branch behind its exchanger, and before it.
    (
        ONE_WATT,
        "exchanger E1 S B 1/14348907\nexchanger E2 T B 1/2147483648\n\
         exchanger E3 T B 1073741823/2147483648\nexchanger E4 S B 14348905/28697814\n\
         pass B E1 a\nsplit a b 1/1073741824 c\npass b E2 d\npass c E3 e\nmix d e f\n\
         pass f E4 g\nend g\n",
        0,
        "accepted\nhot 1\ncold 0\nexcess 0\ncost 1\nfloor 1\nplace 950\n\
         penalties too fine exchanger E2 step 7\n",
    ),
    (
        ONE_WATT,
        "exchanger E1 S B 2391866/14348907\nexchanger E2 T B 1/14348907\n\
         exchanger E3 T B 1073741733/1305750537\nexchanger E4 S B 1/91\n\
         pass B E1 a\nsplit a b 91/1073741824 c\npass b E2 d\npass c E3 e\nmix d e f\n\
         pass f E4 g\nend g\n",
        0,
        "accepted\nhot 1\ncold 0\nexcess 0\ncost 1\nfloor 1\nplace 950\n\
         penalties too fine exchanger E2 step 9\n",
    ),
    // That of a hot branch before its exchanger.
    (
        "contribution,,50,,,,\nhot,H,1000,1000,0,1,\ncold,C,300,400,10,,\n\
         cooler,V,100,0,9,0,\ncooler,W,100,0,9,0,\n",
        "exchanger E1 H V 1/14348907\nexchanger E2 H W 1/2147483648\n\
         exchanger E3 H W 1073741823/2147483648\nexchanger E4 H V 14348905/28697814\n\
         exchanger E5 HOT C 1000\n\
         pass H E1 a\nsplit a b 1/1073741824 c\npass b E2 d\npass c E3 e\nmix d e f\n\
         pass f E4 g\nend g\npass C E5 h\nend h\n",
        0,
        "accepted\nhot 1000\ncold 1\nexcess 1\ncost 1000\nfloor 999\nplace 350\n\
         penalties too fine exchanger E2 step 2\n",
    ),
    // Those of the branches of a mix.
    (
        ONE_WATT,
        "exchanger E1 S B 1/14348907\nexchanger E2 S B 14348906/14348907\n\
         pass B E1 a\nsplit a b 1/1073741824 c\nmix b c d\npass d E2 e\nend e\n",
        0,
        "accepted\nhot 1\ncold 0\nexcess 0\ncost 1\nfloor 1\nplace 950\n\
         penalties too fine line 5 step 2\n",
    ),
    (
        ONE_WATT,
        "exchanger E1 S B 1/14348907\nexchanger E2 S B 14348906/14348907\n\
         pass B E1 a\nsplit a b 14348907/1073741824 c\nmix b c d\npass d E2 e\nend e\n",
        0,
        "accepted\nhot 1\ncold 0\nexcess 0\ncost 1\nfloor 1\nplace 950\n\
         penalties too fine line 5 step 4\n",
    ),
];

#[test]
fn networks_of_latent_streams_are_audited(rt: HostRuntime) -> Result<(), Fail> {
    for (case, network, status, text) in AUDITS {
        check_audit(&rt, case, network, *status, text)?;
    }
    Ok(())
}
