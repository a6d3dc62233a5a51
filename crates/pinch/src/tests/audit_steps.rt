//! Numbers whose denominators are 2^48 or 2^48 - 1: each is within the limits of a fraction, and
//! their sum is not.

use super::support::{check_audit, check_audits};
use std::test::Fail;

/// Networks of one case, their statuses, and their audits.
const FINDINGS: &[(&str, u8, &str)] = &[
    (
        "exchanger E1 H COLD 1/281474976710655\npass H E1 a\nend a\n",
        9,
        "too fine line 2 step 1\n",
    ),
    // A rejection before a step that is too fine, and behind one.
    (
        "exchanger E1 H COLD 1/281474976710655\nsplit C b 10 c\npass H E1 d\n",
        1,
        "rejected line 2 Overdrawn found 10 wanted 10\n",
    ),
    (
        "exchanger E1 H COLD 1/281474976710655\npass H E1 d\nsplit C b 10 c\n",
        9,
        "too fine line 2 step 1\n",
    ),
];

#[test]
fn the_first_finding_is_told(rt: HostRuntime) -> Result<(), Fail> {
    let case = "contribution,,50,,,,\nhot,H,1000,500,2,,\ncold,C,300,700,10,,\n";
    for (network, status, text) in FINDINGS {
        check_audit(&rt, case, network, *status, text)?;
    }
    Ok(())
}

#[test]
fn the_second_step_of_a_pass_is_too_fine(rt: HostRuntime) -> Result<(), Fail> {
    let case = "contribution,,50,,,,\nhot,H,1000,500,1,,\n";
    let network = "exchanger E1 H COLD 1/281474976710655\nexchanger E2 H COLD 1/281474976710656\n\
                   pass H E1 c\npass c E2 d\nend d\n";
    check_audit(&rt, case, network, 9, "too fine line 4 step 2\n")
}

/// The most of the first utility, which takes 200 W, and the status and text of the audit.
const SECOND_UTILITIES: &[(u32, u8, &str)] = &[
    (200, 9, "too fine utility Tower step 2\n"),
    (
        199,
        1,
        "rejected utility River UtilityRange found 200 wanted 199\n",
    ),
];

/// Steps are counted from 1 at each utility.
#[test]
fn the_second_step_of_a_second_utility_is_too_fine(rt: HostRuntime) -> Result<(), Fail> {
    let alloc = rt.alloc();
    let network = "exchanger E1 G River 100
exchanger E2 G Tower 1/281474976710655
exchanger E3 G Brine 112589990684261999/281474976710655
exchanger E4 H River 100
exchanger E5 H Tower 1/281474976710656
exchanger E6 H Brine 112589990684262399/281474976710656
pass G E1 a
pass a E2 b
pass b E3 c
end c
pass H E4 d
pass d E5 e
pass e E6 f
end f
";
    for (most, status, text) in SECOND_UTILITIES {
        let case = format!(in alloc;
            "contribution,,50,,,,\nhot,G,1000,500,1,,\nhot,H,1000,500,1,,\n\
             cooler,River,300,0,{most},0,\ncooler,Tower,300,0,1000,0,\ncooler,Brine,300,0,1000,0,\n"
        )?;
        check_audit(&rt, case.as_str(), network, *status, text)?;
    }
    Ok(())
}

/// Cases, networks of them, and their audits.
const TOO_FINE_BALANCES: &[(&str, &str, &str)] = &[
    // The heat of the second hot utility is added to that of the first.
    (
        "contribution,,50,,,,\nhot,G,1000,500,1,,\nhot,H,1000,500,1,,\n\
         cold,C,300,800,1,,\ncold,D,300,800,1,,\n\
         heater,Steam,2000,0,1000,1,\nheater,Furnace,2000,0,1000,1,\n\
         cooler,River,100,0,1000,0,\ncooler,Tower,100,0,1000,0,\n",
        "exchanger E1 G C 140737488355327499/281474976710655\n\
         exchanger E2 G River 1/281474976710655\nexchanger E3 Steam C 1/281474976710655\n\
         exchanger E4 H D 140737488355327999/281474976710656\n\
         exchanger E5 H Tower 1/281474976710656\nexchanger E6 Furnace D 1/281474976710656\n\
         pass G E1 a\npass a E2 b\nend b\npass C E1 c\npass c E3 d\nend d\n\
         pass H E4 e\npass e E5 f\nend f\npass D E4 g\npass g E6 h\nend h\n",
        "too fine balance step 2\n",
    ),
    // The price of the second utility times its heat: behind the hot heat, the cold heat, the
    // excess, and two steps of the first utility.
    (
        "contribution,,50,,,,\nhot,G,1000,500,1,,\ncold,C,300,800,1,,\n\
         cooler,W,100,0,1000,0,\nheater,S,2000,0,1000,999983,\n",
        "exchanger E1 G C 1/281474976710655\n\
         exchanger E2 G W 140737488355327499/281474976710655\n\
         exchanger E3 S C 140737488355327499/281474976710655\n\
         pass G E1 a\npass a E2 b\nend b\npass C E1 c\npass c E3 d\nend d\n",
        "too fine balance step 6\n",
    ),
];

#[test]
fn a_step_of_the_balance_is_too_fine(rt: HostRuntime) -> Result<(), Fail> {
    check_audits(&rt, 9, TOO_FINE_BALANCES)
}

/// A hot and a cold stream.
const TWO: &str = "contribution,,50,,,,\nhot,H,1000,500,10,,\ncold,C,300,700,10,,\n";

/// A hot stream, which a little heat cools far.
const FINE: &str = "contribution,,50,,,,\nhot,H,1000,500,2,,\n";

/// Cases, networks of them, their statuses, and their audits.
const BY_A_MODEL: &[(&str, &str, u8, &str)] = &[
    (
        TWO,
        "split H a 11 b\n",
        1,
        "rejected line 1 Overdrawn found 11 wanted 10\n",
    ),
    (
        TWO,
        "split H a 1/281474976710656 b\nsplit b c 1/281474976710655 d\n",
        9,
        "too fine line 2 step 1\n",
    ),
    (
        FINE,
        "exchanger E1 H COLD 2/3\nexchanger E2 H COLD 93824992236885/70368744177664\n\
         pass H E1 a\nsplit a b 1/140737488355328 d\npass d E2 e\nmix b e f\n",
        9,
        "too fine line 6 step 2\n",
    ),
    (
        FINE,
        "exchanger E1 H COLD 2/3\nexchanger E2 H COLD 93824992236885/70368744177664\n\
         pass H E1 a\nsplit a b 1/140737488355328 d\npass d E2 e\nmix e b f\n",
        9,
        "too fine line 6 step 3\n",
    ),
    (
        "contribution,,50,,,,\ncold,C,300,700,10,,\nheater,S,790,0,1000000,1,\n",
        "exchanger Q S C 4000\npass C Q a\nend a\n",
        1,
        "rejected exchanger Q HotEndApproach found 790 wanted 800\n",
    ),
    // Heat from the hot to the cold utility.
    (
        "contribution,,50,,,,\nhot,H,1000,500,10,,\n",
        "exchanger Q1 H COLD 5000\nexchanger Q2 HOT COLD 7\npass H Q1 a\nend a\n",
        0,
        "accepted\nhot 7\ncold 5007\nexcess 7\ncost 7\nfloor 0\nplace 950\n\
         penalty exchanger Q1 0\npenalty exchanger Q2 7\n",
    ),
    // All temperatures below zero.
    (
        "contribution,,50,,,,\nhot,H,-900,-1000,10,,\ncold,C,-1100,-950,10,,\n",
        "exchanger E H C 1000\nexchanger Q HOT C 500\npass H E a\nend a\n\
         pass C E b\npass b Q c\nend c\n",
        0,
        "accepted\nhot 500\ncold 0\nexcess 0\ncost 500\nfloor 500\nplace -950\n\
         penalty exchanger E 0\npenalty exchanger Q 0\n",
    ),
    // More than the most of a cooler.
    (
        "contribution,,50,,,,\nhot,H,1000,500,10,,\ncold,C,300,400,10,,\n\
         cooler,CW,200,0,1000,0,\n",
        "exchanger E1 H C 1000\nexchanger Q1 H CW 4000\npass H E1 a\npass a Q1 b\nend b\n\
         pass C E1 d\nend d\n",
        1,
        "rejected utility CW UtilityRange found 4000 wanted 1000\n",
    ),
];

/// Answers that a model of its own gave.
#[test]
fn networks_are_answered_as_by_an_independent_model(rt: HostRuntime) -> Result<(), Fail> {
    for (case, network, status, text) in BY_A_MODEL {
        check_audit(&rt, case, network, *status, text)?;
    }
    Ok(())
}
