//! Networks that are accepted, and that are rejected for their first reason.

use super::support::{FOUR_STREAM, OWN_CONTRIBUTION, check_audit, check_audits};
use std::test::Fail;

/// A hot and a cold stream.
const TWO_STREAMS: &str = "contribution,,50,,,,\nhot,H,1000,500,10,,\ncold,C,300,700,10,,\n";

/// A network of both, whose exchanger is too cold at its hot end.
const COLD_AT_HOT_END: &str = "exchanger E1 H C 1500
exchanger Q1 H COLD 3500
exchanger Q2 HOT C 2500
pass H Q1 a
pass a E1 b
end b
pass C Q2 d
pass d E1 e
end e
";

/// Cases, networks of them that are accepted, and their audits.
const ACCEPTED: &[(&str, &str, &str)] = &[
    // Four exchangers and two utilities, at the target; three ends have just the approach.
    (
        FOUR_STREAM,
        "exchanger E1 H2 C3 240000\nexchanger E2 H4 C1 90000\nexchanger E3 H2 C1 90000\n\
         exchanger E4 H4 C1 30000\nexchanger Q1 HOT C1 20000\nexchanger Q2 H4 COLD 60000\n\
         pass H2 E1 h2a\npass h2a E3 h2b\nend h2b\n\
         pass H4 E2 h4a\npass h4a E4 h4b\npass h4b Q2 h4c\nend h4c\n\
         pass C1 E4 c1a\npass c1a E3 c1b\npass c1b E2 c1c\npass c1c Q1 c1d\nend c1d\n\
         pass C3 E1 c3a\nend c3a\n",
        "accepted\nhot 20000\ncold 60000\nexcess 0\ncost 20000\nfloor 20000\nplace 850\n\
         penalty exchanger E1 0\npenalty exchanger E2 0\npenalty exchanger E3 0\n\
         penalty exchanger E4 0\npenalty exchanger Q1 0\npenalty exchanger Q2 0\n",
    ),
    // A stream that is split, and mixed at two temperatures.
    (
        "contribution,,50,,,,\nhot,H,600,400,20,,\ncold,C,300,700,10,,\n\
         heater,ST,1000,0,1000000000000,1,\n",
        "exchanger E1 H C 500\nexchanger Q1 ST C 2500\nexchanger Q2 ST C 1000\n\
         exchanger Q3 H COLD 3500\npass H E1 ha\npass ha Q3 hb\nend hb\n\
         split C ca 5 cb\npass ca E1 cc\npass cb Q1 cd\nmix cc cd ce\npass ce Q2 cf\nend cf\n",
        "accepted\nhot 3500\ncold 3500\nexcess 1500\ncost 3500\nfloor 2000\nplace 550\n\
         penalty exchanger E1 0\npenalty exchanger Q1 1000\npenalty exchanger Q2 0\n\
         penalty exchanger Q3 0\npenalty mix 11 500\n",
    ),
    // No match of the two streams, which is forbidden.
    (
        "contribution,,50,,,,\nhot,H,1000,500,10,,\ncold,C,300,700,10,,\nforbid,H,C,,,,\n",
        "# A comment.\nexchanger E1 HOT C 3000\nexchanger E2 HOT C 1000\n\
         exchanger E3 H COLD 2000\nexchanger E4 H COLD 3000\n\
         pass H E3 .1\npass .1 E4 .2\nend .2\npass C E2 .3\npass .3 E1 .4\nend .4\n",
        "accepted\nhot 4000\ncold 5000\nexcess 4000\ncost 4000\nfloor 4000\nplace 950\n\
         penalty exchanger E1 3000\npenalty exchanger E2 1000\n\
         penalty exchanger E3 0\npenalty exchanger E4 0\n",
    ),
    // A hot stream with a contribution of its own.
    (
        OWN_CONTRIBUTION,
        "exchanger E1 H C 1500\nexchanger Q2 HOT C 2500\nexchanger Q3 H COLD 2500\n\
         pass H E1 a\npass a Q3 b\nend b\npass C E1 d\npass d Q2 e\nend e\n",
        "accepted\nhot 2500\ncold 2500\nexcess 0\ncost 2500\nfloor 2500\nplace 500\n\
         penalty exchanger E1 0\npenalty exchanger Q2 0\npenalty exchanger Q3 0\n",
    ),
];

#[test]
fn valid_networks_are_accepted(rt: HostRuntime) -> Result<(), Fail> {
    check_audits(&rt, 0, ACCEPTED)
}

/// Cases, networks of them with an approach that is too small, and their audits.
const MISSED: &[(&str, &str, &str)] = &[
    (
        FOUR_STREAM,
        "exchanger E1 H2 C3 240000\nexchanger E2 H4 C1 90050\nexchanger E3 H2 C1 90000\n\
         exchanger E4 H4 C1 30000\nexchanger Q1 HOT C1 19950\nexchanger Q2 H4 COLD 59950\n\
         pass H2 E1 h2a\npass h2a E3 h2b\nend h2b\n\
         pass H4 E2 h4a\npass h4a E4 h4b\npass h4b Q2 h4c\nend h4c\n\
         pass C1 E4 c1a\npass c1a E3 c1b\npass c1b E2 c1c\npass c1c Q1 c1d\nend c1d\n\
         pass C3 E1 c3a\nend c3a\n",
        "rejected exchanger E2 ColdEndApproach found 2699/3 wanted 900\n",
    ),
    (
        OWN_CONTRIBUTION,
        "exchanger E1 H C 1510\nexchanger Q2 HOT C 2490\nexchanger Q3 H COLD 2490\n\
         pass H E1 a\npass a Q3 b\nend b\npass C E1 d\npass d Q2 e\nend e\n",
        "rejected exchanger E1 HotEndApproach found 600 wanted 601\n",
    ),
];

#[test]
fn an_approach_is_missed_by_a_tenth_or_less(rt: HostRuntime) -> Result<(), Fail> {
    check_audits(&rt, 1, MISSED)
}

/// Rows behind those of the two streams, a network, and why it is rejected.
const REJECTED: &[(&str, &str, &str)] = &[
    (
        "",
        "split H a 10 b\n",
        "line 1 Overdrawn found 10 wanted 10",
    ),
    ("", "end H\n", "line 1 MissedTarget found 1000 wanted 500"),
    (
        "",
        "split H a 4 b\nend a\n",
        "line 2 Unfinished found 4 wanted 10",
    ),
    ("", "", "stream H Unfinished found 0 wanted 10"),
    (
        "",
        "exchanger E1 H COLD 5000\npass H E1 a\nend a\n",
        "stream C Unfinished found 0 wanted 10",
    ),
    (
        "",
        COLD_AT_HOT_END,
        "exchanger E1 HotEndApproach found 650 wanted 800",
    ),
    // The forbidden match stands before both approaches.
    (
        "forbid,H,C,,,,\n",
        COLD_AT_HOT_END,
        "exchanger E1 Forbidden",
    ),
    // Below the least of a utility, and above its most.
    (
        "heater,S,1500,3000,4000,2,\n",
        "exchanger E1 H C 1500\nexchanger Q1 S C 2500\nexchanger Q2 H COLD 3500\n\
         pass H E1 a\npass a Q2 b\nend b\npass C E1 d\npass d Q1 e\nend e\n",
        "utility S UtilityRange found 2500 wanted 3000",
    ),
    (
        "cooler,CW,200,0,1000,0,\n",
        "exchanger E1 H C 4000\nexchanger Q1 H CW 1001\n\
         pass H E1 a\npass a Q1 b\nend b\npass C E1 d\nend d\n",
        "line 5 MissedTarget found 4999/10 wanted 500",
    ),
    (
        "cooler,CW,200,0,999,0,\n",
        "exchanger E1 H C 4000\nexchanger Q1 H CW 1000\n\
         pass H E1 a\npass a Q1 b\nend b\npass C E1 d\nend d\n",
        "utility CW UtilityRange found 1000 wanted 999",
    ),
];

#[test]
fn a_network_is_rejected_for_its_first_reason(rt: HostRuntime) -> Result<(), Fail> {
    let alloc = rt.alloc();
    for (more, network, rest) in REJECTED {
        let case = format!(in alloc; "{TWO_STREAMS}{more}")?;
        let text = format!(in alloc; "rejected {rest}\n")?;
        check_audit(&rt, case.as_str(), network, 1, text.as_str())?;
    }
    Ok(())
}
