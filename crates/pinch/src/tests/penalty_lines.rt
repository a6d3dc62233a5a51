//! Where accepted networks lose their heat. A height is a heat-capacity flow times the degrees
//! above the reference place, which a hot stream passes 50 above it and a cold one 50 below.

use super::support::check_audit;
use std::process::Abort;
use std::test::Fail;
use std::thread::Threads;

/// The place is 550: above it A takes 8000 and H gives 4000, below it H has more than enough.
const HEAT_TO_SPARE: &str = "contribution,,50,,,,\nhot,H,1000,400,10,,\n\
                             cold,A,500,900,20,,\ncold,D,200,300,5,,\n";

/// The place is 550: C takes 2000 above it, H gives 4000 below it, and C takes 2000 there.
const PREHEATED: &str = "contribution,,50,,,,\nhot,H,600,400,20,,\ncold,C,300,700,10,,\n\
                         heater,ST,1000,0,1000000000000,1,\ncooler,CW,100,0,1000000000000,0,\n";

/// The place is 350, where the stream begins.
const ONE_COLD_STREAM: &str = "contribution,,50,,,,\ncold,C,300,700,10,,\n";

/// Networks whose exchangers pass heat across the pinch, and their audits.
const CROSSING: &[(&str, &str)] = &[
    // E1 takes H from 1000 to 950, which is 500 W above 600, and gives them to D below 500.
    (
        "exchanger E1 H D 500\nexchanger E2 H A 3500\nexchanger Q1 HOT A 4500\n\
         exchanger Q2 H COLD 2000\npass H E1 ha\npass ha E2 hb\npass hb Q2 hc\nend hc\n\
         pass D E1 da\nend da\npass A E2 aa\npass aa Q1 ab\nend ab\n",
        "accepted\nhot 4500\ncold 2000\nexcess 500\ncost 4500\nfloor 4000\nplace 550\n\
         penalty exchanger E1 500\npenalty exchanger E2 0\npenalty exchanger Q1 0\n\
         penalty exchanger Q2 0\n",
    ),
    // Q1 cools H from 1000 to 900, above 600; Q3 heats D, below 500.
    (
        "exchanger Q1 H COLD 1000\nexchanger E1 H A 3000\nexchanger Q2 HOT A 5000\n\
         exchanger Q3 HOT D 500\nexchanger Q4 H COLD 2000\npass H Q1 ha\npass ha E1 hb\n\
         pass hb Q4 hc\nend hc\npass D Q3 da\nend da\npass A E1 aa\npass aa Q2 ab\nend ab\n",
        "accepted\nhot 5500\ncold 3000\nexcess 1500\ncost 5500\nfloor 4000\nplace 550\n\
         penalty exchanger Q1 1000\npenalty exchanger E1 0\npenalty exchanger Q2 0\n\
         penalty exchanger Q3 500\npenalty exchanger Q4 0\n",
    ),
];

/// Each of these networks of a case is accepted with its text.
fn check_networks<R: Abort + Threads + Sync + AllocGlobal>(
    rt: &R,
    case: &str,
    rows: &[(&str, &str)],
) -> Result<(), Fail> {
    for (network, text) in rows {
        check_audit(rt, case, network, 0, text)?;
    }
    Ok(())
}

#[test]
fn heat_that_crosses_the_pinch_is_lost(rt: HostRuntime) -> Result<(), Fail> {
    check_networks(&rt, HEAT_TO_SPARE, CROSSING)
}

/// Networks that mix branches, and their audits.
const MIXING: &[(&str, &str)] = &[
    // Mixes of two halves of C: 400 and 300 give 350, below 500. 650 and 450 give 550: of the
    // heights 5 * 150 and 0 is left 10 * 50. 650 and 550 give 600: 5 * 150 and 5 * 50 are
    // 10 * 100. And Q1 heats from 450 to 650, so 750 of its 1000 W arrive above 500.
    (
        "exchanger E1 H C 500\nexchanger E2 H C 1000\nexchanger Q1 ST C 1000\n\
         exchanger Q2 ST C 500\nexchanger Q3 ST C 1000\nexchanger Q4 H CW 2500\n\
         pass H E2 ha\npass ha E1 hb\npass hb Q4 hc\nend hc\n\
         split C ca 5 cb\npass ca E1 cc\nmix cc cb cd\npass cd E2 ce\n\
         split ce cf 5 cg\npass cf Q1 ch\nmix ch cg ci\n\
         split ci cj 5 ck\npass cj Q2 cl\nmix cl ck cm\npass cm Q3 cn\nend cn\n",
        "accepted\nhot 2500\ncold 2500\nexcess 500\ncost 2500\nfloor 2000\nplace 550\n\
         penalty exchanger E1 0\npenalty exchanger E2 0\npenalty exchanger Q1 250\n\
         penalty exchanger Q2 0\npenalty exchanger Q3 0\npenalty exchanger Q4 0\n\
         penalty mix 13 0\npenalty mix 17 250\npenalty mix 20 0\n",
    ),
    // Half of H is cooled to 300 and half of C heated to 900, both past their targets, and
    // back: 300 and 500 give 400, below 600; 900 and 500 give 700: 5 * 400 are 10 * 200.
    (
        "exchanger E1 H C 2000\nexchanger Q1 ST C 2000\nexchanger Q2 H CW 2000\n\
         pass H E1 ha\nsplit ha hb 10 hc\npass hb Q2 hd\nmix hd hc he\nend he\n\
         pass C E1 ca\nsplit ca cb 5 cc\npass cb Q1 cd\nmix cd cc ce\nend ce\n",
        "accepted\nhot 2000\ncold 2000\nexcess 0\ncost 2000\nfloor 2000\nplace 550\n\
         penalty exchanger E1 0\npenalty exchanger Q1 0\npenalty exchanger Q2 0\n\
         penalty mix 7 0\npenalty mix 12 0\n",
    ),
];

#[test]
fn mixes_lose_heat_across_the_pinch_alone(rt: HostRuntime) -> Result<(), Fail> {
    check_networks(&rt, PREHEATED, MIXING)
}

/// Networks, and the last line of their audits.
const TOO_FINE: &[(&str, &str)] = &[
    (
        "exchanger Q1 HOT C 1/16777216\nexchanger Q2 HOT C 67108863999/16777216\n\
         pass C Q1 a\nsplit a b 1/33554431 d\nmix b d e\npass e Q2 f\nend f\n",
        "penalties too fine line 5 step 2\n",
    ),
    (
        "exchanger Q1 HOT C 1/33554431\nexchanger Q2 HOT C 335544309/33554431\n\
         exchanger Q3 HOT C 1/16777216\nexchanger Q4 HOT C 66941091839/16777216\n\
         pass C Q3 a\nsplit a b 1/33554431 d\npass b Q1 e\npass d Q2 f\nmix e f g\n\
         pass g Q4 h\nend h\n",
        "penalties too fine exchanger Q1 step 7\n",
    ),
];

/// The branch `b` has the heat-capacity flow 1/33554431 and stands 1/167772160 above the place, or
/// 1 more: its height would have the product of both as denominator, which is above 2^48.
#[test]
fn penalties_are_too_fine_for_an_accepted_network(rt: HostRuntime) -> Result<(), Fail> {
    for (network, last) in TOO_FINE {
        let text = format!(in rt.alloc();
            "accepted\nhot 4000\ncold 0\nexcess 0\ncost 4000\nfloor 4000\nplace 350\n{last}"
        )?;
        check_audit(&rt, ONE_COLD_STREAM, network, 0, text.as_str())?;
    }
    Ok(())
}
