//! The floor under the cost of accepted networks: what the cheapest heat flow of the case costs.

use super::support::check_audits;
use std::test::Fail;

/// A cold stream of 4000 W, from the shifted temperature 350 up to 750.
const ONE_COLD_STREAM: &str = "contribution,,50,,,,\ncold,C,300,700,10,,\n";

/// A hot stream of 5000 W, and a cooler that pays 2 for each watt, up to 10000.
const SOLD_HEAT: &str = "contribution,,50,,,,\nhot,H,1000,500,10,,\ncooler,W,350,0,10000,-2,\n";

/// Cases, networks of them that cost more than need be, and their audits.
const ABOVE: &[(&str, &str, &str)] = &[
    // H may not heat C. So K is to heat C and H to heat D; but here K heats D, and steam C.
    (
        "contribution,,50,,,,\nhot,H,1000,500,10,,\nhot,K,1000,500,10,,\n\
         cold,C,300,700,10,,\ncold,D,300,700,10,,\nforbid,H,C,,,,\n",
        "exchanger E1 K D 4000\nexchanger E2 HOT C 4000\nexchanger E3 H COLD 5000\n\
         exchanger E4 K COLD 1000\npass K E1 a\npass a E4 b\nend b\npass D E1 c\nend c\n\
         pass C E2 d\nend d\npass H E3 e\nend e\n",
        "accepted\nhot 4000\ncold 6000\nexcess 4000\ncost 4000\nfloor 0\nplace 950\n\
         penalty exchanger E1 0\npenalty exchanger E2 4000\npenalty exchanger E3 0\n\
         penalty exchanger E4 0\n",
    ),
    // The dear heater, where the cheap one is hot enough: no excess tells it.
    (
        "contribution,,50,,,,\ncold,C,300,700,10,,\n\
         heater,LP,900,0,10000,1,\nheater,HP,2000,0,10000,5,\n",
        "exchanger E1 HP C 4000\npass C E1 a\nend a\n",
        "accepted\nhot 4000\ncold 0\nexcess 0\ncost 20000\nfloor 4000\nplace 350\n\
         penalty exchanger E1 0\n",
    ),
    // The dearest of as many heaters as there may be.
    (
        "contribution,,50,,,,\ncold,C,300,700,10,,\nheater,A,900,0,10000,12,\n\
         heater,B,900,0,10000,11,\nheater,D,900,0,10000,10,\nheater,E,900,0,10000,9,\n\
         heater,F,900,0,10000,8,\nheater,G,900,0,10000,7,\nheater,H,900,0,10000,6,\n\
         heater,I,900,0,10000,5,\nheater,J,900,0,10000,4,\nheater,K,900,0,10000,3,\n\
         heater,L,900,0,10000,2,\nheater,M,900,0,10000,1,\n",
        "exchanger E1 A C 4000\npass C E1 a\nend a\n",
        "accepted\nhot 4000\ncold 0\nexcess 0\ncost 48000\nfloor 4000\nplace 350\n\
         penalty exchanger E1 0\n",
    ),
    // The dear heater has to give 1000 W, and gives 2000.
    (
        "contribution,,50,,,,\ncold,C,300,700,10,,\n\
         heater,S,900,1000,10000,3,\nheater,T,900,0,10000,1,\n",
        "exchanger E1 T C 2000\nexchanger E2 S C 2000\npass C E1 a\npass a E2 b\nend b\n",
        "accepted\nhot 4000\ncold 0\nexcess 0\ncost 8000\nfloor 6000\nplace 350\n\
         penalty exchanger E1 0\npenalty exchanger E2 0\n",
    ),
    // The cooler would pay for steam as well.
    (
        SOLD_HEAT,
        "exchanger E1 H W 5000\npass H E1 a\nend a\n",
        "accepted\nhot 0\ncold 5000\nexcess 0\ncost -10000\nfloor -15000\nplace 950\n\
         penalty exchanger E1 0\n",
    ),
];

/// The same of networks that cost no more than the floor.
const ON_THE_FLOOR: &[(&str, &str, &str)] = &[
    // Three levels of steam, each as far up as it reaches: 1000 + 3 * 1500 + 5 * 1500.
    (
        "contribution,,50,,,,\ncold,C,300,700,10,,\nheater,LP,500,0,10000,1,\n\
         heater,MP,650,0,10000,3,\nheater,HP,900,0,10000,5,\n",
        "exchanger E1 LP C 1000\nexchanger E2 MP C 1500\nexchanger E3 HP C 1500\n\
         pass C E1 a\npass a E2 b\npass b E3 c\nend c\n",
        "accepted\nhot 4000\ncold 0\nexcess 0\ncost 13000\nfloor 13000\nplace 350\n\
         penalty exchanger E1 0\npenalty exchanger E2 0\npenalty exchanger E3 0\n",
    ),
    (
        ONE_COLD_STREAM,
        "exchanger E1 HOT C 4000\npass C E1 a\nend a\n",
        "accepted\nhot 4000\ncold 0\nexcess 0\ncost 4000\nfloor 4000\nplace 350\n\
         penalty exchanger E1 0\n",
    ),
    // All that the cooler takes is paid for: the excess is worth more than it costs.
    (
        SOLD_HEAT,
        "exchanger E1 H W 5000\nexchanger E2 HOT W 5000\npass H E1 a\nend a\n",
        "accepted\nhot 5000\ncold 10000\nexcess 5000\ncost -15000\nfloor -15000\nplace 950\n\
         penalty exchanger E1 0\npenalty exchanger E2 5000\n",
    ),
];

#[test]
fn networks_above_their_floor_are_told_it(rt: HostRuntime) -> Result<(), Fail> {
    check_audits(&rt, 0, ABOVE)
}

#[test]
fn networks_may_cost_just_the_floor(rt: HostRuntime) -> Result<(), Fail> {
    check_audits(&rt, 0, ON_THE_FLOOR)
}
