//! One table of all commands with their files, for what is refused and cut in turn.

use super::support::WORDS;

/// A command, the files that it reads, its status, and how its text begins.
pub type Row = (
    &'static [&'static str],
    &'static [(&'static str, &'static [u8])],
    u8,
    &'static str,
);

/// A hot and a cold stream, which the standard utilities serve.
const CASE: &[u8] = b"contribution,,50,,,,
hot,H,1000,500,10,,
cold,C,300,700,10,,
";

/// The same two, which may not meet.
const APART: &[u8] = b"contribution,,50,,,,
hot,H,1000,500,10,,
cold,C,300,700,10,,
forbid,H,C,,,,
";

/// A hot stream with a heater that has to give, and a cooler.
const UTILITIES: &[u8] = b"contribution,,50,,,,
hot,H,1000,500,10,,
heater,S,450,100,1000,2,
cooler,W,350,0,1000000000000,0,
";

/// A cooler that takes too little.
const INFEASIBLE: &[u8] = b"contribution,,50,,,,
hot,H,1000,500,10,,
cold,C,300,400,10,,
cooler,CW,200,0,1000,0,
";

/// A network of the two streams that may not meet.
const NETWORK: &[u8] = b"exchanger E1 HOT C 4000
exchanger E2 H COLD 5000
pass H E2 a
end a
pass C E1 b
end b
";

/// It leaves out the cold stream.
const UNFINISHED: &[u8] = b"exchanger E2 H COLD 5000\npass H E2 a\nend a\n";

/// Its first pass falls by a number that is too fine.
const TOO_FINE: &[u8] = b"exchanger E2 H COLD 1/281474976710655\npass H E2 a\nend a\n";

/// A heat flow of the case with a heater and a cooler.
const FLOW: &[u8] = b"cost 200
use S 100
use W 5100
move H 950 450 W 400 400 5000
move S 400 400 W 400 400 100
give H 950 450 0
give S 400 400 0
take W 400 400 0
";

/// A cut of the case whose cooler takes too little.
const CUT: &[u8] = b"infeasible\ncut supply 5000 2000\npart H 950 450\n";

/// A price study of the case that the standard utilities serve.
const STUDY: &[u8] = b"scenario,S,,
price,COLD,2,
span,COLD,0,3
";

/// A price study of a cooler.
const SPAN: &[u8] = b"span,CW,0,3\n";

/// Two plants, and a main between them.
const SITE: &[u8] = b"contribution,,50,,,,
main,MP,1500,,,,
plant,A,,,,,
hot,H,2000,1000,10,,
plant,B,,,,,
cold,C,500,1300,10,,
";

/// A plant that wants heat above the only main.
const SITE_INFEASIBLE: &[u8] = b"contribution,,50,,,,
main,MP,1350,,,,
plant,B,,,,,
cold,C,500,1300,10,,
";

const ROWS: &[Row] = &[
    (
        &["targets", "case"],
        &[("case", CASE)],
        0,
        "hot 0\ncold 1000\npinch none\n",
    ),
    (
        &["curves", "case"],
        &[("case", CASE)],
        0,
        "hot 0 500\nhot 5000 1000\ncold 0 300\ncold 4000 700\nnet 0 950\n",
    ),
    (
        &["flow", "case"],
        &[("case", CASE)],
        0,
        "cost 0\nuse HOT 0\nuse COLD 1000\n",
    ),
    (
        &["flow", "case"],
        &[("case", UTILITIES)],
        0,
        "cost 200\nuse S 100\nuse W 5100\n",
    ),
    (
        &["flow", "case"],
        &[("case", APART)],
        0,
        "cost 4000\nuse HOT 4000\nuse COLD 5000\n",
    ),
    (
        &["flow", "case"],
        &[("case", INFEASIBLE)],
        1,
        "infeasible\ncut supply 5000 2000\npart H 950 450\n",
    ),
    (
        &["design", "case"],
        &[("case", APART)],
        0,
        "# hot 4000 cold 5000 excess 4000 cost 4000\nexchanger E1 HOT C 3000\n",
    ),
    (
        &["design", "case"],
        &[("case", INFEASIBLE)],
        1,
        "infeasible\ncut supply 5000 2000\npart H 950 450\n",
    ),
    (
        &["vertical", "case"],
        &[("case", CASE)],
        0,
        "# hot 0 cold 1000 excess 0 cost 0\n",
    ),
    (
        &["vertical", "case"],
        &[("case", APART)],
        3,
        "case not standard\n",
    ),
    (
        &["sweep", "case", "0", "100", "50", "2"],
        &[("case", CASE)],
        0,
        "row 0 0 1000 0\nrow 50 0 1000 0\nrow 100 0 1000 0\n",
    ),
    (
        &["audit", "case", "network"],
        &[("case", APART), ("network", NETWORK)],
        0,
        "accepted\nhot 4000\ncold 5000\nexcess 4000\ncost 4000\nfloor 4000\n",
    ),
    (
        &["audit", "case", "network"],
        &[("case", APART), ("network", UNFINISHED)],
        1,
        "rejected stream C Unfinished found 0 wanted 10\n",
    ),
    (
        &["audit", "case", "network"],
        &[("case", APART), ("network", TOO_FINE)],
        9,
        "too fine line 2 step 1\n",
    ),
    (
        &["audit", "case", "network"],
        &[("case", APART), ("network", b"end H\nend H\n")],
        4,
        "network line 2 SpentBranch\n",
    ),
    (
        &["audit", "case", "network"],
        &[("case", b"")],
        3,
        "case row 1 NoContribution\n",
    ),
    (
        &["certify", "case", "report"],
        &[("case", UTILITIES), ("report", FLOW)],
        0,
        "yes cost 200\n",
    ),
    (
        &["certify", "case", "report"],
        &[("case", INFEASIBLE), ("report", CUT)],
        0,
        "yes infeasible\n",
    ),
    (
        &["certify", "case", "report"],
        &[("case", CASE), ("report", FLOW)],
        1,
        "no Parts\n",
    ),
    (
        &["certify", "case", "report"],
        &[("case", CASE), ("report", b"infeasible\n")],
        4,
        "report line 2 Ended\n",
    ),
    (
        &["prices", "case", "study", "2"],
        &[("case", CASE), ("study", STUDY)],
        0,
        "scenario S 2000\nspan COLD 0 3 0 1000\n",
    ),
    (
        &["prices", "case", "study", "1"],
        &[("case", INFEASIBLE), ("study", SPAN)],
        0,
        "span CW infeasible\n",
    ),
    (
        &["prices", "case", "study", "1"],
        &[("case", CASE), ("study", SPAN)],
        4,
        "study row 1 UnknownName\n",
    ),
    (
        &["site", "site"],
        &[("site", SITE)],
        0,
        "profile 1950 0 10000\nprofile 1550 0 6000\n",
    ),
    (
        &["site", "site"],
        &[("site", SITE_INFEASIBLE)],
        1,
        "profile 1400 0 0\nprofile 1350 0 0\nprofile 1300 500 0\n",
    ),
    (
        &["site", "site"],
        &[("site", CASE)],
        3,
        "site row 2 NoPlant\n",
    ),
    (
        &["sample", "1", "1"],
        &[],
        0,
        "hot 25163\ncold 0\ncost 117663\n",
    ),
    (&["targets"], &[], 2, WORDS),
];

/// Every command, and every status that needs no refused call, no refused write and no long file.
/// The rows stand in this body alone, since each body that names them is proved over all of them.
pub fn rows() -> &'static [Row] {
    ROWS
}
