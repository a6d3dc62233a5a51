//! Audits of small networks, and what they leave of the branches, worked by hand.
ghost use Rattle.stream_case.specs.Case.{IsComplete};

use crate::compare::assert_same;
use fractions::Frac;
use network_audit::{Auditor, Balance, Place, Reason, Verdict};
use network_text::read_network;
use std::alloc::Global;
use std::process::Abort;
use std::test::Fail;
use stream_case::Case;
use worked_tables::{
    FOUR_STREAMS, SIX_EXCHANGERS, TOO_LITTLE_COOLING, check_sensible, completed_case,
};

/// A branch, and the flow and the temperature that it carries, if any.
type Carried = (u32, Option<(i64, i64)>);

/// Of the six exchangers: a stream's own branch, one between two exchangers, the last one, and one
/// beyond.
const CARRIED: &[Carried] = &[
    (1, Some((300, 1700))),
    (6, Some((150, 900))),
    (13, Some((400, 1400))),
    (14, None),
];

const NOTHING: &[Carried] = &[(1, None), (14, None)];

/// A network whose cooler takes 4,000 W, which is more than its most.
const TOO_MUCH_COOLING: &[u8] = b"exchanger E1 H C 1000\nexchanger Q1 H CW 4000\npass H E1 a\n\
pass a Q1 b\nend b\npass C E1 d\nend d\n";

fn auditor_of(alloc: Global, case: &Case, text: &[u8]) -> Result<Auditor, Fail>
    requires { IsComplete case.now }
{
    check_sensible(case)?;
    let network = read_network(alloc, case, text)?;
    Ok(Auditor::new(alloc, case, &network)?)
}

/// Compares what branches carry after the last audit.
fn check_values(rt: &impl Abort, auditor: &Auditor, wanted: &[Carried]) {
    for (branch, carried) in wanted {
        let found = auditor.value(*branch).map(|value| (value.cp, value.t));
        let wanted = carried.map(|(cp, t)| (Frac::whole(cp), Frac::whole(t)));
        assert_same(rt, "a branch", &found, &wanted);
    }
}

fn unfinished(stream: u32, cp: i64) -> Verdict {
    Verdict::Rejected {
        place: Place::Stream(stream),
        reason: Reason::Unfinished {
            found: Frac::whole(0),
            wanted: Frac::whole(cp),
        },
    }
}

/// What an audit of the six exchangers says.
fn accepted() -> Verdict {
    Verdict::Accepted(Balance {
        hot: Frac::whole(20_000),
        cold: Frac::whole(60_000),
        excess: Frac::whole(0),
        cost: Frac::whole(20_000),
    })
}

/// Compares what an audit says, and what branches carry after it.
fn check_audit(
    rt: &impl Abort,
    at: &str,
    auditor: &mut Auditor,
    wanted: &Verdict,
    carried: &[Carried],
) {
    assert_same(rt, at, &auditor.audit(), wanted);
    check_values(rt, auditor, carried);
}

#[test]
fn an_accepted_network_tells_what_its_branches_carry(rt: HostRuntime) -> Result<(), Fail> {
    let case = completed_case(rt.alloc(), &FOUR_STREAMS)?;
    let mut auditor = auditor_of(rt.alloc(), &case, SIX_EXCHANGERS)?;
    check_values(&rt, &auditor, NOTHING);
    check_audit(&rt, "six exchangers", &mut auditor, &accepted(), CARRIED);
    check_audit(&rt, "the six again", &mut auditor, &accepted(), CARRIED);
    Ok(())
}

#[test]
fn a_rejected_network_tells_nothing_of_its_branches(rt: HostRuntime) -> Result<(), Fail> {
    let case = completed_case(rt.alloc(), &FOUR_STREAMS)?;
    let mut auditor = auditor_of(rt.alloc(), &case, b"")?;
    check_audit(
        &rt,
        "no exchangers",
        &mut auditor,
        &unfinished(0, 200),
        NOTHING,
    );
    Ok(())
}

#[test]
fn a_utility_gives_no_more_than_its_most(rt: HostRuntime) -> Result<(), Fail> {
    let case = completed_case(rt.alloc(), &TOO_LITTLE_COOLING)?;
    let mut auditor = auditor_of(rt.alloc(), &case, TOO_MUCH_COOLING)?;
    let wanted = Verdict::Rejected {
        place: Place::Utility(0),
        reason: Reason::UtilityRange {
            found: Frac::whole(4000),
            wanted: Frac::whole(1000),
        },
    };
    assert_same(&rt, "too much cooling", &auditor.audit(), &wanted);
    Ok(())
}
