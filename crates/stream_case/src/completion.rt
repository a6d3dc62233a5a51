//! Completion with the standard utilities.
ghost use Rattle.std.specs.Prelude.{◌≡◌, ◌↔◌, ◌++◌, [], ◌∷◌, false, IsTrue, IfOk, OnErr, OnOk};
ghost use Rattle.stream_case.specs.Stream.{stream_ends, HasValidStreams};
ghost use Rattle.stream_case.specs.Limits.{IsContribution, IsShifted};
ghost use Rattle.stream_case.specs.Case.{IsValid, IsComplete, IsStandard, completed, has_utility, outer_of, outermost, standard_utility, unless_given, with_utilities, without_last};

use crate::case::Case;
use crate::items::Items;
use crate::limits::MOST_HEAT;
use crate::name::Name;
use crate::source::Side;
use crate::stream::Stream;
use crate::utility::Utility;
use crate::validity::is_valid_with;
use std::alloc::{AllocError, Global};

/// The outer one of two temperatures: the higher one for the hot side, the lower one for the
/// cold side.
fn outer_of(side: Side, a: i32, b: i32) -> i32
    ensures { result ≡ outer_of side a b }
{
    match side {
        Side::Hot => a.max(b),
        Side::Cold => a.min(b),
    }
}

/// The outermost shifted stream end, in tenths of °C.
fn outermost_end(side: Side, streams: &[Stream]) -> i32
    requires { HasValidStreams streams.now }
    ensures value { result ≡ outermost side (stream_ends streams.now) }
    ensures range { IsShifted result }
{
    let mut outermost = streams[0].high_end();
    for stream in streams {
        outermost = outer_of(side, outermost, stream.high_end());
        outermost = outer_of(side, outermost, stream.low_end());
    }
    outermost
}

/// The utility of a case that gives none on a side: any heat at the outermost shifted stream
/// end.
fn standard_utility(side: Side, case: &Case) -> Utility
    requires streams { HasValidStreams case.now.streams }
    requires contribution { IsContribution case.now.contribution }
    ensures { result ≡ standard_utility side case.now }
{
    let end = outermost_end(side, case.streams.as_slice());
    match side {
        Side::Hot => Utility {
            name: Name::new(b"HOT").unwrap(),
            side: Side::Hot,
            level: end + case.contribution,
            least: 0,
            most: MOST_HEAT,
            price: 1,
            contribution: case.contribution,
        },
        Side::Cold => Utility {
            name: Name::new(b"COLD").unwrap(),
            side: Side::Cold,
            level: end - case.contribution,
            least: 0,
            most: MOST_HEAT,
            price: 0,
            contribution: case.contribution,
        },
    }
}

fn has_utility(side: Side, utilities: &[Utility]) -> bool
    ensures { result ≡ has_utility side utilities.now }
{
    utilities.iter().any(|utility| utility.is_on(side))
}

/// Appends the standard utility of a side, if the case gives none there; else it takes no memory.
fn push_unless_given(
    utilities: &mut Items<Utility>,
    side: Side,
    case: &Case,
) -> Result<(), AllocError>
    requires streams { HasValidStreams case.now.streams }
    requires contribution { IsContribution case.now.contribution }
    ensures added { OnOk result (utilities.new ≡ utilities.old ++ unless_given side case.now) }
    ensures memory { OnErr result (has_utility side case.now.utilities ≡ false) }
{
    if !has_utility(side, case.utilities.as_slice()) {
        utilities.push(standard_utility(side, case))?;
    }
    Ok(())
}

/// The case with the hot utility `HOT` behind its utilities where it has no hot one, and then
/// the cold utility `COLD` where it has no cold one. `HOT` stands at the highest shifted stream
/// end and costs 1 a watt, `COLD` at the lowest and costs nothing; each gives or takes any heat
/// up to `MOST_HEAT` W, with the contribution of the case (this project's rule).
pub fn complete(alloc: Global, case: &Case) -> Result<Case, AllocError>
    requires { IsValid case.now }
    ensures { IfOk result (λ c. c ≡ completed case.now) }
{
    let mut utilities = case.utilities.copied(alloc)?;
    push_unless_given(&mut utilities, Side::Hot, case)?;
    push_unless_given(&mut utilities, Side::Cold, case)?;
    Ok(Case {
        contribution: case.contribution,
        streams: case.streams.copied(alloc)?,
        utilities,
        forbids: case.forbids.copied(alloc)?,
    })
}

fn are_same(a: &[Utility], b: &[Utility]) -> bool
    ensures { IsTrue result ↔ (a.now ≡ b.now) }
{
    a == b
}

fn are_two(utilities: &[Utility], first: &Utility, second: &Utility) -> bool
    ensures { IsTrue result ↔ (utilities.now ≡ first.now ∷ second.now ∷ []) }
{
    are_same(utilities, &[*first, *second])
}

/// Whether these are what completion adds to the given utilities.
fn is_addition(case: &Case, given: &[Utility], added: &[Utility]) -> bool
    requires streams { HasValidStreams case.now.streams }
    requires contribution { IsContribution case.now.contribution }
    ensures { let k = with_utilities case.now given.now in
        IsTrue result ↔ (added.now ≡ unless_given Side.Hot k ++ unless_given Side.Cold k) }
{
    let hot = standard_utility(Side::Hot, case);
    let cold = standard_utility(Side::Cold, case);
    match (
        has_utility(Side::Hot, given),
        has_utility(Side::Cold, given),
    ) {
        (true, true) => are_same(added, &[]),
        (true, false) => are_same(added, &[cold]),
        (false, true) => are_same(added, &[hot]),
        (false, false) => are_two(added, &hot, &cold),
    }
}

/// Whether the case without its last utilities, so many, is valid and completes to the case.
fn is_completed_by(case: &Case, added: usize) -> bool
    ensures { let k = without_last case.now added in
        IsTrue result ↔ (IsValid k × (case.now ≡ completed k)) }
{
    let utilities = case.utilities.as_slice();
    let (given, rest) = utilities.split_at(utilities.len().saturating_sub(added));
    if !is_valid_with(case, given) {
        return false;
    }
    is_addition(case, given, rest)
}

/// Whether the case is what `complete` makes of a valid case. It may have one utility more than
/// a valid case, and the level of `HOT` and `COLD` may lie outside the range of temperatures.
pub fn is_complete(case: &Case) -> bool
    ensures { IsTrue result ↔ IsComplete case.now }
{
    if is_completed_by(case, 0) {
        return true;
    }
    if is_completed_by(case, 1) {
        return true;
    }
    is_completed_by(case, 2)
}

/// Whether a completed case has no forbidden match and no utilities but `HOT` and `COLD` as
/// `complete` adds them, in either order.
pub fn is_standard(case: &Case) -> bool
    requires { IsComplete case.now }
    ensures { IsTrue result ↔ IsStandard case.now }
{
    if !case.forbids.is_empty() {
        return false;
    }
    let utilities = case.utilities.as_slice();
    let hot = standard_utility(Side::Hot, case);
    let cold = standard_utility(Side::Cold, case);
    if are_two(utilities, &hot, &cold) {
        return true;
    }
    are_two(utilities, &cold, &hot)
}
