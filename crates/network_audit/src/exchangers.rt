//! The audit of the exchangers: whether each may stand, and keeps its approach at both ends.
ghost use Rattle.std.specs.Prelude.{◌≡◌, ◌<◌, ◌^◌, length};
ghost use Rattle.fractions.specs.Rationals.{whole};
ghost use Rattle.network_values.specs.Sides.{approach_of, contribution_of, fixed_level};
ghost use Rattle.network_values.specs.Values.{value_at};
ghost use Rattle.network_audit.specs.Answers.{Judged};
ghost use Rattle.network_audit.specs.Items.{side_items};
ghost use Rattle.network_audit.specs.Table.{ends_at, joint_items};

use crate::findings::{Finding, Place, Reason};
use crate::joints::{Crossing, Joint};
use fractions::Frac;
use network_values::BranchValue;
use stream_case::{Case, Source};

/// The temperatures in tenths of °C at which a side enters an exchanger and leaves it.
#[derive(Clone, Copy)]
pub(crate) struct Ends {
    pub enters: Frac,
    pub leaves: Frac,
}

/// The share of a source in the least approach, in tenths of °C; 0, of which no rule speaks, where
/// there is none.
fn contribution_of(case: &Case, source: Source) -> i32
    ensures { result ≡ contribution_of case.now source }
{
    match source {
        Source::Stream(index) => case
            .streams
            .get(index as usize)
            .map_or(0, |s| s.contribution),
        Source::Utility(index) => case
            .utilities
            .get(index as usize)
            .map_or(0, |u| u.contribution),
    }
}

/// The least approach of two sources, in tenths of °C.
fn approach_of(case: &Case, hot: Source, cold: Source) -> Frac
    ensures { result ≡ whole (approach_of case.now hot cold) }
{
    let sum = i64::from(contribution_of(case, hot)) + i64::from(contribution_of(case, cold));
    Frac::whole(sum)
}

/// The level of a source, in tenths of °C: that of a utility, or the one temperature of a latent
/// stream. A sensible stream has none, since it runs between two temperatures. It is 0, of which no
/// rule speaks, where there is no such utility.
fn fixed_level(case: &Case, source: Source) -> Option<i32>
    ensures { result ≡ fixed_level case.now source }
{
    match source {
        Source::Stream(index) => match case.streams.get(index as usize) {
            Some(stream) if stream.is_latent() => Some(stream.supply),
            _ => None,
        },
        Source::Utility(index) => Some(case.utilities.get(index as usize).map_or(0, |u| u.level)),
    }
}

/// The state of a branch, of a sensible stream its temperature in tenths of °C; 0, of which no rule
/// speaks, where there is none.
fn state_at(values: &[BranchValue], number: u32) -> Frac
    ensures { result ≡ (value_at values.now number).t }
{
    match values.get(number as usize) {
        Some(value) => value.t,
        None => Frac::whole(0),
    }
}

/// Where the side of a source enters an exchanger and leaves it: at its level, or else, as a
/// sensible stream does, at the temperatures of its branch before and behind its pass.
fn ends_at(case: &Case, values: &[BranchValue], source: Source, pass: Option<Crossing>) -> Ends
    ensures { result ≡ ends_at case.now values.now source pass }
{
    if let Some(level) = fixed_level(case, source) {
        let level = Frac::whole(i64::from(level));
        return Ends {
            enters: level,
            leaves: level,
        };
    }
    let Some(crossing) = pass else {
        let none = Frac::whole(0);
        return Ends {
            enters: none,
            leaves: none,
        };
    };
    Ends {
        enters: state_at(values, crossing.from),
        leaves: state_at(values, crossing.to),
    }
}

/// An exchanger's pair is permitted, and at both ends its hot side is above its cold one by the
/// approach.
fn audit_exchanger(
    case: &Case,
    place: Place,
    joint: &Joint,
    given: &Ends,
    taken: &Ends,
) -> Result<(), Finding>
    ensures { Judged
        (side_items case.now place joint.now.hot joint.now.cold given.now taken.now)
        (λ _. Unit {0})
        result }
{
    if case.is_forbidden(joint.hot, joint.cold) {
        return Err(Finding::Failed {
            place,
            reason: Reason::Forbidden,
        });
    }
    let approach = approach_of(case, joint.hot, joint.cold);
    let Some(wanted) = taken.leaves.plus(&approach) else {
        return Err(Finding::TooFine { place, step: 1 });
    };
    if given.enters.is_below(&wanted) {
        let found = given.enters;
        let reason = Reason::HotEndApproach { found, wanted };
        return Err(Finding::Failed { place, reason });
    }
    let Some(wanted) = taken.enters.plus(&approach) else {
        return Err(Finding::TooFine { place, step: 2 });
    };
    if given.leaves.is_below(&wanted) {
        let found = given.leaves;
        let reason = Reason::ColdEndApproach { found, wanted };
        return Err(Finding::Failed { place, reason });
    }
    Ok(())
}

/// The exchangers in order.
pub(crate) fn audit_exchangers(
    case: &Case,
    joints: &[Joint],
    values: &[BranchValue],
) -> Result<(), Finding>
    requires { length joints.now < 2 ^ 32 }
    ensures { Judged (joint_items case.now values.now joints.now) (λ _. Unit {0}) result }
{
    for (number, joint) in joints.iter().enumerate() {
        let place = Place::Exchanger(number as u32);
        let given = ends_at(case, values, joint.hot, joint.given);
        let taken = ends_at(case, values, joint.cold, joint.taken);
        if let Err(found) = audit_exchanger(case, place, joint, &given, &taken) {
            return Err(found);
        }
    }
    Ok(())
}
