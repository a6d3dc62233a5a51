//! The audit of the utilities: the heat of each lies in its range.
ghost use Rattle.std.specs.Prelude.{◌≡◌, ◌<◌, ◌^◌, length};
ghost use Rattle.fractions.specs.Rationals.{rational_sum, rational_zero, whole};
ghost use Rattle.network_audit.specs.AllItems.{range_items, sum_steps};
ghost use Rattle.network_audit.specs.Answers.{Formed, Judged, Tested};
ghost use Rattle.network_audit.specs.Table.{all_heat_items, duties_in, heat_items, heats_in, needs};

use crate::findings::{Finding, Place, Reason};
use crate::joints::Joint;
use crate::sum::Sum;
use fractions::Frac;
use stream_case::{Source, Utility};

/// Whether an exchanger has the utility.
fn needs(joint: &Joint, index: u32) -> bool
    ensures { result ≡ needs index joint.now }
{
    joint.hot == Source::Utility(index) || joint.cold == Source::Utility(index)
}

/// The duties in W of a utility's exchangers, added up, or the number of the step that is too
/// fine.
fn heat_with(joints: &[Joint], index: u32) -> Result<Frac, u32>
    requires { length joints.now < 2 ^ 32 }
    ensures { Formed
        (λ at. sum_steps at 0 rational_zero (duties_in joints.now index))
        (λ heat. heat ≡ rational_sum (duties_in joints.now index))
        result }
{
    let mut sum = Sum::after(0);
    for joint in joints {
        if needs(joint, index) {
            sum = sum.plus(&joint.duty)?;
        }
    }
    Ok(sum.total)
}

/// The least heat of a utility in W, and the most.
fn least(utility: &Utility) -> Frac
    ensures { result ≡ whole utility.now.least }
{
    Frac::whole(utility.least)
}

fn most(utility: &Utility) -> Frac
    ensures { result ≡ whole utility.now.most }
{
    Frac::whole(utility.most)
}

/// The heat of a utility lies in its range, or else why not.
fn in_range(utility: &Utility, heat: &Frac) -> Result<(), Reason>
    ensures { Tested (λ at. range_items at utility.now heat.now) (λ _. Unit {0}) result }
{
    let least = least(utility);
    if heat.is_below(&least) {
        return Err(Reason::UtilityRange {
            found: *heat,
            wanted: least,
        });
    }
    let most = most(utility);
    if most.is_below(heat) {
        return Err(Reason::UtilityRange {
            found: *heat,
            wanted: most,
        });
    }
    Ok(())
}

/// The heat of a utility in W.
fn audit_utility(joints: &[Joint], index: u32, utility: &Utility) -> Result<Frac, Finding>
    requires { length joints.now < 2 ^ 32 }
    ensures { Judged
        (heat_items joints.now (index, utility.now))
        (λ heat. heat ≡ rational_sum (duties_in joints.now index))
        result }
{
    let place = Place::Utility(index);
    let heat = match heat_with(joints, index) {
        Ok(heat) => heat,
        Err(step) => return Err(Finding::TooFine { place, step }),
    };
    match in_range(utility, &heat) {
        Ok(()) => Ok(heat),
        Err(reason) => Err(Finding::Failed { place, reason }),
    }
}

/// The heats of the utilities in order, in W.
pub(crate) fn audit_utilities(
    joints: &[Joint],
    utilities: &[Utility],
    heats: &mut [Frac],
) -> Result<(), Finding>
    requires joints { length joints.now < 2 ^ 32 }
    requires utilities { length utilities.now < 2 ^ 32 }
    requires room { length heats.old ≡ length utilities.now }
    ensures { Judged
        (all_heat_items joints.now utilities.now)
        (λ _. heats.new ≡ heats_in joints.now utilities.now)
        result }
{
    for (index, utility) in utilities.iter().enumerate() {
        match audit_utility(joints, index as u32, utility) {
            Ok(heat) => heats[index] = heat,
            Err(found) => return Err(found),
        }
    }
    Ok(())
}
