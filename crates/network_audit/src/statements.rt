//! The audit of the statements: what each makes of what the branches carry before it.
ghost use Rattle.std.specs.Prelude.{◌≡◌, ◌<◌, length, All};
ghost use Rattle.stream_case.specs.Case.{IsComplete};
ghost use Rattle.stream_case.specs.Stream.{IsValidStream};
ghost use Rattle.fractions.specs.Rationals.{Gives, IsBelow, over, rational_zero};
ghost use Rattle.networks.specs.Lines.{members, uses};
ghost use Rattle.networks.specs.Shape.{NamesKnown};
ghost use Rattle.network_values.specs.Made.{heat_of_both, made_values, mixed_value, moved, passed_value, second_part};
ghost use Rattle.network_values.specs.Values.{branch_side, is_latent_branch};
ghost use Rattle.network_audit.specs.Answers.{Formed, Judged, Tested};
ghost use Rattle.network_audit.specs.Items.{end_items, line_items, load_items, mean_items, mix_items, pass_items, split_items};
ghost use Rattle.network_audit.specs.Joints.{joints_of};
ghost use Rattle.networks.specs.declared.network.Network.{Network};

use crate::findings::{Finding, Place, Reason};
use crate::joints::{Joint, stream_at};
use crate::streams::{full_size, last_state};
use fractions::Frac;
use network_values::BranchValue;
use networks::{AtMostTwo, Branch, Line, Network};
use stream_case::{Case, Side, Source, Stream};

/// The second part of a branch that is split, where the first has this size in 10 W/K, or in W of a
/// latent stream: both keep the state.
pub(crate) fn split_rest(
    place: Place,
    from: &BranchValue,
    cp: &Frac,
) -> Result<BranchValue, Finding>
    ensures { Judged
        (split_items place from.now cp.now)
        (λ rest. rest ≡ second_part from.now cp.now)
        result }
{
    if !cp.is_below(&from.cp) {
        return Err(Finding::Failed {
            place,
            reason: Reason::Overdrawn {
                found: *cp,
                wanted: from.cp,
            },
        });
    }
    let Some(rest) = from.cp.minus(cp) else {
        return Err(Finding::TooFine { place, step: 1 });
    };
    Ok(BranchValue {
        cp: rest,
        t: from.t,
    })
}

/// A branch behind an exchanger of this duty in W, where a latent one keeps its state from 0 to 1.
pub(crate) fn passed(
    place: Place,
    side: Side,
    is_latent: bool,
    from: &BranchValue,
    duty: &Frac,
) -> Result<BranchValue, Finding>
    requires { IsBelow rational_zero from.now.cp }
    ensures { Judged
        (pass_items place side is_latent from.now duty.now)
        (λ to. to ≡ passed_value side from.now duty.now)
        result }
{
    let Some(change) = duty.over(&from.cp) else {
        return Err(Finding::TooFine { place, step: 1 });
    };
    let Some(t) = moved(side, &from.t, &change) else {
        return Err(Finding::TooFine { place, step: 2 });
    };
    match keeps_load(is_latent, &t) {
        Ok(()) => Ok(BranchValue { cp: from.cp, t }),
        Err(reason) => Err(Finding::Failed { place, reason }),
    }
}

/// The state of a latent branch is a part of its load, from 0 to 1, or else why not.
fn keeps_load(is_latent: bool, state: &Frac) -> Result<(), Reason>
    ensures { Tested (λ at. load_items at is_latent state.now) (λ _. Unit {0}) result }
{
    if !is_latent {
        return Ok(());
    }
    let none = Frac::whole(0);
    if state.is_below(&none) {
        return Err(Reason::Overdrawn {
            found: *state,
            wanted: none,
        });
    }
    let all = Frac::whole(1);
    if all.is_below(state) {
        return Err(Reason::Overdrawn {
            found: *state,
            wanted: all,
        });
    }
    Ok(())
}

/// A state that falls by `change` on the hot side, or rises by it on the cold one: temperatures in
/// tenths of °C, or parts of a load.
fn moved(side: Side, t: &Frac, change: &Frac) -> Option<Frac>
    ensures { Gives result (moved side t.now change.now) }
{
    match side {
        Side::Hot => t.minus(change),
        Side::Cold => t.plus(change),
    }
}

/// Two branches together, or the number of the step that is too fine.
pub(crate) fn mixed(first: &BranchValue, second: &BranchValue) -> Result<BranchValue, u32>
    requires first { IsBelow rational_zero first.now.cp }
    requires second { IsBelow rational_zero second.now.cp }
    ensures { Formed
        (λ at. mix_items at first.now second.now)
        (λ to. to ≡ mixed_value first.now second.now)
        result }
{
    let Some(cp) = first.cp.plus(&second.cp) else {
        return Err(1);
    };
    if first.t == second.t {
        return Ok(BranchValue { cp, t: first.t });
    }
    let t = mean(first, second, &cp)?;
    Ok(BranchValue { cp, t })
}

/// The state of two branches together, which have this size, or the number of the step that is too
/// fine: the mean of their states by their sizes.
fn mean(first: &BranchValue, second: &BranchValue, cp: &Frac) -> Result<Frac, u32>
    requires { IsBelow rational_zero cp.now }
    ensures { Formed
        (λ at. mean_items at first.now second.now cp.now)
        (λ t. t ≡ over (heat_of_both first.now second.now) cp.now)
        result }
{
    let Some(one) = first.cp.times(&first.t) else {
        return Err(2);
    };
    let Some(other) = second.cp.times(&second.t) else {
        return Err(3);
    };
    let Some(both) = one.plus(&other) else {
        return Err(4);
    };
    let Some(t) = both.over(cp) else {
        return Err(5);
    };
    Ok(t)
}

/// A branch that ends carries its whole stream in its last state.
pub(crate) fn ended(value: &BranchValue, stream: &Stream) -> Result<(), Reason>
    requires { IsValidStream stream.now }
    ensures { Tested (λ at. end_items at value.now (Some stream.now)) (λ _. Unit {0}) result }
{
    let size = full_size(stream);
    if value.cp != size {
        return Err(Reason::Unfinished {
            found: value.cp,
            wanted: size,
        });
    }
    let state = last_state(stream);
    if value.t != state {
        return Err(Reason::MissedTarget {
            found: value.t,
            wanted: state,
        });
    }
    Ok(())
}

/// The side of the stream of a branch; hot, of which no rule speaks, where there is none.
fn branch_side(case: &Case, branches: &[Branch], number: u32) -> Side
    ensures { (network : Network) → network.branches ≡ branches.now
        → result ≡ branch_side case.now network number }
{
    case.side_of(Source::Stream(stream_at(branches, number)))
        .unwrap_or(Side::Hot)
}

/// Whether the stream of a branch is latent; not, of which no rule speaks, where there is none.
fn is_latent_branch(case: &Case, branches: &[Branch], number: u32) -> bool
    ensures { (network : Network) → network.branches ≡ branches.now
        → result ≡ is_latent_branch case.now network number }
{
    case.streams
        .get(stream_at(branches, number) as usize)
        .is_some_and(|s| s.is_latent())
}

/// What a statement makes of what the branches before it carry, or what is found at it.
pub(crate) fn made_by(
    case: &Case,
    network: &Network,
    joints: &[Joint],
    values: &[BranchValue],
    place: Place,
    line: &Line,
) -> Result<AtMostTwo<BranchValue>, Finding>
    requires complete { IsComplete case.now }
    requires joints { joints.now ≡ joints_of network.now }
    requires known { NamesKnown case.now network.now line.now }
    requires used { All (λ b. b < length values.now) (uses line.now) }
    requires positive { All (λ v. IsBelow rational_zero v.cp) values.now }
    ensures { Judged
        (line_items case.now network.now values.now place line.now)
        (λ made. members made ≡ made_values case.now network.now values.now line.now)
        result }
{
    match *line {
        Line::Exchanger { .. } => Ok(AtMostTwo::Nothing),
        Line::Split { from, cp, .. } => {
            let from = &values[from as usize];
            let rest = split_rest(place, from, &cp)?;
            Ok(AtMostTwo::Two(BranchValue { cp, t: from.t }, rest))
        }
        Line::Pass {
            from,
            exchanger,
            ..
        } => {
            let branches = network.branches.as_slice();
            let side = branch_side(case, branches, from);
            let is_latent = is_latent_branch(case, branches, from);
            let duty = joints[exchanger as usize].duty;
            let to = passed(place, side, is_latent, &values[from as usize], &duty)?;
            Ok(AtMostTwo::One(to))
        }
        Line::Mix { first, second, .. } => {
            match mixed(&values[first as usize], &values[second as usize]) {
                Ok(to) => Ok(AtMostTwo::One(to)),
                Err(step) => Err(Finding::TooFine { place, step }),
            }
        }
        Line::End { branch } => {
            let stream = stream_at(network.branches.as_slice(), branch);
            let Some(stream) = case.streams.get(stream as usize) else {
                return Ok(AtMostTwo::Nothing);
            };
            match ended(&values[branch as usize], stream) {
                Ok(()) => Ok(AtMostTwo::Nothing),
                Err(reason) => Err(Finding::Failed { place, reason }),
            }
        }
    }
}
