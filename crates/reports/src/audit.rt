//! The texts of what an audit says of a network.
ghost use Rattle.std.specs.Prelude.{◌≡◌, IfOk, string_bytes};
ghost use Rattle.std.specs.List.{flat_map};
ghost use Rattle.network_text.specs.Printed.{exchanger_name};
ghost use Rattle.reports.specs.Audit.{accepted_text, balance_lines, floor_lines, fraction_line, loss_text, measured_text, penalty_line, penalty_lines, place_text, reason_text, rejected_text, too_fine_text};

use crate::line::line;
use crate::names::{case_names, name_at};
use fractions::Frac;
use network_audit::{Balance, Place, Reason};
use network_text::{Network, exchanger_names};
use penalties::{Penalty, PenaltyList};
use std::alloc::{AllocError, Global};
use stream_case::{Case, Name, Source};

/// A network that is accepted: its balance, the floor under its cost, the reference place of its
/// case, and its penalties.
pub fn accepted_text(
    alloc: Global,
    case: &Case,
    network: &Network,
    balance: &Balance,
    reference: i32,
    floor: i128,
    penalties: &PenaltyList,
) -> Result<Vec<u8>, AllocError>
    ensures { IfOk result (λ text. text.items
        ≡ accepted_text case.now network.now balance.now reference floor penalties.now) }
{
    let mut text = String::from_str(alloc, "accepted\n")?;
    text.push_str(&balance_lines(alloc, balance)?)?;
    text.push_str(&floor_lines(alloc, floor, reference)?)?;
    text.push_str(&penalty_lines(alloc, case, network, penalties)?)?;
    Ok(text.into_bytes())
}

/// A network that is rejected: where, and for what reason.
pub fn rejected_text(
    alloc: Global,
    case: &Case,
    network: &Network,
    place: Place,
    reason: Reason,
) -> Result<Vec<u8>, AllocError>
    ensures { IfOk result
        (λ text. text.items ≡ rejected_text case.now network.now place reason) }
{
    let place = place_text(alloc, case, network, place)?;
    let reason = reason_text(alloc, reason)?;
    Ok(format!(in alloc; "rejected {place} {reason}\n")?.into_bytes())
}

/// A network whose numbers become too fine: where, and at which step.
pub fn too_fine_text(
    alloc: Global,
    case: &Case,
    network: &Network,
    place: Place,
    step: u32,
) -> Result<String, AllocError>
    ensures { IfOk result
        (λ text. string_bytes text ≡ too_fine_text case.now network.now place step) }
{
    let place = place_text(alloc, case, network, place)?;
    format!(in alloc; "too fine {place} step {step}\n")
}

/// The heat of the utilities, the excess and the cost, a line each.
fn balance_lines(alloc: Global, balance: &Balance) -> Result<String, AllocError>
    ensures { IfOk result (λ text. string_bytes text ≡ balance_lines balance.now) }
{
    let mut text = fraction_line(alloc, "hot", balance.hot)?;
    text.push_str(&fraction_line(alloc, "cold", balance.cold)?)?;
    text.push_str(&fraction_line(alloc, "excess", balance.excess)?)?;
    text.push_str(&fraction_line(alloc, "cost", balance.cost)?)?;
    Ok(text)
}

/// The floor under the cost and the reference place, a line each.
fn floor_lines(alloc: Global, floor: i128, reference: i32) -> Result<String, AllocError>
    ensures { IfOk result (λ text. string_bytes text ≡ floor_lines floor reference) }
{
    let mut text = line(alloc, "floor", floor)?;
    text.push_str(&line(alloc, "place", i128::from(reference))?)?;
    Ok(text)
}

/// A line for each penalty, or one that they are too fine.
fn penalty_lines(
    alloc: Global,
    case: &Case,
    network: &Network,
    penalties: &PenaltyList,
) -> Result<String, AllocError>
    ensures { IfOk result
        (λ text. string_bytes text ≡ penalty_lines case.now network.now penalties.now) }
{
    match penalties {
        PenaltyList::Listed(listed) => {
            // All names at once, so that the time is linear in the network.
            let names = exchanger_names(alloc, network)?;
            listed_lines(alloc, names.as_slice(), listed.as_slice())
        }
        PenaltyList::TooFine { place, step } => {
            let text = too_fine_text(alloc, case, network, *place, *step)?;
            format!(in alloc; "penalties {text}")
        }
    }
}

fn listed_lines(alloc: Global, names: &[Name], penalties: &[Penalty]) -> Result<String, AllocError>
    ensures { IfOk result
        (λ text. string_bytes text ≡ flat_map (penalty_line names.now) penalties.now) }
{
    let mut text = String::new(alloc);
    for penalty in penalties {
        text.push_str(&penalty_line(alloc, names, penalty)?)?;
    }
    Ok(text)
}

fn penalty_line(alloc: Global, names: &[Name], penalty: &Penalty) -> Result<String, AllocError>
    ensures { IfOk result (λ text. string_bytes text ≡ penalty_line names.now penalty.now) }
{
    let word = format!(in alloc; "penalty {}", loss_text(alloc, names, penalty.place)?)?;
    fraction_line(alloc, &word, penalty.value)
}

/// What has a penalty: an exchanger by its name, or a mix by its line.
fn loss_text(alloc: Global, names: &[Name], place: Place) -> Result<String, AllocError>
    ensures { IfOk result (λ text. string_bytes text ≡ loss_text names.now place) }
{
    match place {
        Place::Exchanger(index) => { format!(in alloc; "exchanger {}", name_at(names, index)) }
        Place::Line(number) => format!(in alloc; "mix {number}"),
        Place::Stream(_) | Place::Utility(_) | Place::Balance => Ok(String::new(alloc)),
    }
}

/// A line of a word and a fraction.
fn fraction_line(alloc: Global, word: &str, number: Frac) -> Result<String, AllocError>
    ensures { IfOk result (λ text. string_bytes text ≡ fraction_line word.now number) }
{
    format!(in alloc; "{word} {number}\n")
}

/// What stands at a place, by its name or its number.
fn place_text(
    alloc: Global,
    case: &Case,
    network: &Network,
    place: Place,
) -> Result<String, AllocError>
    ensures { IfOk result (λ text. string_bytes text ≡ place_text case.now network.now place) }
{
    match place {
        Place::Line(number) => format!(in alloc; "line {number}"),
        Place::Stream(index) => {
            let names = case_names(alloc, case)?;
            format!(in alloc; "stream {}", names.source_name(Source::Stream(index)))
        }
        Place::Exchanger(index) => {
            format!(in alloc; "exchanger {}", exchanger_name(alloc, network, index)?)
        }
        Place::Utility(index) => {
            let names = case_names(alloc, case)?;
            format!(in alloc; "utility {}", names.source_name(Source::Utility(index)))
        }
        Place::Balance => String::from_str(alloc, "balance"),
    }
}

/// The name of an exchanger.
fn exchanger_name(alloc: Global, network: &Network, index: u32) -> Result<String, AllocError>
    ensures { IfOk result (λ text. string_bytes text ≡ exchanger_name network.now index) }
{
    let names = exchanger_names(alloc, network)?;
    String::from_str(alloc, name_at(names.as_slice(), index))
}

/// The name of a reason, with what was found and what was wanted.
fn reason_text(alloc: Global, reason: Reason) -> Result<String, AllocError>
    ensures { IfOk result (λ text. string_bytes text ≡ reason_text reason) }
{
    match reason {
        Reason::Overdrawn { found, wanted } => measured_text(alloc, "Overdrawn", found, wanted),
        Reason::MissedTarget { found, wanted } => {
            measured_text(alloc, "MissedTarget", found, wanted)
        }
        Reason::Unfinished { found, wanted } => measured_text(alloc, "Unfinished", found, wanted),
        Reason::HotEndApproach { found, wanted } => {
            measured_text(alloc, "HotEndApproach", found, wanted)
        }
        Reason::ColdEndApproach { found, wanted } => {
            measured_text(alloc, "ColdEndApproach", found, wanted)
        }
        Reason::UtilityRange { found, wanted } => {
            measured_text(alloc, "UtilityRange", found, wanted)
        }
        Reason::Forbidden => String::from_str(alloc, "Forbidden"),
    }
}

fn measured_text(alloc: Global, name: &str, found: Frac, wanted: Frac) -> Result<String, AllocError>
    ensures { IfOk result (λ text. string_bytes text ≡ measured_text name.now found wanted) }
{
    format!(in alloc; "{name} found {found} wanted {wanted}")
}
