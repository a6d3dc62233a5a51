//! Printing a network.

ghost use Rattle.std.specs.Prelude.{◌≡◌, ◌<◌, IfOk, length, string_bytes};
ghost use Rattle.std.specs.List.{filter_map};
ghost use Rattle.stream_case.specs.Case.{IsComplete, IsSourceOf};
ghost use Rattle.network_text.specs.Outcome.{IsNetworkOf};
ghost use Rattle.networks.specs.Shape.{HasShape, KeepsCounts, NamesKnown};
ghost use Rattle.statements.specs.Statements.{statement_text};
ghost use Rattle.network_text.specs.Printed.{HasShortLines, branch_name, declared_name, end_statement, exchanger_names, exchanger_statement, mix_statement, pass_statement, split_statement, statement_of, text_of};

use fractions::Frac;
use networks::{Line, Network};
use std::alloc::{AllocError, Global};
use stream_case::{Case, Name, Source};

/// The name of a branch.
#[tactic(auto, unfolding(crate::specs::Printed::branch_name))]
fn branch_name(network: &Network, number: u32) -> Name
    requires { number < length network.now.branches }
    ensures { result ≡ branch_name network.now number }
{
    network.branches.as_slice()[number as usize].name
}

/// The name of the exchanger that a line declares, if it declares one.
fn declared_name(line: &Line) -> Option<Name>
    ensures { result ≡ declared_name line.now }
{
    match *line {
        Line::Exchanger { name, .. } => Some(name),
        _ => None,
    }
}

/// The names of the exchangers that lines declare, in their order.
fn declared_names(alloc: Global, lines: &[Line]) -> Result<Vec<Name>, AllocError>
    ensures { IfOk result (λ names. names.items ≡ filter_map declared_name lines.now) }
{
    lines
        .iter()
        .filter_map(|line| declared_name(line))
        .collect(alloc)
}

/// The names of the exchangers of a network, in the order in which they are declared.
pub fn exchanger_names(alloc: Global, network: &Network) -> Result<Vec<Name>, AllocError>
    ensures { IfOk result (λ names. names.items ≡ exchanger_names network.now) }
{
    declared_names(alloc, network.lines.as_slice())
}

/// The line that declares an exchanger.
#[tactic(auto, unfolding(statements::specs::Statements::fields_text))]
fn exchanger_line(
    alloc: Global,
    case: &Case,
    name: Name,
    hot: Source,
    cold: Source,
    duty: Frac,
) -> Result<String, AllocError>
    requires hot { IsSourceOf case.now hot }
    requires cold { IsSourceOf case.now cold }
    ensures { IfOk result (λ line.
        string_bytes line ≡ statement_text (exchanger_statement case.now name hot cold duty)) }
{
    let hot = case.name_of(hot);
    let cold = case.name_of(cold);
    format!(in alloc; "exchanger {name} {hot} {cold} {duty}\n")
}

/// The line that divides a branch in two.
#[tactic(auto, unfolding(statements::specs::Statements::fields_text))]
fn split_line(
    alloc: Global,
    network: &Network,
    from: u32,
    first: u32,
    cp: Frac,
    second: u32,
) -> Result<String, AllocError>
    requires from { from < length network.now.branches }
    requires first { first < length network.now.branches }
    requires second { second < length network.now.branches }
    ensures { IfOk result (λ line.
        string_bytes line ≡ statement_text (split_statement network.now from first cp second)) }
{
    let from = branch_name(network, from);
    let first = branch_name(network, first);
    let second = branch_name(network, second);
    format!(in alloc; "split {from} {first} {cp} {second}\n")
}

/// The line that leads a branch through an exchanger.
#[tactic(auto, unfolding(statements::specs::Statements::fields_text))]
fn pass_line(
    alloc: Global,
    network: &Network,
    from: u32,
    exchanger: Name,
    to: u32,
) -> Result<String, AllocError>
    requires from { from < length network.now.branches }
    requires to { to < length network.now.branches }
    ensures { IfOk result (λ line.
        string_bytes line ≡ statement_text (pass_statement network.now from exchanger to)) }
{
    let from = branch_name(network, from);
    let to = branch_name(network, to);
    format!(in alloc; "pass {from} {exchanger} {to}\n")
}

/// The line that joins two branches.
#[tactic(auto, unfolding(statements::specs::Statements::fields_text))]
fn mix_line(
    alloc: Global,
    network: &Network,
    first: u32,
    second: u32,
    to: u32,
) -> Result<String, AllocError>
    requires first { first < length network.now.branches }
    requires second { second < length network.now.branches }
    requires to { to < length network.now.branches }
    ensures { IfOk result (λ line.
        string_bytes line ≡ statement_text (mix_statement network.now first second to)) }
{
    let first = branch_name(network, first);
    let second = branch_name(network, second);
    let to = branch_name(network, to);
    format!(in alloc; "mix {first} {second} {to}\n")
}

/// The line that closes a branch.
#[tactic(auto, unfolding(statements::specs::Statements::fields_text))]
fn end_line(alloc: Global, network: &Network, branch: u32) -> Result<String, AllocError>
    requires { branch < length network.now.branches }
    ensures { IfOk result (λ line.
        string_bytes line ≡ statement_text (end_statement network.now branch)) }
{
    let branch = branch_name(network, branch);
    format!(in alloc; "end {branch}\n")
}

/// A statement of the network as a line.
fn statement_line(
    alloc: Global,
    case: &Case,
    network: &Network,
    exchangers: &[Name],
    line: &Line,
) -> Result<String, AllocError>
    requires exchangers { exchangers.now ≡ exchanger_names network.now }
    requires known { NamesKnown case.now network.now line.now }
    ensures { IfOk result (λ text.
        string_bytes text ≡ statement_text (statement_of case.now network.now line.now)) }
{
    match *line {
        Line::Exchanger {
            name,
            hot,
            cold,
            duty,
        } => exchanger_line(alloc, case, name, hot, cold, duty),
        Line::Split {
            from,
            first,
            cp,
            second,
        } => split_line(alloc, network, from, first, cp, second),
        Line::Pass {
            from,
            exchanger,
            to,
        } => pass_line(alloc, network, from, exchangers[exchanger as usize], to),
        Line::Mix { first, second, to } => mix_line(alloc, network, first, second, to),
        Line::End { branch } => end_line(alloc, network, branch),
    }
}

/// Prints a network as text: its statements in order, one a line, with single spaces between
/// the fields. `read_network` gives the network back, where its statements and exchangers are not
/// too many for a text.
pub fn print_network(alloc: Global, case: &Case, network: &Network) -> Result<Vec<u8>, AllocError>
    requires complete { IsComplete case.now }
    requires shape { HasShape case.now network.now }
    ensures text { IfOk result (λ text. text.items ≡ text_of case.now network.now) }
    ensures short { IfOk result (λ text. HasShortLines network.now text.items) }
    ensures read_back { KeepsCounts network.now → IfOk result (λ text.
        IsNetworkOf case.now text.items network.now) }
{
    let lines = network.lines.as_slice();
    let exchangers = exchanger_names(alloc, network)?;
    let mut text = Vec::new(alloc);
    for line in lines {
        let printed = statement_line(alloc, case, network, exchangers.as_slice(), line)?;
        text.extend_from_slice(printed.as_bytes())?;
    }
    Ok(text)
}
