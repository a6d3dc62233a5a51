//! Printing a case.

ghost use Rattle.std.specs.Prelude.{◌≡◌, ◌≤◌, ◌++◌, All, IfOk, OnOk, drop, length, string_bytes};
ghost use Rattle.std.specs.List.{flat_map};
ghost use Rattle.rows.specs.Rows.{rows_of};
ghost use Rattle.stream_case.specs.Case.{IsValid, IsValidForbid};
ghost use Rattle.case_text.specs.Outcome.{IsCase};
ghost use Rattle.rows.specs.Printed.{contribution_row};
ghost use Rattle.rows.specs.Text.{fields_text, row_text, rows_text};
ghost use Rattle.case_text.specs.Printed.{contribution_field, forbid_row, load_field, printed_rows, stream_row, utility_row};

use std::alloc::{AllocError, Global};
use stream_case::{Case, Forbid, Side, Stream, Utility};

/// The line of the contribution.
#[tactic(auto, unfolding(rows::specs::Text::fields_text))]
fn contribution_line(alloc: Global, case: &Case) -> Result<String, AllocError>
    ensures { IfOk result
        (λ line. string_bytes line ≡ row_text (contribution_row case.now.contribution)) }
{
    format!(in alloc; "contribution,,{},,,,\n", case.contribution)
}

/// The field of a source's contribution, in tenths of °C: it is empty where that is the case's.
#[tactic(auto, unfolding(crate::specs::Printed::contribution_field))]
fn contribution_field(alloc: Global, case: &Case, contribution: i32) -> Result<String, AllocError>
    ensures { IfOk result (λ f. string_bytes f ≡ contribution_field case.now contribution) }
{
    if contribution == case.contribution {
        return Ok(String::new(alloc));
    }
    format!(in alloc; "{contribution}")
}

/// The field of a stream's load, in W: it is empty where that is 0, as a sensible stream's.
#[tactic(auto, unfolding(crate::specs::Printed::load_field))]
fn load_field(alloc: Global, load: i64) -> Result<String, AllocError>
    ensures { IfOk result (λ f. string_bytes f ≡ load_field load) }
{
    if load == 0 {
        return Ok(String::new(alloc));
    }
    format!(in alloc; "{load}")
}

/// The end of a stream's line, behind its temperatures: the heat-capacity flow, the load and the
/// contribution.
#[tactic(auto, unfolding(rows::specs::Text::fields_text))]
fn stream_end(alloc: Global, case: &Case, stream: &Stream) -> Result<String, AllocError>
    ensures { IfOk result
        (λ end. string_bytes end ≡ fields_text (drop 4 (stream_row case.now stream.now))) }
{
    let load = load_field(alloc, stream.load)?;
    let own = contribution_field(alloc, case, stream.contribution)?;
    format!(in alloc; ",{},{load},{own}\n", stream.cp)
}

/// The line of a stream.
#[tactic(auto, unfolding(rows::specs::Text::fields_text))]
fn stream_line(alloc: Global, case: &Case, stream: &Stream) -> Result<String, AllocError>
    ensures { IfOk result
        (λ line. string_bytes line ≡ row_text (stream_row case.now stream.now)) }
{
    let kind = match stream.side {
        Side::Hot => "hot",
        Side::Cold => "cold",
    };
    let end = stream_end(alloc, case, stream)?;
    format!(in alloc;
        "{kind},{},{},{}{end}",
        stream.name, stream.supply, stream.target
    )
}

/// The end of a utility's line, behind its level: the heats, the price and the contribution.
#[tactic(auto, unfolding(rows::specs::Text::fields_text))]
fn utility_end(alloc: Global, case: &Case, utility: &Utility) -> Result<String, AllocError>
    ensures { IfOk result
        (λ end. string_bytes end ≡ fields_text (drop 3 (utility_row case.now utility.now))) }
{
    let own = contribution_field(alloc, case, utility.contribution)?;
    format!(in alloc;
        ",{},{},{},{own}\n",
        utility.least, utility.most, utility.price
    )
}

/// The line of a utility.
#[tactic(auto, unfolding(rows::specs::Text::fields_text))]
fn utility_line(alloc: Global, case: &Case, utility: &Utility) -> Result<String, AllocError>
    ensures { IfOk result
        (λ line. string_bytes line ≡ row_text (utility_row case.now utility.now)) }
{
    let kind = match utility.side {
        Side::Hot => "heater",
        Side::Cold => "cooler",
    };
    let end = utility_end(alloc, case, utility)?;
    format!(in alloc; "{kind},{},{}{end}", utility.name, utility.level)
}

/// The line of a forbidden match.
#[tactic(auto, unfolding(rows::specs::Text::fields_text))]
fn forbid_line(alloc: Global, case: &Case, forbid: &Forbid) -> Result<String, AllocError>
    requires { IsValidForbid case.now forbid.now }
    ensures { IfOk result
        (λ line. string_bytes line ≡ row_text (forbid_row case.now forbid.now)) }
{
    let hot = case.name_of(forbid.hot);
    let cold = case.name_of(forbid.cold);
    format!(in alloc; "forbid,{hot},{cold},,,,\n")
}

/// Appends the lines of the streams.
fn push_streams(
    alloc: Global,
    text: &mut Vec<u8>,
    case: &Case,
    streams: &[Stream],
) -> Result<(), AllocError>
    ensures { OnOk result (text.new.items
        ≡ text.old.items ++ flat_map (λ s. row_text (stream_row case.now s)) streams.now) }
{
    for stream in streams {
        text.extend_from_slice(stream_line(alloc, case, stream)?.as_bytes())?;
    }
    Ok(())
}

/// Appends the lines of the utilities.
fn push_utilities(
    alloc: Global,
    text: &mut Vec<u8>,
    case: &Case,
    utilities: &[Utility],
) -> Result<(), AllocError>
    ensures { OnOk result (text.new.items
        ≡ text.old.items ++ flat_map (λ u. row_text (utility_row case.now u)) utilities.now) }
{
    for utility in utilities {
        text.extend_from_slice(utility_line(alloc, case, utility)?.as_bytes())?;
    }
    Ok(())
}

/// Appends the lines of the forbidden matches.
fn push_forbids(
    alloc: Global,
    text: &mut Vec<u8>,
    case: &Case,
    forbids: &[Forbid],
) -> Result<(), AllocError>
    requires { All (IsValidForbid case.now) forbids.now }
    ensures { OnOk result (text.new.items
        ≡ text.old.items ++ flat_map (λ f. row_text (forbid_row case.now f)) forbids.now) }
{
    for forbid in forbids {
        text.extend_from_slice(forbid_line(alloc, case, forbid)?.as_bytes())?;
    }
    Ok(())
}

/// Prints a case as a case file: the contribution, the streams, the utilities and the forbidden
/// matches in their order, one a row, with seven fields and without quotes. The contribution of
/// a source stands in its row only where it is not that of the case, and a load only in that of a
/// latent stream, which has the heat-capacity flow 0. `read_case` gives the case back.
pub fn print_case(alloc: Global, case: &Case) -> Result<Vec<u8>, AllocError>
    requires { IsValid case.now }
    ensures text { IfOk result (λ text. text.items ≡ rows_text (printed_rows case.now)) }
    ensures read_back { IfOk result (λ text. IsCase (rows_of text.items) case.now) }
    ensures short { IfOk result (λ text. length text.items ≤ 2000000000) }
{
    let mut text = Vec::new(alloc);
    text.extend_from_slice(contribution_line(alloc, case)?.as_bytes())?;
    push_streams(alloc, &mut text, case, case.streams.as_slice())?;
    push_utilities(alloc, &mut text, case, case.utilities.as_slice())?;
    push_forbids(alloc, &mut text, case, case.forbids.as_slice())?;
    Ok(text)
}
