//! The text of a site: its profiles, and the least boiler heat with its certificate.
ghost use Rattle.std.specs.Prelude.{◌≡◌, IfOk, string_bytes};
ghost use Rattle.reports.specs.Site.{answer_lines, boiler_heat, cooling_heat, least_lines, profile_line, profile_lines, total_site_text};

use crate::cut::stuck_text;
use crate::flow::certificate_lines;
use crate::line::{line, number_at};
use crate::names::{SourceNames, site_names};
use grid::Parts;
use heat_flow::{Prices, Transfer, utility_heat};
use site::{Site, SiteTable};
use std::alloc::{AllocError, Global};
use stream_case::{Items, Side};
use transport::Answer;

/// The profiles at each place, then the boiler and the cooling with the transfers and the prices,
/// or that there is no heat flow, with a cut.
pub fn total_site_text(
    alloc: Global,
    site: &Site,
    table: &SiteTable,
    sinks: &Items<i64>,
    sources: &Items<i64>,
    answer: &Answer,
) -> Result<Vec<u8>, AllocError>
    ensures { IfOk result (λ text. text.items
        ≡ total_site_text site.now table.now sinks.now sources.now answer.now) }
{
    let names = site_names(alloc, site)?;
    let places = table.places.as_slice();
    let mut text = profile_lines(alloc, places, sinks.as_slice(), sources.as_slice())?;
    text.push_str(&answer_lines(alloc, &names, &table.parts, answer)?)?;
    Ok(text.into_bytes())
}

fn profile_lines(
    alloc: Global,
    places: &[i32],
    sinks: &[i64],
    sources: &[i64],
) -> Result<String, AllocError>
    ensures { IfOk result (λ text. string_bytes text
        ≡ profile_lines places.now sinks.now sources.now) }
{
    let mut text = String::new(alloc);
    for (index, place) in places.iter().enumerate() {
        let sink = number_at(sinks, index);
        let source = number_at(sources, index);
        text.push_str(&profile_line(alloc, *place, sink, source)?)?;
    }
    Ok(text)
}

/// A place, what the plants can take above it, and what they can give below it.
fn profile_line(alloc: Global, place: i32, sink: i64, source: i64) -> Result<String, AllocError>
    ensures { IfOk result (λ text. string_bytes text ≡ profile_line place sink source) }
{
    let word = format!(in alloc; "profile {place} {sink}")?;
    line(alloc, &word, i128::from(source))
}

fn answer_lines(
    alloc: Global,
    names: &SourceNames,
    parts: &Parts,
    answer: &Answer,
) -> Result<String, AllocError>
    ensures { IfOk result
        (λ text. string_bytes text ≡ answer_lines names.now parts.now answer.now) }
{
    match answer {
        Answer::Least { flow, prices, .. } => {
            least_lines(alloc, names, parts, flow.transfers.as_slice(), prices)
        }
        Answer::Stuck(cut) => stuck_text(alloc, names, parts, cut),
    }
}

/// What the boiler gives and the cooling takes, the transfers and the prices.
fn least_lines(
    alloc: Global,
    names: &SourceNames,
    parts: &Parts,
    transfers: &[Transfer],
    prices: &Prices,
) -> Result<String, AllocError>
    ensures { IfOk result (λ text. string_bytes text
        ≡ least_lines names.now parts.now transfers.now prices.now) }
{
    let mut text = line(alloc, "boiler", boiler_heat(parts, transfers))?;
    text.push_str(&line(alloc, "cooling", cooling_heat(parts, transfers))?)?;
    text.push_str(&certificate_lines(alloc, names, parts, transfers, prices)?)?;
    Ok(text)
}

/// What the boiler gives in all, which is utility 0 of a site.
fn boiler_heat(parts: &Parts, transfers: &[Transfer]) -> i128
    ensures { result ≡ boiler_heat parts.now transfers.now }
{
    utility_heat(0, Side::Hot, parts.hot.as_slice(), transfers)
}

/// What the cooling takes in all, which is utility 1 of a site.
fn cooling_heat(parts: &Parts, transfers: &[Transfer]) -> i128
    ensures { result ≡ cooling_heat parts.now transfers.now }
{
    utility_heat(1, Side::Cold, parts.cold.as_slice(), transfers)
}
