//! The table of the pairs of parts of a site that reach each other.
ghost use Rattle.std.specs.Prelude.{◌≡◌, ℕ, ◌++◌, All, length, map, IfOk, OnOk};
ghost use Rattle.std.specs.List.{list_any};
ghost use Rattle.stream_case.specs.Limits.{IsContribution, IsTemperature};
ghost use Rattle.heat_flow.specs.Table.{reaches};
ghost use Rattle.site_text.specs.Site.{IsValidSite};
ghost use Rattle.site.specs.Reach.{are_together, passes_through, plant_of, reach_between, reaches_within, stream_plants};

use crate::places::{gives_at, takes_at};
use grid::{Part, Parts};
use heat_flow::{Reach, passes_heat};
use site_text::{Main, Plant, Site};
use std::alloc::{AllocError, Global};
use stream_case::{Items, Source, Stream};

/// Appends the index of a plant once for each of its streams.
fn push_plant(plants: &mut Vec<usize>, plant: usize, streams: &[Stream]) -> Result<(), AllocError>
    ensures { OnOk result (plants.new.items ≡ plants.old.items ++ map (λ s. plant) streams.now) }
{
    for _stream in streams {
        plants.push(plant)?;
    }
    Ok(())
}

/// For each stream of the plants, in their order, the index of its plant.
fn stream_plants(alloc: Global, plants: &[Plant]) -> Result<Vec<usize>, AllocError>
    ensures { IfOk result (λ indexes. indexes.items ≡ stream_plants plants.now) }
{
    let mut indexes = Vec::new(alloc);
    for (index, plant) in plants.iter().enumerate() {
        push_plant(&mut indexes, index, plant.streams.as_slice())?;
    }
    Ok(indexes)
}

/// The index of the plant of a source, where the streams have these plants; the utilities belong
/// to none.
fn plant_of(plants: &[usize], source: Source) -> Option<usize>
    ensures { result ≡ plant_of plants.now source }
{
    match source {
        Source::Stream(index) => plants.get(index as usize).copied(),
        Source::Utility(_) => None,
    }
}

/// Whether two sources are of one plant, or one of them is a utility.
fn are_together(plant: Option<usize>, other: Option<usize>) -> bool
    ensures { result ≡ are_together plant other }
{
    match (plant, other) {
        (Some(plant), Some(other)) => plant == other,
        _ => true,
    }
}

/// Whether heat passes from a hot part through a main to a cold part.
fn passes_through(main: &Main, contribution: i32, hot: &Part, cold: &Part) -> bool
    requires level { IsTemperature main.now.level }
    requires contribution { IsContribution contribution }
    ensures { result ≡ passes_through contribution hot.now cold.now main.now }
{
    takes_at(main, contribution) <= hot.low && cold.high <= gives_at(main, contribution)
}

/// Whether heat passes from a hot part through one of these mains to a cold part.
fn passes_through_some(mains: &[Main], contribution: i32, hot: &Part, cold: &Part) -> bool
    requires levels { All (λ main. IsTemperature main.level) mains.now }
    requires contribution { IsContribution contribution }
    ensures { result ≡ list_any (passes_through contribution hot.now cold.now) mains.now }
{
    for main in mains {
        if passes_through(main, contribution, hot, cold) {
            return true;
        }
    }
    false
}

/// Whether a hot part reaches a cold part, where the streams have these plants.
fn reaches_within(site: &Site, plants: &[usize], hot: &Part, cold: &Part) -> bool
    requires { IsValidSite site.now }
    ensures { result ≡ reaches_within site.now plants.now hot.now cold.now }
{
    if are_together(plant_of(plants, hot.source), plant_of(plants, cold.source)) {
        passes_heat(hot, cold)
    } else {
        passes_through_some(site.mains.as_slice(), site.contribution, hot, cold)
    }
}

/// Appends the row of a hot part.
fn push_row(
    cells: &mut Vec<bool>,
    site: &Site,
    plants: &[usize],
    hot: &Part,
    cold: &[Part],
) -> Result<(), AllocError>
    requires { IsValidSite site.now }
    ensures { OnOk result (cells.new.items
        ≡ cells.old.items ++ map (reaches_within site.now plants.now hot.now) cold.now) }
{
    for part in cold {
        cells.push(reaches_within(site, plants, hot, part))?;
    }
    Ok(())
}

/// The table of the pairs of the parts of a site. Within a plant, and where the boiler or the
/// cooling takes part, a hot part reaches a cold part as in a case without forbidden matches.
/// Between two plants it does where some main takes heat at most at its low and gives heat at
/// least at the cold part's high; heat that is let down to a lower main serves nothing further,
/// since the lower main could take it at once (this project's rule).
pub fn reach_of(alloc: Global, site: &Site, parts: &Parts) -> Result<Reach, AllocError>
    requires { IsValidSite site.now }
    ensures hots { IfOk result (λ reach. reach.hots ≡ length parts.now.hot) }
    ensures colds { IfOk result (λ reach. reach.colds ≡ length parts.now.cold) }
    ensures cells { IfOk result (λ reach. (a b : ℕ)
        → reaches reach a b ≡ reach_between site.now parts.now.hot parts.now.cold a b) }
{
    let indexes = stream_plants(alloc, site.plants.as_slice())?;
    let plants = indexes.as_slice();
    let hot = parts.hot.as_slice();
    let cold = parts.cold.as_slice();
    let mut cells = Vec::with_capacity(alloc, hot.len() * cold.len())?;
    for part in hot {
        push_row(&mut cells, site, plants, part, cold)?;
    }
    Ok(Reach {
        hots: hot.len() as u32,
        colds: cold.len() as u32,
        cells: Items::from_vec(cells),
    })
}
