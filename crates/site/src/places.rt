//! The streams of a site, and its places on the shifted scale.
ghost use Rattle.std.specs.Prelude.{◌≡◌, ◌++◌, All, IfOk, OnOk};
ghost use Rattle.stream_case.specs.Limits.{IsContribution, IsTemperature};
ghost use Rattle.site_text.specs.Site.{IsValidSite, streams_of};
ghost use Rattle.site.specs.Table.{gives_at, main_places, site_places, takes_at};

use site_text::{Main, Plant, Site};
use std::alloc::{AllocError, Global};
use stream_case::{Side, Stream, shifted, stream_ends};

/// The streams of plants, in their order.
pub fn streams_of(alloc: Global, plants: &[Plant]) -> Result<Vec<Stream>, AllocError>
    ensures { IfOk result (λ streams. streams.items ≡ streams_of plants.now) }
{
    let mut streams = Vec::new(alloc);
    for plant in plants {
        streams.extend_from_slice(plant.streams.as_slice())?;
    }
    Ok(streams)
}

/// The place where a main takes heat, in tenths of °C on the shifted scale.
pub fn takes_at(main: &Main, contribution: i32) -> i32
    requires level { IsTemperature main.now.level }
    requires contribution { IsContribution contribution }
    ensures { result ≡ takes_at contribution main.now }
{
    shifted(Side::Cold, main.level, contribution)
}

/// The place where a main gives heat, in tenths of °C on the shifted scale.
pub fn gives_at(main: &Main, contribution: i32) -> i32
    requires level { IsTemperature main.now.level }
    requires contribution { IsContribution contribution }
    ensures { result ≡ gives_at contribution main.now }
{
    shifted(Side::Hot, main.level, contribution)
}

/// Appends the two places of each main.
fn push_mains(places: &mut Vec<i32>, mains: &[Main], contribution: i32) -> Result<(), AllocError>
    requires levels { All (λ main. IsTemperature main.level) mains.now }
    requires contribution { IsContribution contribution }
    ensures { OnOk result
        (places.new.items ≡ places.old.items ++ main_places contribution mains.now) }
{
    for main in mains {
        places.push(takes_at(main, contribution))?;
        places.push(gives_at(main, contribution))?;
    }
    Ok(())
}

/// The shifted ends of the streams of a site, and the two places of each of its mains.
pub fn site_places(alloc: Global, site: &Site, streams: &[Stream]) -> Result<Vec<i32>, AllocError>
    requires valid { IsValidSite site.now }
    requires streams { streams.now ≡ streams_of site.now.plants }
    ensures { IfOk result (λ places. places.items ≡ site_places site.now) }
{
    let mut places = stream_ends(alloc, streams)?;
    push_mains(&mut places, site.mains.as_slice(), site.contribution)?;
    Ok(places)
}
