//! The profiles of a site.
ghost use Rattle.std.specs.Prelude.{◌≡◌, All, fold};
ghost use Rattle.stream_case.specs.Limits.{IsContribution, IsTemperature};
ghost use Rattle.stream_case.specs.Stream.{IsValidStream, stream_ends};
ghost use Rattle.site.specs.Directions.{IsImbalance, IsPlantHeat, imbalance, is_beyond, plant_profile, profile, raised};
ghost use Rattle.site.specs.Profiles.{sink_profile, source_profile};
ghost use Rattle.site_text.specs.Site.{ArePlantStreams, IsValidSite, streams_of};
ghost use Rattle.site.specs.Table.{main_places, site_places};

use crate::places::{gives_at, takes_at};
use problem_table::deficit_of;
use site_text::{Main, Plant, Site};
use stream_case::Stream;

/// Where a profile looks from its temperature.
#[derive(Clone, Copy)]
enum Direction {
    /// Above it, where a plant may want heat.
    Up,
    /// Below it, where a plant may have heat to give.
    Down,
}

/// The deficit of streams above a place, or their surplus below it, in W.
fn imbalance(direction: Direction, streams: &[Stream], place: i32) -> i64
    requires { ArePlantStreams streams.now }
    ensures value { result ≡ imbalance direction streams.now place }
    ensures range { IsImbalance result }
{
    match direction {
        Direction::Up => deficit_of(streams, place),
        // All heats lie above the least number.
        Direction::Down => deficit_of(streams, place) - deficit_of(streams, i32::MIN),
    }
}

/// Whether a place lies at `t` or beyond it.
fn is_beyond(direction: Direction, t: i32, place: i32) -> bool
    ensures { result ≡ is_beyond direction t place }
{
    match direction {
        Direction::Up => t <= place,
        Direction::Down => place <= t,
    }
}

/// The greater of `so_far` and the imbalance of streams at a place, if it lies at `t` or beyond it.
fn raised(direction: Direction, t: i32, streams: &[Stream], so_far: i64, place: i32) -> i64
    requires streams { ArePlantStreams streams.now }
    requires so_far { IsPlantHeat so_far }
    ensures value { result ≡ raised direction t streams.now so_far place }
    ensures range { IsPlantHeat result }
{
    if is_beyond(direction, t, place) {
        so_far.max(imbalance(direction, streams, place))
    } else {
        so_far
    }
}

/// The same at the ends of other streams.
fn raised_by_ends(
    direction: Direction,
    t: i32,
    streams: &[Stream],
    so_far: i64,
    others: &[Stream],
) -> i64
    requires streams { ArePlantStreams streams.now }
    requires so_far { IsPlantHeat so_far }
    requires others { All IsValidStream others.now }
    ensures value { result
        ≡ fold (raised direction t streams.now) so_far (stream_ends others.now) }
    ensures range { IsPlantHeat result }
{
    let mut greatest = so_far;
    for stream in others {
        greatest = raised(direction, t, streams, greatest, stream.high_end());
        greatest = raised(direction, t, streams, greatest, stream.low_end());
    }
    greatest
}

/// The same at the ends of the streams of plants.
fn raised_by_plants(
    direction: Direction,
    t: i32,
    streams: &[Stream],
    so_far: i64,
    plants: &[Plant],
) -> i64
    requires streams { ArePlantStreams streams.now }
    requires so_far { IsPlantHeat so_far }
    requires plants { All IsValidStream (streams_of plants.now) }
    ensures value { result
        ≡ fold (raised direction t streams.now) so_far (stream_ends (streams_of plants.now)) }
    ensures range { IsPlantHeat result }
{
    let mut greatest = so_far;
    for plant in plants {
        greatest = raised_by_ends(direction, t, streams, greatest, plant.streams.as_slice());
    }
    greatest
}

/// The same at the two places of each main.
fn raised_by_mains(
    direction: Direction,
    t: i32,
    streams: &[Stream],
    so_far: i64,
    mains: &[Main],
    contribution: i32,
) -> i64
    requires streams { ArePlantStreams streams.now }
    requires so_far { IsPlantHeat so_far }
    requires levels { All (λ main. IsTemperature main.level) mains.now }
    requires contribution { IsContribution contribution }
    ensures value { result
        ≡ fold (raised direction t streams.now) so_far (main_places contribution mains.now) }
    ensures range { IsPlantHeat result }
{
    let mut greatest = so_far;
    for main in mains {
        greatest = raised(
            direction,
            t,
            streams,
            greatest,
            takes_at(main, contribution),
        );
        greatest = raised(
            direction,
            t,
            streams,
            greatest,
            gives_at(main, contribution),
        );
    }
    greatest
}

/// The greatest imbalance of a plant at a place of the site, or at `t` itself, that lies at `t` or
/// beyond it; and at least 0.
fn plant_profile(direction: Direction, site: &Site, t: i32, plant: &Plant) -> i64
    requires valid { IsValidSite site.now }
    requires streams { ArePlantStreams plant.now.streams }
    ensures value { result ≡ plant_profile direction (site_places site.now) t plant.now }
    ensures range { IsPlantHeat result }
{
    let streams = plant.streams.as_slice();
    let at_t = raised(direction, t, streams, 0, t);
    let at_ends = raised_by_plants(direction, t, streams, at_t, site.plants.as_slice());
    let mains = site.mains.as_slice();
    raised_by_mains(direction, t, streams, at_ends, mains, site.contribution)
}

/// The sum of these over the plants of a site.
fn profile(direction: Direction, site: &Site, t: i32) -> i64
    requires { IsValidSite site.now }
    ensures { result ≡ profile direction site.now t }
{
    let plants = site.plants.as_slice();
    let mut heat = 0;
    for plant in plants {
        heat += plant_profile(direction, site, t, plant);
    }
    heat
}

/// The heat in W that the plants of a site can take from the mains above the shifted temperature
/// `t`, in tenths of °C: for each plant the greatest deficit above `t` or a place of the site
/// above it, and at least 0. So the surplus of one plant does not make up for the deficit of
/// another, and none of it for the deficit of its own plant below (the closed profiles of this
/// project, after total site analysis).
pub fn sink_profile(site: &Site, t: i32) -> i64
    requires { IsValidSite site.now }
    ensures { result ≡ sink_profile site.now t }
{
    profile(Direction::Up, site, t)
}

/// The heat in W that the plants of a site can give to the mains below the shifted temperature
/// `t`, in tenths of °C: for each plant the greatest surplus below `t` or a place of the site
/// below it, and at least 0.
pub fn source_profile(site: &Site, t: i32) -> i64
    requires { IsValidSite site.now }
    ensures { result ≡ source_profile site.now t }
{
    profile(Direction::Down, site, t)
}
