//! The boiler and the cooling of a site.
ghost use Rattle.std.specs.Prelude.{◌≡◌, ◌<◌, ◌-ℤ◌, length, map};
ghost use Rattle.stream_case.specs.Case.{greatest, least};
ghost use Rattle.site_text.specs.Site.{IsValidSite};
ghost use Rattle.site.specs.Table.{boiler, cooling, site_places};

use site_text::{Main, Site};
use stream_case::{MOST_HEAT, Name, Side, Utility};

/// The level of the highest main.
fn highest_level(mains: &[Main]) -> i32
    requires { 0 < length mains.now }
    ensures { result ≡ greatest (map (λ main. main.level) mains.now) }
{
    let mut highest = mains[0].level;
    for main in mains {
        highest = highest.max(main.level);
    }
    highest
}

/// The lowest of some places.
fn lowest(places: &[i32]) -> i32
    requires { 0 < length places.now }
    ensures { result ≡ least places.now }
{
    let mut lowest = places[0];
    for place in places {
        lowest = lowest.min(*place);
    }
    lowest
}

/// The boiler: it gives heat where the highest main does, for 1 a watt.
pub fn boiler(site: &Site) -> Utility
    requires { IsValidSite site.now }
    ensures { result ≡ boiler site.now }
{
    Utility {
        name: Name::new(b"BOILER").unwrap(),
        side: Side::Hot,
        level: highest_level(site.mains.as_slice()),
        least: 0,
        most: MOST_HEAT,
        price: 1,
        contribution: site.contribution,
    }
}

/// The level of the cooling, which is shifted to the lowest place.
fn cooling_level(site: &Site, places: &[i32]) -> i32
    requires valid { IsValidSite site.now }
    requires places { places.now ≡ site_places site.now }
    ensures { result ≡ least (site_places site.now) -ℤ site.now.contribution }
{
    lowest(places) - site.contribution
}

/// The cooling: it takes heat at the lowest place of the site, for nothing.
pub fn cooling(site: &Site, places: &[i32]) -> Utility
    requires valid { IsValidSite site.now }
    requires places { places.now ≡ site_places site.now }
    ensures { result ≡ cooling site.now }
{
    Utility {
        name: Name::new(b"COOLING").unwrap(),
        side: Side::Cold,
        level: cooling_level(site, places),
        least: 0,
        most: MOST_HEAT,
        price: 0,
        contribution: site.contribution,
    }
}
