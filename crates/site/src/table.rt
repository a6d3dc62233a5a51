//! The places, the parts and the reach of a site.
ghost use Rattle.std.specs.Prelude.{◌≡◌, ℕ, length, IfOk};
ghost use Rattle.stream_case.specs.declared.source.Side.TheVariants.{Hot, Cold};
ghost use Rattle.grid.specs.Part.{AreParts};
ghost use Rattle.heat_flow.specs.Table.{HasSizes, reaches};
ghost use Rattle.site.specs.Reach.{reach_between};
ghost use Rattle.site_text.specs.Site.{IsValidSite, streams_of};
ghost use Rattle.site.specs.Table.{IsSiteGrid, site_utilities};

use crate::places::{site_places, streams_of};
use crate::reach::reach_of;
use crate::utilities::{boiler, cooling};
use grid::{Parts, parts_on};
use heat_flow::Reach;
use site_text::Site;
use std::alloc::{AllocError, Global};
use stream_case::Items;
use sums::falling;

/// The places, the parts and the reach of a site.
#[derive(Debug, Drop)]
pub struct SiteTable {
    /// The places of the site's grid on the shifted scale, in tenths of °C, from the highest down.
    pub places: Items<i32>,
    /// The parts of the streams, which are numbered through the plants in their order, and of the
    /// boiler (utility 0) and the cooling (utility 1).
    pub parts: Parts,
    /// Which hot part reaches which cold part.
    pub reach: Reach,
}

/// The table of a site. Its grid has all shifted stream ends and the two places of each main, where
/// the main takes heat and where it gives it. The parts are those of a case (`grid::parts_on`),
/// of all streams, the boiler and the cooling; each of the two has 0 to `MOST_HEAT` W, at a price
/// of 1 and of 0 a watt.
pub fn site_parts(alloc: Global, site: &Site) -> Result<SiteTable, AllocError>
    requires { IsValidSite site.now }
    ensures places { IfOk result (λ table. IsSiteGrid site.now table.places) }
    ensures hot { IfOk result (λ table. AreParts (streams_of site.now.plants)
        (site_utilities site.now) table.places Hot table.parts.hot) }
    ensures cold { IfOk result (λ table. AreParts (streams_of site.now.plants)
        (site_utilities site.now) table.places Cold table.parts.cold) }
    ensures sizes { IfOk result
        (λ table. HasSizes table.reach (length table.parts.hot) (length table.parts.cold)) }
    ensures reach { IfOk result (λ table. (a b : ℕ)
        → reaches table.reach a b
        ≡ reach_between site.now table.parts.hot table.parts.cold a b) }
{
    let streams = streams_of(alloc, site.plants.as_slice())?;
    let places = site_places(alloc, site, streams.as_slice())?;
    let utilities = [boiler(site), cooling(site, places.as_slice())];
    let places = falling(places);
    let parts = parts_on(alloc, streams.as_slice(), &utilities, places.as_slice())?;
    let reach = reach_of(alloc, site, &parts)?;
    Ok(SiteTable {
        places: Items::from_vec(places),
        parts,
        reach,
    })
}
