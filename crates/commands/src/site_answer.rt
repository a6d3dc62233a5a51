//! What `site` shows of the site that it reads.
ghost use Rattle.std.specs.Prelude.{◌≡◌, map, IfOk};
ghost use Rattle.site.specs.Profiles.{sink_profile, source_profile};
ghost use Rattle.site_text.specs.Site.{IsValidSite};
ghost use Rattle.commands.specs.Site.{ShowsSite, profiles_shown};

use reports::Shown;
use site::{Site, SiteTable, sink_profile, site_parts, source_profile, table_target};
use std::alloc::{AllocError, Global};
use stream_case::Items;
use transport::Answer;

/// The profiles of a site at each place of its grid, and the heat flow of the least boiler heat with
/// its certificate, or a cut where there is no heat flow.
pub fn show_site(alloc: Global, site: Site) -> Result<Shown, AllocError>
    requires { IsValidSite site }
    ensures { IfOk result (ShowsSite site) }
{
    let table = site_parts(alloc, &site)?;
    let answer = table_target(alloc, &site, &table)?;
    show_profiles(alloc, site, table, answer)
}

/// The profiles of a site at each place of its table, shown with what answers its parts.
fn show_profiles(
    alloc: Global,
    site: Site,
    table: SiteTable,
    answer: Answer,
) -> Result<Shown, AllocError>
    requires { IsValidSite site }
    ensures { IfOk result (λ shown. shown ≡ profiles_shown site table answer) }
{
    let sinks = sinks_at(alloc, &site, table.places.as_slice())?;
    let sources = sources_at(alloc, &site, table.places.as_slice())?;
    Ok(Shown::SiteShown {
        site,
        parts: table,
        sinks,
        sources,
        answer,
    })
}

/// What the plants can take above each of these places, in W.
fn sinks_at(alloc: Global, site: &Site, places: &[i32]) -> Result<Items<i64>, AllocError>
    requires { IsValidSite site.now }
    ensures { IfOk result (λ heats. heats ≡ map (sink_profile site.now) places.now) }
{
    let mut heats = Items::new(alloc);
    for place in places {
        heats.push(sink_profile(site, *place))?;
    }
    Ok(heats)
}

/// What the plants can give below each of these places, in W.
fn sources_at(alloc: Global, site: &Site, places: &[i32]) -> Result<Items<i64>, AllocError>
    requires { IsValidSite site.now }
    ensures { IfOk result (λ heats. heats ≡ map (source_profile site.now) places.now) }
{
    let mut heats = Items::new(alloc);
    for place in places {
        heats.push(source_profile(site, *place))?;
    }
    Ok(heats)
}
