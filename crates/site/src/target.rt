//! The least boiler heat of a site.
ghost use Rattle.std.specs.Prelude.{List, IfOk};
ghost use Rattle.grid.specs.declared.part.Part.{Part};
ghost use Rattle.heat_flow.specs.Cuts.{HasNoFlow};
ghost use Rattle.heat_flow.specs.Flow.{IsLeastCost};
ghost use Rattle.site.specs.Reach.{reach_between};
ghost use Rattle.site_text.specs.Site.{IsValidSite};
ghost use Rattle.site.specs.SiteTable.{IsSiteTable};
ghost use Rattle.site.specs.Target.{AreSiteParts, IsSiteTarget};
ghost use Rattle.transport.specs.Answer.{IfLeast, IfStuck};
ghost use Rattle.heat_flow.specs.Certificate.{IsCertified, IsCutOf};

use crate::table::{SiteTable, site_parts};
use site_text::Site;
use std::alloc::{AllocError, Global};
use transport::{Answer, least};

/// The heat flow of least cost between the parts in the table of a site, which is that of the
/// least boiler heat, with prices that prove it; or a cut, where no main is high enough for what a
/// plant has to take.
pub fn table_target(alloc: Global, site: &Site, table: &SiteTable) -> Result<Answer, AllocError>
    requires valid { IsValidSite site.now }
    requires table { IsSiteTable site.now table.now }
    ensures { IfOk result (IsSiteTarget site.now table.now.parts.hot table.now.parts.cold) }
{
    least(alloc, &table.parts, &table.reach)
}

/// The target of a site, as `table_target` has it, where its table is not at hand: said of all
/// parts of the site, since it has no others.
pub fn site_target(alloc: Global, site: &Site) -> Result<Answer, AllocError>
    requires { IsValidSite site.now }
    ensures certified { IfOk result (λ a. (hot cold : List Part) → AreSiteParts site.now hot cold
        → IfLeast a (λ flow prices cost. IsCertified
        (reach_between site.now hot cold) hot cold flow.transfers prices.hot prices.cold cost)) }
    ensures least { IfOk result
        (λ a. (hot cold : List Part) → AreSiteParts site.now hot cold → IfLeast a
        (λ flow prices cost. IsLeastCost (reach_between site.now hot cold) hot cold cost)) }
    ensures cut { IfOk result (λ a. (hot cold : List Part) → AreSiteParts site.now hot cold
        → IfStuck a (λ cut. IsCutOf (reach_between site.now hot cold) hot cold cut)) }
    ensures stuck_only { IfOk result (λ a. (hot cold : List Part)
        → AreSiteParts site.now hot cold
        → IfStuck a (λ cut. HasNoFlow (reach_between site.now hot cold) hot cold)) }
{
    let table = site_parts(alloc, site)?;
    table_target(alloc, site, &table)
}
