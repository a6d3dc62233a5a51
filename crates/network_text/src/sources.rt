//! The sources that an exchanger joins.

ghost use Rattle.std.specs.Prelude.{◌≡◌, is_some, IfSome};
ghost use Rattle.stream_case.specs.Case.{IsComplete, source_named};
ghost use Rattle.first_fault.specs.Checks.{Checked};
ghost use Rattle.network_text.specs.Given.{source_at};
ghost use Rattle.network_text.specs.Checks.{source_checks};

use crate::fault::NetWhy;
use crate::given::Sides;
use stream_case::{Case, Side, Source};

/// The source of the case with this name.
#[tactic(auto, unfolding(crate::specs::Given::source_at))]
fn known_source(case: &Case, name: &[u8]) -> Option<Source>
    requires { IsComplete case.now }
    ensures some { is_some result ≡ is_some (source_named case.now name.now) }
    ensures value { IfSome result (λ source. source ≡ source_at case.now name.now) }
{
    case.source_named(name)
}

/// The hot and the cold source of an exchanger.
#[tactic(auto, unfolding(crate::specs::Checks::source_checks))]
pub fn hot_and_cold(case: &Case, hot: &[u8], cold: &[u8]) -> Result<Sides, NetWhy>
    requires { IsComplete case.now }
    ensures { Checked (source_checks case.now hot.now cold.now) (λ sides.
        (sides.hot ≡ source_at case.now hot.now) ×
        (sides.cold ≡ source_at case.now cold.now)) result }
{
    let Some(hot) = known_source(case, hot) else {
        return Err(NetWhy::UnknownName);
    };
    let Some(cold) = known_source(case, cold) else {
        return Err(NetWhy::UnknownName);
    };
    if !case.is_on(Side::Hot, hot) {
        return Err(NetWhy::WrongSide);
    }
    if !case.is_on(Side::Cold, cold) {
        return Err(NetWhy::WrongSide);
    }
    Ok(Sides { hot, cold })
}
