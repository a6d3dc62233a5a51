//! The least cost of a standard case.
ghost use Rattle.std.specs.Prelude.{◌≡◌};
ghost use Rattle.stream_case.specs.Case.{IsComplete, IsStandard};
ghost use Rattle.stream_case.specs.declared.source.Side.TheVariants.{Hot, Cold};
ghost use Rattle.problem_table.specs.Deficit.{hot_target, cold_target};
ghost use Rattle.corner_flow.specs.Corner.{NeedsHeatOf};
ghost use Rattle.corner_flow.specs.Value.{IsValueOf};
ghost use Rattle.heat_flow.specs.Certificate.{IsLeastCostOf};

use problem_table::Target;
use stream_case::Case;

/// The least cost of the heat flows of a standard case: its hot target. One heat flow costs this,
/// the corner flow, and none costs less, since it is the value of supporting prices; in each of
/// them `HOT` gives at least the hot target, and `COLD` takes at least the cold target. The flow
/// itself is not made.
pub fn standard_cost(case: &Case, targets: Target) -> i128
    requires complete { IsComplete case.now }
    requires standard { IsStandard case.now }
    requires hot_target { targets.hot ≡ hot_target case.now.streams }
    ensures value { result ≡ targets.hot }
    ensures least { IsLeastCostOf case.now result }
    ensures priced { IsValueOf case.now result }
    ensures hot_heat { NeedsHeatOf case.now Hot targets.hot }
    ensures cold_heat { NeedsHeatOf case.now Cold (cold_target case.now.streams) }
{
    i128::from(targets.hot)
}
