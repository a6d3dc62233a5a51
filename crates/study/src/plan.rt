//! The contributions of a sweep.
ghost use Rattle.std.specs.Prelude.{◌≡◌, ◌<◌, ◌≤◌, ◌↔◌, ℕ};
ghost use Rattle.stream_case.specs.Limits.{IsContribution};
ghost use Rattle.study.specs.declared.limits.TheConstants.{MOST_ROWS};
ghost use Rattle.study.specs.Plan.{contribution_at, has_row, IsSweepPlan};

/// The contributions of a sweep in tenths of °C: from `from`, `step` apart, as far as `to`.
#[derive(Clone, Copy, Debug, PartialEq, Eq, Hash)]
pub struct SweepPlan {
    pub from: i32,
    pub to: i32,
    pub step: i32,
}

/// How many rows a sweep has.
pub(crate) fn row_count(plan: SweepPlan) -> u32
    requires { IsSweepPlan plan }
    ensures rows { (k : ℕ) → (k < result) ↔ has_row plan k }
    ensures few { result ≤ MOST_ROWS }
{
    let length = (plan.to - plan.from) as u32;
    length / plan.step as u32 + 1
}

/// The contribution of a row, in tenths of °C.
pub(crate) fn contribution_at(plan: SweepPlan, row: u32) -> i32
    requires plan { IsSweepPlan plan }
    requires row { has_row plan row }
    ensures value { result ≡ contribution_at plan row }
    ensures range { IsContribution result }
{
    plan.from + row as i32 * plan.step
}
