//! Which parts of a case reach which, pair by pair.

ghost use Rattle.std.specs.Prelude.{◌≡◌, ◌+◌, [], length, IfOk, OnOk};
ghost use Rattle.stream_case.specs.Case.{IsComplete, IsSourceOf};
ghost use Rattle.heat_flow.specs.Reach.{part_reaches};
ghost use Rattle.certify.specs.Permits.{ArePermits, HavePermits};

use grid::{Part, Parts};
use heat_flow::{Reaches, passes_heat, permissions, source_index};
use std::alloc::{AllocError, Global};
use stream_case::{Case, Items, Source};

/// A completed case with its parts, and which of its sources may take heat from which.
#[derive(Clone, Copy)]
pub(crate) struct Setting<'a> {
    pub case: &'a Case,
    pub parts: &'a Parts,
    pub permits: &'a Items<Items<bool>>,
}

/// Appends the rows of the streams.
fn push_streams(alloc: Global, case: &Case, rows: &mut Items<Items<bool>>) -> Result<(), AllocError>
    requires complete { IsComplete case.now }
    requires none { rows.old ≡ [] }
    ensures count { OnOk result (length rows.new ≡ length case.now.streams) }
    ensures rows { OnOk result (HavePermits case.now rows.new) }
{
    for number in 0..case.streams.len() {
        let row = permissions(alloc, case, Source::Stream(number as u32))?;
        rows.push(Items::from_vec(row))?;
    }
    Ok(())
}

/// Appends the rows of the utilities.
fn push_utilities(
    alloc: Global,
    case: &Case,
    rows: &mut Items<Items<bool>>,
) -> Result<(), AllocError>
    requires complete { IsComplete case.now }
    requires count { length rows.old ≡ length case.now.streams }
    requires rows { HavePermits case.now rows.old }
    ensures count { OnOk result (length rows.new ≡
        length case.now.streams + length case.now.utilities) }
    ensures rows { OnOk result (HavePermits case.now rows.new) }
{
    for number in 0..case.utilities.len() {
        let row = permissions(alloc, case, Source::Utility(number as u32))?;
        rows.push(Items::from_vec(row))?;
    }
    Ok(())
}

/// For each source of a case, whether each source may take heat from it. The table is made once, so
/// that the forbidden matches are not gone through for each pair of parts.
pub fn permits_of(alloc: Global, case: &Case) -> Result<Items<Items<bool>>, AllocError>
    requires { IsComplete case.now }
    ensures { IfOk result (ArePermits case.now) }
{
    let mut rows = Items::new(alloc);
    push_streams(alloc, case, &mut rows)?;
    push_utilities(alloc, case, &mut rows)?;
    Ok(rows)
}

/// Whether a hot part reaches a cold part.
fn part_reaches(case: &Case, permits: &Items<Items<bool>>, hot: &Part, cold: &Part) -> bool
    requires complete { IsComplete case.now }
    requires permits { ArePermits case.now permits.now }
    requires hot_source { IsSourceOf case.now hot.now.source }
    requires cold_source { IsSourceOf case.now cold.now.source }
    ensures { result ≡ part_reaches case.now hot.now cold.now }
{
    let row = &permits.as_slice()[source_index(case, hot.source)];
    passes_heat(hot, cold) && row.as_slice()[source_index(case, cold.source)]
}

impl Reaches for Setting<'_> {
    ghost use Rattle.certify.specs.Setting.{IsSound, reach_of};

    ghost is_sound = { IsSound };

    ghost reach = { reach_of };

    fn reaches(&self, hot: u32, cold: u32) -> bool {
        let Some(hot) = self.parts.hot.get(hot as usize) else {
            return false;
        };
        let Some(cold) = self.parts.cold.get(cold as usize) else {
            return false;
        };
        part_reaches(self.case, self.permits, hot, cold)
    }
}
