//! Reading the table of pairs.
ghost use Rattle.std.specs.Prelude.{◌≡◌, ◌↔◌, ◌<◌, ⊤, IsTrue, length};
ghost use Rattle.heat_flow.specs.Table.{HasSizes, reaches};

use crate::reach::{Reach, Reaches};
use grid::Parts;

/// Whether the table has a row for each hot part and a column for each cold part.
pub(crate) fn has_sizes(reach: &Reach, parts: &Parts) -> bool
    ensures { IsTrue result ↔ HasSizes reach.now (length parts.now.hot) (length parts.now.cold) }
{
    reach.hots as usize == parts.hot.len() && reach.colds as usize == parts.cold.len()
}

/// Whether the hot part of index `hot` reaches the cold part of index `cold`.
pub fn reaches(reach: &Reach, hot: u32, cold: u32) -> bool
    requires hot_index { hot < reach.now.hots }
    requires cold_index { cold < reach.now.colds }
    ensures { result ≡ reaches reach.now hot cold }
{
    reach.cells.as_slice()[hot as usize * reach.colds as usize + cold as usize]
}

impl Reaches for Reach {
    ghost is_sound = { λ _. ⊤ };

    ghost reach = { reaches };

    fn reaches(&self, hot: u32, cold: u32) -> bool {
        hot < self.hots && cold < self.colds && reaches(self, hot, cold)
    }
}
