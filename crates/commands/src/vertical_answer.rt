//! The network of a case by its composite curves.
ghost use Rattle.std.specs.Prelude.{IfOk};
ghost use Rattle.stream_case.specs.Case.{IsComplete, IsStandard};
ghost use Rattle.stream_case.specs.Stream.{AreSensible};
ghost use Rattle.commands.specs.Vertical.{IsVerticalAnswer};

use crate::design::audited;
use reports::Shown;
use std::alloc::{AllocError, Global};
use stream_case::Case;
use vertical_design::vertical;

/// The network of a completed standard case by its composite curves, with the balance that its
/// audit gives.
pub fn show_vertical(alloc: Global, case: Case) -> Result<Shown, AllocError>
    requires complete { IsComplete case }
    requires standard { IsStandard case }
    requires sensible { AreSensible case.streams }
    ensures { IfOk result (IsVerticalAnswer case) }
{
    let network = vertical(alloc, &case)?;
    let balance = audited(alloc, &case, &network)?;
    Ok(Shown::Design {
        case,
        network,
        balance,
    })
}
