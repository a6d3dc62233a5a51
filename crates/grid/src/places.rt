//! The places of streams and utilities, and the grid of a case.
ghost use Rattle.std.specs.Prelude.{◌≡◌, ◌++◌, map, All, IfOk, OnOk};
ghost use Rattle.stream_case.specs.Case.{IsComplete};
ghost use Rattle.stream_case.specs.Stream.{IsValidStream};
ghost use Rattle.stream_case.specs.Utility.{shifted_level, IsPlaced};
ghost use Rattle.grid.specs.Grid.{places_of, IsGrid};

use std::alloc::{AllocError, Global};
use stream_case::{Case, Items, Stream, Utility, stream_ends};
use sums::falling;

/// The places of a grid on the shifted scale, in tenths of °C, from the highest down.
#[derive(Debug, PartialEq, Eq, Drop)]
pub struct Grid {
    pub places: Items<i32>,
}

/// Appends the shifted utility levels.
fn push_levels(places: &mut Vec<i32>, utilities: &[Utility]) -> Result<(), AllocError>
    requires { All IsPlaced utilities.now }
    ensures { OnOk result (places.new.items
        ≡ places.old.items ++ map shifted_level utilities.now) }
{
    for utility in utilities {
        places.push(utility.shifted_level())?;
    }
    Ok(())
}

/// The shifted ends of streams and the shifted levels of utilities, in tenths of °C and in their
/// order.
pub(crate) fn places_of(
    alloc: Global,
    streams: &[Stream],
    utilities: &[Utility],
) -> Result<Vec<i32>, AllocError>
    requires streams { All IsValidStream streams.now }
    requires utilities { All IsPlaced utilities.now }
    ensures { IfOk result (λ places. places.items ≡ places_of streams.now utilities.now) }
{
    let mut places = stream_ends(alloc, streams)?;
    push_levels(&mut places, utilities)?;
    Ok(places)
}

/// The grid of a case: its shifted stream ends and utility levels, each once (the interval
/// boundaries of Linnhoff and Flower 1978, with the levels of the utilities among them).
pub fn grid_of(alloc: Global, case: &Case) -> Result<Grid, AllocError>
    requires { IsComplete case.now }
    ensures { IfOk result (λ grid. IsGrid case.now grid.places) }
{
    let places = places_of(alloc, case.streams.as_slice(), case.utilities.as_slice())?;
    Ok(Grid {
        places: Items::from_vec(falling(places)),
    })
}
