//! What an inner net carries.
ghost use Rattle.std.specs.Prelude.{◌≡◌, ◌≤◌, length, take, IfOk};

use std::alloc::{AllocError, Global};
use stream_case::Items;

/// What the first links carry, so many: those of an inner net, which stand before the links around
/// it.
pub(crate) fn front_of(
    alloc: Global,
    carried: &Items<i64>,
    links: usize,
) -> Result<Items<i64>, AllocError>
    requires { links ≤ length carried.now }
    ensures { IfOk result (λ front. front ≡ take links carried.now) }
{
    let front = Vec::from_slice(alloc, &carried.as_slice()[..links])?;
    Ok(Items::from_vec(front))
}
