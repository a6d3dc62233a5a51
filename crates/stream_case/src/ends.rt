//! The shifted stream ends.
ghost use Rattle.std.specs.Prelude.{◌≡◌, All, IfOk};
ghost use Rattle.stream_case.specs.Stream.{stream_ends, IsValidStream};

use crate::stream::Stream;
use std::alloc::{AllocError, Global};

/// The shifted stream ends, in tenths of °C: for each stream, in order, the high end and then
/// the low end.
pub fn stream_ends(alloc: Global, streams: &[Stream]) -> Result<Vec<i32>, AllocError>
    requires { All IsValidStream streams.now }
    ensures { IfOk result (λ ends. ends.items ≡ stream_ends streams.now) }
{
    let mut ends = Vec::new(alloc);
    for stream in streams {
        ends.push(stream.high_end())?;
        ends.push(stream.low_end())?;
    }
    Ok(ends)
}
