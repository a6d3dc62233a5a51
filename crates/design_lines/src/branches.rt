//! The branches of a design.

ghost use Rattle.std.specs.Prelude.{◌≡◌, ◌+◌, ◌<◌, ◌^◌, ◌++◌, length, IfOk, OnOk};
ghost use Rattle.networks.specs.Lines.{own_branches};
ghost use Rattle.design_lines.specs.Drawn.{numbered};

use crate::names::branch_name;
use networks::Branch;
use std::alloc::{AllocError, Global};
use stream_case::Case;

/// The branches of the streams themselves.
pub(crate) fn own_branches(alloc: Global, case: &Case) -> Result<Vec<Branch>, AllocError>
    requires { length case.now.streams < 2 ^ 32 }
    ensures { IfOk result (λ branches. branches.items ≡ own_branches case.now) }
{
    let mut branches = Vec::new(alloc);
    for (index, stream) in case.streams.as_slice().iter().enumerate() {
        branches.push(Branch {
            name: stream.name,
            stream: index as u32,
        })?;
    }
    Ok(branches)
}

/// Appends `count` branches of a stream, whose names count on from `first`.
pub(crate) fn push_branches(
    alloc: Global,
    branches: &mut Vec<Branch>,
    first: u32,
    stream: u32,
    count: u32,
) -> Result<(), AllocError>
    requires { first + count < 2 ^ 32 }
    ensures { OnOk result (branches.new.items
        ≡ branches.old.items ++ numbered first stream count) }
{
    for number in first..first + count {
        let name = branch_name(alloc, number)?;
        branches.push(Branch { name, stream })?;
    }
    Ok(())
}
