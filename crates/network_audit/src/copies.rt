//! Copies of a case and a network.
ghost use Rattle.std.specs.Prelude.{◌≡◌, IfOk};

use networks::Network;
use std::alloc::{AllocError, Global};
use stream_case::Case;

/// The same case in memory of its own.
pub(crate) fn copied_case(alloc: Global, case: &Case) -> Result<Case, AllocError>
    ensures { IfOk result (λ copy. copy ≡ case.now) }
{
    Ok(Case {
        contribution: case.contribution,
        streams: case.streams.copied(alloc)?,
        utilities: case.utilities.copied(alloc)?,
        forbids: case.forbids.copied(alloc)?,
    })
}

/// The same network in memory of its own.
pub(crate) fn copied_network(alloc: Global, network: &Network) -> Result<Network, AllocError>
    ensures { IfOk result (λ copy. copy ≡ network.now) }
{
    Ok(Network {
        branches: network.branches.copied(alloc)?,
        lines: network.lines.copied(alloc)?,
    })
}
