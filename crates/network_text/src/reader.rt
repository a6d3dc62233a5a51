//! Reading the text of a network.

ghost use Rattle.std.specs.Prelude.{◌≡◌, Err, IfErr, IfOk};
ghost use Rattle.keyed_index.specs.Key.{keyed_by};
ghost use Rattle.stream_case.specs.Case.{IsComplete};
ghost use Rattle.statements.specs.Statements.{statements_of};
ghost use Rattle.network_text.specs.Outcome.{IsNetwork, IsOutcome};
ghost use Rattle.networks.specs.Shape.{HasShape, KeepsCounts};

use crate::entry::entry_of;
use crate::fault::{NetFault, NetWhy};
use crate::given::Given;
use networks::Network;
use statements::{Statement, first_line};
use std::alloc::Global;
use stream_case::Case;

/// What the statements of a text give for a completed case, or the first statement at fault with
/// its cause. The key of the tables is drawn from the text.
pub fn given_of(alloc: Global, case: &Case, bytes: &[u8]) -> Result<Given, NetFault>
    requires { IsComplete case.now }
    ensures network { IfOk result (λ given.
        IsNetwork case.now (statements_of bytes.now) given.network) }
    ensures key { IfOk result (λ given. given.key ≡ keyed_by bytes.now) }
    ensures fault { IfErr result (λ fault.
        IsOutcome case.now (statements_of bytes.now) (Err fault)) }
{
    let mut given = Given::new(alloc, bytes, case)?;
    let mut rest = bytes;
    let mut number: u32 = 0;
    while !rest.is_empty() {
        let (line, after) = first_line(rest);
        rest = after;
        let statement = Statement::of_line(alloc, line)?;
        if statement.is_passed_over() {
            continue;
        }
        number += 1;
        match entry_of(case, &given, &statement) {
            Ok(entry) => given = given.with(entry)?,
            Err(why) => return Err(NetFault::At { line: number, why }),
        }
    }
    match given.first_missing() {
        None => Ok(given),
        Some(index) => Err(NetFault::At {
            line: index + 1,
            why: NetWhy::MissingPass,
        }),
    }
}

/// Reads the text of a network for a completed case: the network of the grammar, or the first
/// statement at fault with its cause.
pub fn read_network(alloc: Global, case: &Case, bytes: &[u8]) -> Result<Network, NetFault>
    requires { IsComplete case.now }
    ensures outcome { IsOutcome case.now (statements_of bytes.now) result }
    ensures shape { IfOk result (HasShape case.now) }
    ensures counts { IfOk result KeepsCounts }
{
    let given = given_of(alloc, case, bytes)?;
    Ok(given.into_network(alloc)?)
}
