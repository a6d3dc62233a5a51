//! A network of the most exchangers and statements: read, audited, with its penalties, and printed.
ghost use Rattle.std.specs.Prelude.{IfOk};
ghost use Rattle.stream_case.specs.Case.{IsComplete};
ghost use Rattle.networks.specs.Shape.{HasShape};

use crate::compare::assert_same;
use fractions::Frac;
use network_audit::{Auditor, Balance, Verdict};
use network_text::{print_network, read_network};
use networks::Network;
use penalties::{PenaltyList, penalties};
use std::alloc::{AllocGlobal, Global};
use std::fmt::Write;
use std::process::Abort;
use std::test::Fail;
use stream_case::Case;
use stream_case::Side::Hot;
use worked_tables::{Table, completed_case};

/// Two streams to be cooled: H falls by a tenth of a degree for each watt, and so does K, once.
const COOLED: Table = Table {
    contribution: 50,
    streams: &[("H", Hot, 20_999, 1000, 1), ("K", Hot, 1001, 1000, 1)],
    utilities: &[],
    forbids: &[],
};

/// A cooler of 1 W behind the one before, and behind it the stream is divided and mixed.
fn push_cooler(text: &mut String, number: u32) -> Result<(), Fail> {
    writeln!(text, "exchanger E{number} H COLD 1")?;
    match number.checked_sub(1) {
        Some(before) => writeln!(text, "pass e{before} E{number} b{number}")?,
        None => writeln!(text, "pass H E0 b0")?,
    }
    writeln!(text, "split b{number} c{number} 1/2 d{number}")?;
    Ok(writeln!(text, "mix c{number} d{number} e{number}")?)
}

/// The last branch behind the coolers, or behind the one before, is divided and mixed.
fn push_mix(text: &mut String, number: u32) -> Result<(), Fail> {
    match number.checked_sub(1) {
        Some(before) => writeln!(text, "split h{before} f{number} 1/2 g{number}")?,
        None => writeln!(text, "split e19998 f0 1/2 g0")?,
    }
    Ok(writeln!(text, "mix f{number} g{number} h{number}")?)
}

/// 20,000 exchangers and 100,000 statements.
fn largest_text(alloc: Global) -> Result<String, Fail> {
    let mut text = String::new(alloc);
    for number in 0..19_999 {
        push_cooler(&mut text, number)?;
    }
    for number in 0..10_000 {
        push_mix(&mut text, number)?;
    }
    text.push_str("end h9999\nexchanger K K COLD 1\npass K K k\nend k\n")?;
    Ok(text)
}

fn read(alloc: Global, case: &Case, text: &str) -> Result<Network, Fail>
    requires { IsComplete case.now }
    ensures { IfOk result (HasShape case.now) }
{
    Ok(read_network(alloc, case, text.as_bytes())?)
}

/// The largest network.
fn largest_network(alloc: Global, case: &Case) -> Result<Network, Fail>
    requires { IsComplete case.now }
    ensures { IfOk result (HasShape case.now) }
{
    read(alloc, case, &largest_text(alloc)?)
}

/// The balance of a network, if it is accepted.
fn accepted_balance(alloc: Global, case: &Case, network: &Network) -> Result<Balance, Fail>
    requires complete { IsComplete case.now }
    requires shape { HasShape case.now network.now }
{
    let Verdict::Accepted(balance) = Auditor::new(alloc, case, network)?.audit() else {
        return Err("the network is not accepted".into());
    };
    Ok(balance)
}

/// How many penalties the network has.
fn penalty_count(alloc: Global, case: &Case, network: &Network) -> Result<usize, Fail>
    requires complete { IsComplete case.now }
    requires shape { HasShape case.now network.now }
{
    let mut auditor = Auditor::new(alloc, case, network)?;
    let Verdict::Accepted(_) = auditor.audit() else {
        return Err("the network is not accepted".into());
    };
    match penalties(alloc, case, network, &auditor)? {
        PenaltyList::Listed(list) => Ok(list.len()),
        PenaltyList::TooFine { .. } => Err("a penalty is too fine".into()),
    }
}

#[test]
fn the_largest_network_is_accepted(rt: HostRuntime) -> Result<(), Fail> {
    let case = completed_case(rt.alloc(), &COOLED)?;
    let network = largest_network(rt.alloc(), &case)?;
    assert_same(&rt, "the statements", &network.lines.len(), &100_000);
    let wanted = Balance {
        hot: Frac::whole(0),
        cold: Frac::whole(20_000),
        excess: Frac::whole(0),
        cost: Frac::whole(0),
    };
    let balance = accepted_balance(rt.alloc(), &case, &network)?;
    assert_same(&rt, "the balance", &balance, &wanted);
    Ok(())
}

#[test]
fn the_largest_network_has_its_penalties(rt: HostRuntime) -> Result<(), Fail> {
    let case = completed_case(rt.alloc(), &COOLED)?;
    let network = largest_network(rt.alloc(), &case)?;
    let count = penalty_count(rt.alloc(), &case, &network)?;
    assert_same(&rt, "of exchangers and of mixes", &count, &49_999);
    Ok(())
}

/// Compares what is printed of the network of a text with the text.
fn compare_printed(rt: &(impl Abort + AllocGlobal), case: &Case, text: &str) -> Result<(), Fail>
    requires { IsComplete case.now }
{
    let network = read(rt.alloc(), case, text)?;
    let printed = print_network(rt.alloc(), case, &network)?;
    assert_same(rt, "as long", &printed.len(), &text.len());
    let is_same = printed.as_slice() == text.as_bytes();
    assert_same(rt, "the same text", &is_same, &true);
    Ok(())
}

#[test]
fn the_largest_network_is_printed(rt: HostRuntime) -> Result<(), Fail> {
    let case = completed_case(rt.alloc(), &COOLED)?;
    compare_printed(&rt, &case, &largest_text(rt.alloc())?)
}
