//! Networks that are printed and read again.
ghost use Rattle.stream_case.specs.Case.{IsComplete};

use crate::compare::assert_lists;
use network_text::{exchanger_names, print_network, read_network};
use std::alloc::Global;
use std::test::Fail;
use stream_case::{Case, Name};
use worked_tables::{FOUR_STREAMS, SIX_EXCHANGERS, completed_case, name};

/// Networks for the four streams, and how they are printed: duties in lowest terms.
const NETWORKS: [(&[u8], &[u8]); 7] = [
    (SIX_EXCHANGERS, SIX_EXCHANGERS),
    (b"exchanger E HOT COLD 4/6", b"exchanger E HOT COLD 2/3\n"),
    (b"exchanger E HOT COLD 000012", b"exchanger E HOT COLD 12\n"),
    (
        b"exchanger E HOT COLD 1/281474976710656",
        b"exchanger E HOT COLD 1/281474976710656\n",
    ),
    (
        b"exchanger E HOT COLD 75557863725914323419136",
        b"exchanger E HOT COLD 75557863725914323419136\n",
    ),
    (
        b"exchanger E HOT COLD 500000000000000000000000/100000000000000000000000",
        b"exchanger E HOT COLD 5\n",
    ),
    (
        b"exchanger E HOT COLD 000000000000000000000001/2",
        b"exchanger E HOT COLD 1/2\n",
    ),
];

/// How the network of a text is printed. What its calls say ends here, so that no loop is proved
/// over their clauses.
fn printed(alloc: Global, case: &Case, text: &[u8]) -> Result<Vec<u8>, Fail>
    requires { IsComplete case.now }
{
    let network = read_network(alloc, case, text)?;
    Ok(print_network(alloc, case, &network)?)
}

#[test]
fn networks_are_printed_with_duties_in_lowest_terms(rt: HostRuntime) -> Result<(), Fail> {
    let case = completed_case(rt.alloc(), &FOUR_STREAMS)?;
    for (text, wanted) in &NETWORKS {
        let printed = printed(rt.alloc(), &case, text)?;
        assert_lists(&rt, "a printed network", &printed, wanted);
    }
    Ok(())
}

/// The names of the exchangers of a text.
fn names_in(alloc: Global, case: &Case, text: &[u8]) -> Result<Vec<Name>, Fail>
    requires { IsComplete case.now }
{
    let network = read_network(alloc, case, text)?;
    Ok(exchanger_names(alloc, &network)?)
}

fn names_of(alloc: Global, texts: &[&str]) -> Result<Vec<Name>, Fail> {
    let mut names = Vec::new(alloc);
    for text in texts {
        names.push(name(text)?)?;
    }
    Ok(names)
}

#[test]
fn exchangers_are_named_in_the_order_of_their_lines(rt: HostRuntime) -> Result<(), Fail> {
    let case = completed_case(rt.alloc(), &FOUR_STREAMS)?;
    let wanted = names_of(rt.alloc(), &["E1", "E2", "E3", "E4", "Q1", "Q2"])?;
    let names = names_in(rt.alloc(), &case, SIX_EXCHANGERS)?;
    assert_lists(&rt, "names of exchangers", &names, &wanted);
    Ok(())
}
