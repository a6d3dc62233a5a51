//! Cases of the most parts and of the most links: their nets of chains, their least costs, and a cut
//! of hundreds of parts.
ghost use Rattle.std.specs.Prelude.{IfOk};
ghost use Rattle.stream_case.specs.Case.{IsComplete};

use crate::compare::assert_same;
use crate::flows::{chain_counts, cost_or_cut, part_counts};
use crate::wide_case::{MISSING, twelve_utilities, unlike_partners, wide_case};
use problem_table::targets;
use std::alloc::{AllocError, Global};
use std::test::Fail;
use stream_case::Case;
use stream_case::Side::{Cold, Hot};
use transport::case_cost;

/// A utility level amid all streams, and one above them.
const AMID: i32 = 1500;

const ABOVE: i32 = 3400;

/// The hot streams have 42 parts each, the utilities one each, the cold streams 102 in the mean.
const PARTS: [usize; 2] = [30 * 42 + 12, 30 * 102 + 1];

/// Groups, nodes and links: 144 nodes for each group; a link for each hot part, 211 down each chain,
/// and one for each group and cold part but the 3,060 and the 1,694 parts of the forbidden matches.
const NET: [usize; 3] = [
    42,
    PARTS[0] + PARTS[1] + 42 * 144,
    PARTS[0] + 42 * 211 + 42 * PARTS[1] - 3060 - 1694,
];

/// The case of the most links, whose first utility stands at this level.
fn linked_case(alloc: Global, first: i32) -> Result<Case, Fail>
    ensures { IfOk result IsComplete }
{
    let utilities = twelve_utilities(alloc, Hot, 1, first)?;
    wide_case(alloc, utilities, unlike_partners(alloc)?)
}

#[test]
fn a_case_of_the_most_links_has_its_net_of_chains(rt: HostRuntime) -> Result<(), Fail> {
    let case = linked_case(rt.alloc(), AMID)?;
    assert_same(&rt, "the parts", &part_counts(rt.alloc(), &case)?, &PARTS);
    let counts = chain_counts(rt.alloc(), &case)?;
    assert_same(&rt, "groups, nodes and links", &counts, &NET);
    Ok(())
}

#[test]
fn a_case_of_most_links_has_its_least_cost(rt: HostRuntime) -> Result<(), Fail> {
    let case = linked_case(rt.alloc(), ABOVE)?;
    let least = cost_or_cut(rt.alloc(), &case)?;
    assert_same(&rt, "the least cost", &least, &Ok(MISSING));
    Ok(())
}

#[test]
fn a_case_of_the_most_links_has_its_cut(rt: HostRuntime) -> Result<(), Fail> {
    let case = linked_case(rt.alloc(), AMID)?;
    let Err(parts) = cost_or_cut(rt.alloc(), &case)? else {
        return Err("a heat flow".into());
    };
    assert_same(&rt, "hundreds of parts", &(parts > 400), &true);
    Ok(())
}

/// The case of the most cold parts.
fn cooled_case(alloc: Global) -> Result<Case, Fail>
    ensures { IfOk result IsComplete }
{
    let utilities = twelve_utilities(alloc, Cold, 0, AMID)?;
    wide_case(alloc, utilities, Vec::new(alloc))
}

/// The least cost by `case_cost`, if there is a heat flow.
fn cost_alone(alloc: Global, case: &Case) -> Result<Option<i128>, AllocError>
    requires { IsComplete case.now }
{
    Ok(case_cost(alloc, case, targets(case))?.ok())
}

#[test]
fn a_case_of_the_most_cold_parts_has_its_least_cost(rt: HostRuntime) -> Result<(), Fail> {
    let case = cooled_case(rt.alloc())?;
    let [_, cold] = part_counts(rt.alloc(), &case)?;
    assert_same(&rt, "the cold parts", &cold, &(30 * 102 + 12));
    let cost = cost_alone(rt.alloc(), &case)?;
    assert_same(&rt, "the least cost", &cost, &Some(MISSING));
    Ok(())
}
