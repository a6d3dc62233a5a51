//! A case with as many streams and utilities as a case may have: its grid, its parts, their table
//! and its net of chains are not too large, and it has its least cost.
ghost use Rattle.std.specs.Prelude.{◌<◌, ◌≤◌, IfOk};
ghost use Rattle.stream_case.specs.Case.{IsComplete, IsValid};

use crate::compare::assert_same;
use crate::flows::{cell_count, chain_counts, cost_or_cut, part_counts, place_count};
use crate::numbered::{numbered_stream, numbered_utility};
use case_text::{print_case, read_case};
use std::alloc::{AllocGlobal, Global};
use std::process::Abort;
use std::test::Fail;
use stream_case::Side::{Cold, Hot};
use stream_case::{
    Case, Forbid, Items, MOST_FORBIDS, MOST_STREAMS, MOST_UTILITIES, Source, Stream, Utility,
};
use worked_tables::{MOST_HEAT, completed, valid};

/// The intervals that each stream spans.
const SPANNED: usize = 2 * MOST_STREAMS + MOST_UTILITIES;

const PLACES: usize = 4 * MOST_STREAMS + MOST_UTILITIES;

/// The hot and the cold parts.
const PARTS: [usize; 2] = [
    MOST_STREAMS * SPANNED + MOST_UTILITIES,
    MOST_STREAMS * SPANNED + 1,
];

/// The pairs of a hot and a cold part.
const CELLS: usize = PARTS[0] * PARTS[1];

/// The groups, where no two hot sources have the same partners.
const GROUPS: usize = MOST_STREAMS + MOST_UTILITIES;

/// The nodes of a chain: parts stand on each interval, and utilities at places of their own.
const DEPTHS: usize = (PLACES - 1) + (MOST_UTILITIES + 1);

/// How many links lead from node to node down a chain; longer ones lead on by 3, 9, 27 and 81.
const STEPS: usize = DEPTHS - 1;

/// The nodes of the parts and of a chain for each group.
const NODES: usize = PARTS[0] + PARTS[1] + GROUPS * DEPTHS;

/// The links where no match is forbidden: one for each hot part, those down the chains, and one for
/// each group and cold part. A forbidden match takes away one for each part of the cold stream.
const LINKS: usize = PARTS[0]
    + GROUPS * (STEPS + STEPS / 3 + STEPS / 9 + STEPS / 27 + STEPS / 81)
    + GROUPS * PARTS[1];

/// Streams on both sides, all of whose upper ends lie above all their lower ends. The upper ends
/// and the lower ends fall in the same order, so that each stream spans as many ends as there are
/// streams.
fn most_streams(alloc: Global) -> Result<Vec<Stream>, Fail> {
    let mut streams = Vec::new(alloc);
    for number in 0..MOST_STREAMS as u8 {
        let fall = 20 * i32::from(number);
        let (hot, cold) = ((2000 - fall, 1000 - fall), (990 - fall, 1990 - fall));
        streams.push(numbered_stream(alloc, ("H", number), Hot, hot)?)?;
        streams.push(numbered_stream(alloc, ("C", number), Cold, cold)?)?;
    }
    Ok(streams)
}

/// Hot utilities between the upper and the lower ends of those streams.
fn most_utilities(alloc: Global) -> Result<Vec<Utility>, Fail> {
    let mut utilities = Vec::new(alloc);
    for number in 0..MOST_UTILITIES as u8 {
        let level = 1100 + i32::from(number);
        utilities.push(numbered_utility(alloc, number, Hot, level, (MOST_HEAT, 1))?)?;
    }
    Ok(utilities)
}

/// A match with a cold stream, which stands beside the hot stream of the same number.
fn forbid(hot: Source, number: u32) -> Forbid
    requires { number < 1000 }
{
    Forbid {
        hot,
        cold: Source::Stream(2 * number + 1),
    }
}

/// A hot stream may not match so many cold streams after the one of its number, a utility neither
/// the one of its own number nor so many after it, and the first utilities one more. So no two hot
/// sources have the same partners, and each cold stream can take all its heat from the hot stream of
/// its number.
fn unlike_partners(
    alloc: Global,
    of_stream: u32,
    of_utility: u32,
    more: u32,
) -> Result<Vec<Forbid>, Fail>
    requires streams { of_stream < 20 }
    requires utilities { of_utility < 10 }
    requires more { more ≤ 12 }
{
    let mut forbids = Vec::new(alloc);
    for number in 0..MOST_STREAMS as u32 {
        for after in 1..=of_stream {
            forbids.push(forbid(Source::Stream(2 * number), (number + after) % 30))?;
        }
    }
    for number in 0..MOST_UTILITIES as u32 {
        for after in 0..=of_utility {
            forbids.push(forbid(Source::Utility(number), number + after))?;
        }
    }
    for number in 0..more {
        forbids.push(forbid(Source::Utility(number), number + of_utility + 1))?;
    }
    Ok(forbids)
}

/// The fewest of them.
fn few_forbids(alloc: Global) -> Result<Vec<Forbid>, Fail> {
    unlike_partners(alloc, 1, 1, 0)
}

/// As many as a case may have: 360 of streams, 36 of utilities, and four more.
fn most_forbids(alloc: Global) -> Result<Vec<Forbid>, Fail> {
    unlike_partners(alloc, 12, 2, 4)
}

/// The case with these forbidden matches.
fn case_with(alloc: Global, forbids: Vec<Forbid>) -> Result<Case, Fail> {
    let streams = most_streams(alloc)?;
    let utilities = most_utilities(alloc)?;
    Ok(Case {
        contribution: 0,
        streams: Items::from_vec(streams),
        utilities: Items::from_vec(utilities),
        forbids: Items::from_vec(forbids),
    })
}

/// The case, completed with `COLD`.
fn largest_case(alloc: Global, forbids: Vec<Forbid>) -> Result<Case, Fail>
    ensures { IfOk result IsComplete }
{
    completed(alloc, &case_with(alloc, forbids)?)
}

#[test]
fn the_largest_case_has_its_grid_parts_and_table(rt: HostRuntime) -> Result<(), Fail> {
    let case = largest_case(rt.alloc(), Vec::new(rt.alloc()))?;
    assert_same(&rt, "places", &place_count(rt.alloc(), &case)?, &PLACES);
    assert_same(&rt, "parts", &part_counts(rt.alloc(), &case)?, &PARTS);
    assert_same(&rt, "cells", &cell_count(rt.alloc(), &case)?, &CELLS);
    Ok(())
}

/// Compares the net of chains of the case with its forbidden matches, and its least cost.
fn compare_net(rt: &(impl Abort + AllocGlobal), case: &Case) -> Result<(), Fail>
    requires { IsComplete case.now }
{
    let missing = SPANNED.saturating_mul(case.forbids.len());
    let wanted = [GROUPS, NODES, LINKS.saturating_sub(missing)];
    let counts = chain_counts(rt.alloc(), case)?;
    assert_same(rt, "groups, nodes and links", &counts, &wanted);
    let least = cost_or_cut(rt.alloc(), case)?;
    assert_same(rt, "the least cost", &least, &Ok(0));
    Ok(())
}

#[test]
fn the_largest_case_has_its_net_of_chains(rt: HostRuntime) -> Result<(), Fail> {
    let forbids = few_forbids(rt.alloc())?;
    compare_net(&rt, &largest_case(rt.alloc(), forbids)?)
}

#[test]
fn a_case_of_all_forbidden_matches_has_its_net_of_chains(rt: HostRuntime) -> Result<(), Fail> {
    let forbids = most_forbids(rt.alloc())?;
    compare_net(&rt, &largest_case(rt.alloc(), forbids)?)
}

/// Compares the forbidden matches of a case with those that are read of its text.
fn compare_read(rt: &(impl Abort + AllocGlobal), case: &Case) -> Result<(), Fail>
    requires { IsValid case.now }
{
    let text = print_case(rt.alloc(), case)?;
    let read = read_case(rt.alloc(), &text)?;
    assert_same(rt, "the forbidden matches", &read.forbids, &case.forbids);
    assert_same(rt, "how many", &read.forbids.len(), &MOST_FORBIDS);
    Ok(())
}

#[test]
fn all_forbidden_matches_are_read(rt: HostRuntime) -> Result<(), Fail> {
    let forbids = most_forbids(rt.alloc())?;
    compare_read(&rt, &valid(case_with(rt.alloc(), forbids)?)?)
}
