//! The table and the profiles of sites that were worked by hand.
ghost use Rattle.site_text.specs.Site.{IsValidSite};

use crate::compare::{assert_lists, assert_same};
use crate::grid_tests::{PartRow, rows_of};
use heat_flow::{Cut, CutKind};
use site::{Site, read_site, sink_profile, site_parts, site_target, source_profile};
use std::alloc::{AllocError, Global};
use std::process::Abort;
use std::test::Fail;
use stream_case::Items;
use stream_case::Side::{Cold, Hot};
use stream_case::Source::{Stream, Utility};
use transport::Answer;
use worked_tables::MOST_HEAT;

/// A plant with heat to give, one that wants heat, and a main between them.
const TWO_PLANTS: &[u8] =
    b"contribution,,50,,,,\nmain,MP,1500,,,,\nplant,A,,,,,\nhot,H,2000,1000,10,,\nplant,B,,,,,\ncold,C,500,1300,10,,\n";

/// The same streams in one plant.
const ONE_PLANT: &[u8] =
    b"contribution,,50,,,,\nmain,MP,1500,,,,\nplant,A,,,,,\nhot,H,2000,1000,10,,\ncold,C,500,1300,10,,\n";

/// The plant that wants heat alone, whose main is too low for it.
const LOW_MAIN: &[u8] =
    b"contribution,,50,,,,\nmain,MP,1350,,,,\nplant,B,,,,,\ncold,C,500,1300,10,,\n";

const PLACES: [i32; 6] = [1950, 1550, 1450, 1350, 950, 550];

const HOT_PARTS: [PartRow; 5] = [
    (Stream(0), Hot, 1950, 1550, 4000, 4000, 0),
    (Stream(0), Hot, 1550, 1450, 1000, 1000, 0),
    (Utility(0), Hot, 1450, 1450, 0, MOST_HEAT, 1),
    (Stream(0), Hot, 1450, 1350, 1000, 1000, 0),
    (Stream(0), Hot, 1350, 950, 4000, 4000, 0),
];

const COLD_PARTS: [PartRow; 3] = [
    (Stream(1), Cold, 1350, 950, 4000, 4000, 0),
    (Stream(1), Cold, 950, 550, 4000, 4000, 0),
    (Utility(1), Cold, 550, 550, 0, MOST_HEAT, 0),
];

/// A temperature, and what the plants can take and give there.
type Profile = (i32, i64, i64);

/// At each place, between places, and at the ends of the numbers.
const PROFILES: [(&[u8], &[Profile]); 3] = [
    (
        TWO_PLANTS,
        &[
            (1950, 0, 10_000),
            (1550, 0, 6000),
            (1450, 0, 5000),
            (1350, 0, 4000),
            (950, 4000, 0),
            (550, 8000, 0),
            (1000, 3500, 500),
            (1351, 0, 4010),
            (549, 8000, 0),
            (i32::MAX, 0, 10_000),
            (i32::MIN, 8000, 0),
        ],
    ),
    (
        ONE_PLANT,
        &[(1950, 0, 2000), (1350, 0, 0), (950, 0, 0), (550, 0, 0)],
    ),
    (
        LOW_MAIN,
        &[(1400, 0, 0), (1350, 0, 0), (1300, 500, 0), (550, 8000, 0)],
    ),
];

/// The most bytes of the tests' files.
const LONGEST: usize = 10_000;

/// What a text is read as.
fn read(rt: &(impl Abort + AllocGlobal), text: &[u8]) -> Site
    ensures { IsValidSite result }
{
    assert!(rt; text.len() <= LONGEST);
    read_site(rt.alloc(), text).expect(rt, "a site")
}

/// Row by row over the hot parts: heat of the other plant passes only through the main.
const TWO_PLANTS_CELLS: &[u8] = b"\
    TTT\
    FFT\
    TTT\
    FFT\
    FFT";

/// The cells of the table of a site, as letters.
fn cells_of(alloc: Global, cells: &[bool]) -> Result<Vec<u8>, AllocError> {
    let mut letters = Vec::new(alloc);
    for reaches in cells {
        letters.push(if *reaches { b'T' } else { b'F' })?;
    }
    Ok(letters)
}

#[test]
fn two_plants_have_this_table(rt: HostRuntime) -> Result<(), Fail> {
    let table = site_parts(rt.alloc(), &read(&rt, TWO_PLANTS))?;
    assert_lists(&rt, "the places", table.places.as_slice(), &PLACES);
    let rows = rows_of(rt.alloc(), table.parts.hot.as_slice())?;
    assert_lists(&rt, "the hot parts", &rows, &HOT_PARTS);
    let rows = rows_of(rt.alloc(), table.parts.cold.as_slice())?;
    assert_lists(&rt, "the cold parts", &rows, &COLD_PARTS);
    let cells = cells_of(rt.alloc(), table.reach.cells.as_slice())?;
    assert_lists(&rt, "the cells", &cells, TWO_PLANTS_CELLS);
    Ok(())
}

#[test]
fn within_a_plant_heat_passes_without_a_main(rt: HostRuntime) -> Result<(), Fail> {
    let table = site_parts(rt.alloc(), &read(&rt, ONE_PLANT))?;
    let cells = cells_of(rt.alloc(), table.reach.cells.as_slice())?;
    assert_lists(&rt, "the cells", &cells, b"TTTTTTTTTTTTTTT");
    Ok(())
}

#[test]
fn sites_have_these_profiles(rt: HostRuntime) {
    for (text, profiles) in &PROFILES {
        let site = read(&rt, text);
        for (t, sink, source) in *profiles {
            assert_same(&rt, "a sink", &sink_profile(&site, *t), sink);
            assert_same(&rt, "a source", &source_profile(&site, *t), source);
        }
    }
}

/// The target of a site.
fn target(rt: &(impl Abort + AllocGlobal), text: &[u8]) -> Answer {
    site_target(rt.alloc(), &read(rt, text)).expect(rt, "memory for a target")
}

/// The least boiler heat: of the 8000 W that are wanted 4000 come through the main, and all where
/// the streams are in one plant.
const BOILERS: [(&[u8], i128); 2] = [(TWO_PLANTS, 4000), (ONE_PLANT, 0)];

#[test]
fn the_boiler_gives_what_the_mains_do_not(rt: HostRuntime) {
    for (text, wanted) in &BOILERS {
        let cost = match target(&rt, text) {
            Answer::Least { cost, .. } => Some(cost),
            Answer::Stuck(_) => None,
        };
        assert_same(&rt, "the boiler", &cost, &Some(*wanted));
    }
}

#[test]
fn a_main_that_is_too_low_leaves_a_cut(rt: HostRuntime) -> Result<(), Fail> {
    let wanted = Cut {
        kind: CutKind::Demand,
        parts: Items::from_vec([0].to_vec(rt.alloc())?),
        need: 500,
        offer: 0,
    };
    let cut = match target(&rt, LOW_MAIN) {
        Answer::Least { .. } => None,
        Answer::Stuck(cut) => Some(cut),
    };
    assert_same(&rt, "the cut", &cut, &Some(wanted));
    Ok(())
}
