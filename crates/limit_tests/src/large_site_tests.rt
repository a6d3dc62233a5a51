//! A site of the most pairs of parts.
ghost use Rattle.site_text.specs.Site.{IsValidSite};

use crate::compare::assert_same;
use site::{Site, read_site, site_parts, site_target};
use std::alloc::{AllocError, AllocGlobal, Global};
use std::fmt::Write;
use std::process::Abort;
use std::test::Fail;
use transport::Answer;

/// The most bytes of the file.
const LONGEST: usize = 10_000;

/// The hot and the cold parts: each stream is divided by an end of each other one and by both
/// shifted levels of the four mains; and one part of the boiler, one of the cooling.
const PARTS: [usize; 2] = [12 * (24 + 8) + 1; 2];

/// What the hot streams give less than the cold ones of their plants want, all of which can take it,
/// and below the mains.
const BOILER: i128 = 24_000;

/// Six plants of two hot and two cold streams, which all overlap, and four mains.
fn largest_site(alloc: Global) -> Result<String, Fail> {
    let mut text = String::from_str(alloc, "contribution,,5,,,,\n")?;
    for number in 0..4u8 {
        writeln!(text, "main,M{number},{},,,,", 1500 + 20 * i32::from(number))?;
    }
    for number in 0..12u8 {
        push_pair(&mut text, number)?;
    }
    Ok(text)
}

/// A hot and a cold stream, behind a new plant at each even number.
fn push_pair(text: &mut String, number: u8) -> Result<(), Fail> {
    if number % 2 == 0 {
        writeln!(text, "plant,P{number},,,,,")?;
    }
    let step = 10 * i32::from(number);
    writeln!(text, "hot,H{number},{},{},10,,", 2000 + step, 1000 + step)?;
    Ok(writeln!(text, "cold,C{number},{},{},10,,", 500 + step, 1700 + step)?)
}

/// What the text is read as.
fn read(rt: &(impl Abort + AllocGlobal), text: &str) -> Site
    ensures { IsValidSite result }
{
    assert!(rt; text.len() <= LONGEST);
    read_site(rt.alloc(), text.as_bytes()).expect(rt, "a site")
}

/// How many hot and cold parts a site has.
fn part_counts(alloc: Global, site: &Site) -> Result<[usize; 2], AllocError>
    requires { IsValidSite site.now }
{
    let table = site_parts(alloc, site)?;
    Ok([table.parts.hot.len(), table.parts.cold.len()])
}

/// The least heat of its boiler, if there is a heat flow.
fn boiler(alloc: Global, site: &Site) -> Result<Option<i128>, AllocError>
    requires { IsValidSite site.now }
{
    match site_target(alloc, site)? {
        Answer::Least { cost, .. } => Ok(Some(cost)),
        Answer::Stuck(_) => Ok(None),
    }
}

#[test]
fn the_largest_site_has_its_parts_and_its_target(rt: HostRuntime) -> Result<(), Fail> {
    let site = read(&rt, &largest_site(rt.alloc())?);
    assert_same(&rt, "the parts", &part_counts(rt.alloc(), &site)?, &PARTS);
    let heat = boiler(rt.alloc(), &site)?;
    assert_same(&rt, "the boiler", &heat, &Some(BOILER));
    Ok(())
}
