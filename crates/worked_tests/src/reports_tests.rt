//! Texts of what is shown.
ghost use Rattle.reports.specs.Text.{IsPrintable};

use crate::compare::assert_same;
use case_text::CaseWhy;
use network_text::NetWhy;
use problem_table::Target;
use reports::{FileRole, Shown, text_of};
use site::SiteWhy;
use std::alloc::{AllocError, Global};
use std::process::Abort;
use std::test::Fail;
use stream_case::Items;
use study::SweepRow;

/// What is shown of the targets and these pinches.
#[tactic(auto, unfolding(reports::specs::Text::IsPrintable))]
fn targets_with(pinches: Vec<i32>) -> Shown
    ensures { IsPrintable result }
{
    Shown::Targets {
        targets: Target {
            hot: 20_000,
            cold: 60_000,
        },
        pinches: Items::from_vec(pinches),
    }
}

fn assert_printed(rt: &(impl Abort + AllocGlobal), shown: Shown, wanted: &str)
    requires { IsPrintable shown }
{
    let text = text_of(rt.alloc(), &shown).expect(rt, "memory for a text");
    assert_same(rt, "a text", &str::from_utf8(&text), &Ok(wanted));
}

#[test]
#[tactic(auto, unfolding(reports::specs::Text::IsPrintable))]
fn each_answer_has_its_text(rt: HostRuntime) -> Result<(), Fail> {
    let pinches = [850, -50].to_vec(rt.alloc())?;
    let text = "hot 20000\ncold 60000\npinch 850\npinch -50\n";
    assert_printed(&rt, targets_with(pinches), text);
    let text = "hot 20000\ncold 60000\npinch none\n";
    assert_printed(&rt, targets_with(Vec::new(rt.alloc())), text);
    Ok(())
}

#[test]
#[tactic(auto, unfolding(reports::specs::Text::IsPrintable))]
fn each_refusal_has_its_text(rt: HostRuntime) {
    let row = 14;
    let why = CaseWhy::TooMany;
    assert_printed(&rt, Shown::BadCase { row, why }, "case row 14 TooMany\n");
    let line = 20_001;
    let why = NetWhy::TooMany;
    let text = "network line 20001 TooMany\n";
    assert_printed(&rt, Shown::BadNetwork { line, why }, text);
    let row = 4;
    let why = SiteWhy::NoMain;
    assert_printed(&rt, Shown::BadSite { row, why }, "site row 4 NoMain\n");
    let words = "words: targets flow curves design vertical audit \
                 site sweep sample certify prices\n";
    assert_printed(&rt, Shown::BadWords, words);
}

/// Files that are too long, or cannot be read, and how that is told.
const FILES: &[(FileRole, &str, &str)] = &[
    (FileRole::Case, "too long case\n", "read fault case\n"),
    (
        FileRole::Network,
        "too long network\n",
        "read fault network\n",
    ),
    (FileRole::Site, "too long site\n", "read fault site\n"),
    (FileRole::Report, "too long report\n", "read fault report\n"),
    (FileRole::Study, "too long study\n", "read fault study\n"),
];

#[test]
#[tactic(auto, unfolding(reports::specs::Text::IsPrintable))]
fn files_that_are_not_had_are_told(rt: HostRuntime) {
    for (file, too_long, read_fault) in FILES {
        let file = *file;
        assert_printed(&rt, Shown::TooLong { file }, too_long);
        assert_printed(&rt, Shown::ReadFault { file }, read_fault);
    }
}

#[test]
#[tactic(auto, unfolding(reports::specs::Text::IsPrintable))]
fn rows_of_a_sweep_have_their_text(rt: HostRuntime) -> Result<(), Fail> {
    let rows = [
        SweepRow {
            contribution: 0,
            hot: 20_000,
            cold: 60_000,
            cost: Some(-5),
        },
        SweepRow {
            contribution: 1000,
            hot: 0,
            cold: 4_000,
            cost: None,
        },
    ];
    let rows = Items::from_vec(rows.to_vec(rt.alloc())?);
    let text = "row 0 20000 60000 -5\nrow 1000 0 4000 infeasible\n";
    assert_printed(&rt, Shown::Sweep { rows }, text);
    Ok(())
}

/// So many pinches.
fn many_pinches(alloc: Global, count: u32) -> Result<Vec<i32>, AllocError> {
    let mut pinches = Vec::new(alloc);
    for _ in 0..count {
        pinches.push(850)?;
    }
    Ok(pinches)
}

/// How many bytes the text of the targets and of these pinches has.
fn length_with(alloc: Global, pinches: Vec<i32>) -> Result<usize, AllocError> {
    let shown = targets_with(pinches);
    let text = text_of(alloc, &shown)?;
    Ok(text.len())
}

/// The targets, and so many pinches of ten bytes that the text is longer than most files.
#[test]
fn a_text_of_two_million_bytes_is_made(rt: HostRuntime) -> Result<(), Fail> {
    let pinches = many_pinches(rt.alloc(), 200_000)?;
    let length = length_with(rt.alloc(), pinches)?;
    assert_same(&rt, "its bytes", &length, &2_000_021);
    Ok(())
}
