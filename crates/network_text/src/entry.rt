//! What statements give.

ghost use Rattle.std.specs.Prelude.{◌≡◌, Some};
ghost use Rattle.stream_case.specs.Case.{IsComplete};
ghost use Rattle.first_fault.specs.Checks.{Checked};
ghost use Rattle.network_text.specs.Given.{end_entry, entry_in, exchanger_entry, mix_entry, pass_entry, split_entry};
ghost use Rattle.network_text.specs.Checks.{checks, end_checks, exchanger_checks, exchanger_field_checks, mix_checks, pass_checks, split_checks};

use crate::branch_fields::{check_mixed, new_branch, new_exchanger, passed_exchanger, used_branch};
use crate::fault::NetWhy;
use crate::fraction_text::positive_fraction;
use crate::given::Given;
use crate::kind::{Kind, kind_of};
use crate::sources::hot_and_cold;
use networks::{AtMostTwo, Line, MOST_EXCHANGERS, MOST_STATEMENTS};
use statements::Statement;
use stream_case::{Case, Name};

/// What a statement gives: its line, whose new branches have the next numbers, and their names.
#[derive(Clone, Copy)]
pub struct Entry {
    pub line: Line,
    pub names: AtMostTwo<Name>,
}

/// What the fields of the statement of an exchanger give.
#[tactic(auto, using(first_fault::proofs::CheckLemmas::then_others), unfolding(crate::specs::Checks::exchanger_field_checks))]
fn exchanger_fields(case: &Case, given: &Given, s: &Statement<'_>) -> Result<Entry, NetWhy>
    requires { IsComplete case.now }
    ensures { Checked (exchanger_field_checks case.now given.now.network s.now) (λ e.
        e ≡ exchanger_entry case.now s.now) result }
{
    let name = new_exchanger(given, s.field(1))?;
    let sides = hot_and_cold(case, s.field(2), s.field(3))?;
    let duty = positive_fraction(s.field(4))?;
    Ok(Entry {
        line: Line::Exchanger {
            name,
            hot: sides.hot,
            cold: sides.cold,
            duty,
        },
        names: AtMostTwo::Nothing,
    })
}

/// What the statement of an exchanger gives.
#[tactic(auto, unfolding(crate::specs::Checks::exchanger_checks))]
fn exchanger_entry(case: &Case, given: &Given, s: &Statement<'_>) -> Result<Entry, NetWhy>
    requires { IsComplete case.now }
    ensures { Checked (exchanger_checks case.now given.now.network s.now) (λ e.
        e ≡ exchanger_entry case.now s.now) result }
{
    if s.len() != 5 {
        return Err(NetWhy::FieldCount);
    }
    if given.count_exchangers() >= MOST_EXCHANGERS {
        return Err(NetWhy::TooMany);
    }
    exchanger_fields(case, given, s)
}

/// What the statement of a split gives.
#[tactic(auto, using(first_fault::proofs::CheckLemmas::then_others), unfolding(crate::specs::Checks::split_checks))]
fn split_entry(given: &Given, s: &Statement<'_>) -> Result<Entry, NetWhy>
    ensures { Checked (split_checks given.now.network s.now) (λ e.
        e ≡ split_entry given.now.network s.now) result }
{
    if s.len() != 5 {
        return Err(NetWhy::FieldCount);
    }
    let from = used_branch(given, s.field(1))?;
    let first = new_branch(given, s.field(2))?;
    let cp = positive_fraction(s.field(3))?;
    let second = new_branch(given, s.field(4))?;
    if second == first {
        return Err(NetWhy::SameName);
    }
    let number = given.count_branches();
    Ok(Entry {
        line: Line::Split {
            from,
            first: number,
            cp,
            second: number + 1,
        },
        names: AtMostTwo::Two(first, second),
    })
}

/// What the statement of a pass gives.
#[tactic(auto, using(first_fault::proofs::CheckLemmas::then_others), unfolding(crate::specs::Checks::pass_checks))]
fn pass_entry(given: &Given, s: &Statement<'_>) -> Result<Entry, NetWhy>
    ensures { Checked (pass_checks given.now.network s.now) (λ e.
        e ≡ pass_entry given.now.network s.now) result }
{
    if s.len() != 4 {
        return Err(NetWhy::FieldCount);
    }
    let from = used_branch(given, s.field(1))?;
    let exchanger = passed_exchanger(given, from, s.field(2))?;
    let name = new_branch(given, s.field(3))?;
    Ok(Entry {
        line: Line::Pass {
            from,
            exchanger,
            to: given.count_branches(),
        },
        names: AtMostTwo::One(name),
    })
}

/// What the statement of a mix gives.
#[tactic(auto, using(first_fault::proofs::CheckLemmas::then_others), unfolding(crate::specs::Checks::mix_checks))]
fn mix_entry(given: &Given, s: &Statement<'_>) -> Result<Entry, NetWhy>
    ensures { Checked (mix_checks given.now.network s.now) (λ e.
        e ≡ mix_entry given.now.network s.now) result }
{
    if s.len() != 4 {
        return Err(NetWhy::FieldCount);
    }
    let first = used_branch(given, s.field(1))?;
    let second = used_branch(given, s.field(2))?;
    check_mixed(given, first, second)?;
    let name = new_branch(given, s.field(3))?;
    Ok(Entry {
        line: Line::Mix {
            first,
            second,
            to: given.count_branches(),
        },
        names: AtMostTwo::One(name),
    })
}

/// What the statement of an end gives.
#[tactic(auto, using(first_fault::proofs::CheckLemmas::then_others), unfolding(crate::specs::Checks::end_checks))]
fn end_entry(given: &Given, s: &Statement<'_>) -> Result<Entry, NetWhy>
    ensures { Checked (end_checks given.now.network s.now) (λ e.
        e ≡ end_entry given.now.network s.now) result }
{
    if s.len() != 2 {
        return Err(NetWhy::FieldCount);
    }
    let branch = used_branch(given, s.field(1))?;
    Ok(Entry {
        line: Line::End { branch },
        names: AtMostTwo::Nothing,
    })
}

/// What a statement gives, or the first of its checks that fails.
#[tactic(auto, unfolding(crate::specs::Checks::checks, crate::specs::Checks::kind_checks, crate::specs::Given::entry_in))]
pub fn entry_of(case: &Case, given: &Given, s: &Statement<'_>) -> Result<Entry, NetWhy>
    requires { IsComplete case.now }
    ensures { Checked (checks case.now given.now.network s.now) (λ e.
        entry_in case.now given.now.network s.now ≡ Some e) result }
{
    if given.count_lines() >= MOST_STATEMENTS {
        return Err(NetWhy::TooMany);
    }
    match kind_of(s.field(0)) {
        None => Err(NetWhy::UnknownWord),
        Some(Kind::Exchanger) => exchanger_entry(case, given, s),
        Some(Kind::Split) => split_entry(given, s),
        Some(Kind::Pass) => pass_entry(given, s),
        Some(Kind::Mix) => mix_entry(given, s),
        Some(Kind::End) => end_entry(given, s),
    }
}
