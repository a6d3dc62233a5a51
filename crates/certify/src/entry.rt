//! What statements give.

ghost use Rattle.std.specs.Prelude.{◌≡◌, Some};
ghost use Rattle.first_fault.specs.Checks.{Checked};
ghost use Rattle.certify.specs.Given.{entry_as, entry_in, priced_in};
ghost use Rattle.certify.specs.Checks.{checks, field_checks, priced_checks};
ghost use Rattle.certify.specs.declared.kind.Kind.TheVariants as kind;

use crate::fault::ReportWhy;
use crate::fields::{amount, cost, cut_kind, name, span};
use crate::given::Given;
use crate::kind::{Kind, kind_of};
use crate::report::{Moved, Priced, Span, Used};
use heat_flow::CutKind;
use statements::Statement;

/// What a statement gives.
#[derive(Clone, Copy)]
pub enum Entry {
    Cost(i128),
    Use(Used),
    Move(Moved),
    Give(Priced),
    Take(Priced),
    Infeasible,
    Cut {
        kind: CutKind,
        need: i64,
        offer: i64,
    },
    Part(Span),
}

/// What a use says.
#[tactic(auto, using(first_fault::proofs::CheckLemmas::then_others), unfolding(crate::specs::Checks::field_checks))]
fn used(s: &Statement<'_>) -> Result<Entry, ReportWhy>
    ensures { Checked (field_checks kind.Use s.now) (λ e. e ≡ entry_as kind.Use s.now) result }
{
    let name = name(s.field(1))?;
    let heat = amount(s.field(2))?;
    Ok(Entry::Use(Used { name, heat }))
}

/// What a move says.
#[tactic(auto, using(first_fault::proofs::CheckLemmas::then_others), unfolding(crate::specs::Checks::field_checks))]
fn moved(s: &Statement<'_>) -> Result<Entry, ReportWhy>
    ensures { Checked (field_checks kind.Move s.now) (λ e. e ≡ entry_as kind.Move s.now) result }
{
    let hot = span(s, 1)?;
    let cold = span(s, 4)?;
    let heat = amount(s.field(7))?;
    Ok(Entry::Move(Moved { hot, cold, heat }))
}

/// The price that a statement gives a part.
#[tactic(auto, using(first_fault::proofs::CheckLemmas::then_others))]
fn priced(s: &Statement<'_>) -> Result<Priced, ReportWhy>
    ensures { Checked (priced_checks s.now) (λ priced. priced ≡ priced_in s.now) result }
{
    let part = span(s, 1)?;
    let price = amount(s.field(4))?;
    Ok(Priced { part, price })
}

/// What a cut says before its parts.
#[tactic(auto, using(first_fault::proofs::CheckLemmas::then_others), unfolding(crate::specs::Checks::field_checks))]
fn cut(s: &Statement<'_>) -> Result<Entry, ReportWhy>
    ensures { Checked (field_checks kind.Cut s.now) (λ e. e ≡ entry_as kind.Cut s.now) result }
{
    let kind = cut_kind(s.field(1))?;
    let need = amount(s.field(2))?;
    let offer = amount(s.field(3))?;
    Ok(Entry::Cut { kind, need, offer })
}

/// What the fields of a statement of this kind give.
#[tactic(auto, unfolding(crate::specs::Checks::field_checks))]
fn entry_as(kind: Kind, s: &Statement<'_>) -> Result<Entry, ReportWhy>
    ensures { Checked (field_checks kind s.now) (λ e. e ≡ entry_as kind s.now) result }
{
    match kind {
        Kind::Cost => Ok(Entry::Cost(cost(s.field(1))?)),
        Kind::Use => used(s),
        Kind::Move => moved(s),
        Kind::Give => Ok(Entry::Give(priced(s)?)),
        Kind::Take => Ok(Entry::Take(priced(s)?)),
        Kind::Infeasible => Ok(Entry::Infeasible),
        Kind::Cut => cut(s),
        Kind::Part => Ok(Entry::Part(span(s, 1)?)),
    }
}

/// What a statement gives behind those that gave this, or the first of its checks that fails.
#[tactic(auto, unfolding(crate::specs::Checks::checks, crate::specs::Given::entry_in))]
pub fn entry_of(given: &Given, s: &Statement<'_>) -> Result<Entry, ReportWhy>
    ensures { Checked (checks given.now s.now) (λ e. entry_in s.now ≡ Some e) result }
{
    let Some(kind) = kind_of(s.field(0)) else {
        return Err(ReportWhy::UnknownWord);
    };
    if s.len() != kind.field_count() {
        return Err(ReportWhy::FieldCount);
    }
    if !given.admits(kind) {
        return Err(ReportWhy::OutOfOrder);
    }
    entry_as(kind, s)
}
