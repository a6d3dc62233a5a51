//! What stands in the fields of a statement.

ghost use Rattle.std.specs.Prelude.{◌≡◌, ◌+◌, ◌≤◌, ◌≤ℤ◌, neg_ℤ, pos};
ghost use Rattle.first_fault.specs.Checks.{Checked};
ghost use Rattle.stream_case.specs.Limits.{IsBetween};
ghost use Rattle.certify.specs.Given.{cut_kind, number, span_at};
ghost use Rattle.certify.specs.Checks.{cut_kind_checks, name_checks, number_checks, span_checks};
ghost use Rattle.certify.specs.declared.limits.TheConstants.{MOST_AMOUNT, MOST_COST, MOST_LEVEL};

use crate::fault::ReportWhy;
use crate::kind::cut_kind_of;
use crate::limits::{MOST_AMOUNT, MOST_COST, MOST_DIGITS, MOST_LEVEL};
use crate::report::Span;
use heat_flow::CutKind;
use statements::Statement;
use stream_case::{Name, integer_of};

/// The kind of cut that a field names.
#[tactic(auto, unfolding(crate::specs::Given::cut_kind))]
pub fn cut_kind(field: &[u8]) -> Result<CutKind, ReportWhy>
    ensures { Checked (cut_kind_checks field.now) (λ kind. kind ≡ cut_kind field.now) result }
{
    cut_kind_of(field).ok_or(ReportWhy::BadKind)
}

/// The name of a source.
pub fn name(field: &[u8]) -> Result<Name, ReportWhy>
    ensures { Checked (name_checks field.now) (λ name. name ≡ field.now) result }
{
    Name::undotted(field).ok_or(ReportWhy::BadName)
}

/// The number that a field spells, if it is within `most` on both sides of 0.
#[tactic(auto, unfolding(crate::specs::Given::number))]
fn number(field: &[u8], most: i128) -> Result<i128, ReportWhy>
    requires { pos 0 ≤ℤ most }
    ensures { Checked (number_checks most field.now) (λ n.
        (n ≡ number field.now) × IsBetween (neg_ℤ most) most n) result }
{
    let Some(n) = integer_of(field, MOST_DIGITS) else {
        return Err(ReportWhy::BadNumber);
    };
    if n < -most || most < n {
        return Err(ReportWhy::OutOfRange);
    }
    Ok(n)
}

/// A cost.
pub fn cost(field: &[u8]) -> Result<i128, ReportWhy>
    ensures { Checked (number_checks MOST_COST field.now) (λ n. n ≡ number field.now) result }
{
    number(field, MOST_COST)
}

/// A heat or a price.
pub fn amount(field: &[u8]) -> Result<i64, ReportWhy>
    ensures { Checked (number_checks MOST_AMOUNT field.now) (λ n. n ≡ number field.now) result }
{
    Ok(number(field, MOST_AMOUNT)? as i64)
}

/// A high or a low of a part.
pub fn level(field: &[u8]) -> Result<i32, ReportWhy>
    ensures { Checked (number_checks MOST_LEVEL field.now) (λ n. n ≡ number field.now) result }
{
    Ok(number(field, MOST_LEVEL)? as i32)
}

/// The part that three fields from this one on name.
#[tactic(auto, using(first_fault::proofs::CheckLemmas::then_others), unfolding(crate::specs::Checks::span_checks, crate::specs::Given::span_at))]
pub fn span(s: &Statement<'_>, at: usize) -> Result<Span, ReportWhy>
    requires { at ≤ 4 }
    ensures { Checked (span_checks s.now at) (λ span. span ≡ span_at s.now at) result }
{
    Ok(Span {
        name: name(s.field(at))?,
        high: level(s.field(at + 1))?,
        low: level(s.field(at + 2))?,
    })
}
