//! Fraction texts.

ghost use Rattle.std.specs.Prelude.{◌≡◌, position};
ghost use Rattle.std.specs.List.{before_first};
ghost use Rattle.first_fault.specs.Checks.{Checked};
ghost use Rattle.network_text.specs.Fractions.{denominator_in, fraction, fraction_in, is_slash};
ghost use Rattle.network_text.specs.Checks.{fraction_checks};

use crate::fault::NetWhy;
use crate::limits::MOST_DIGITS;
use fractions::Frac;
use stream_case::{integer_of, natural_of};

/// The index of the first `/`.
fn slash_in(text: &[u8]) -> Option<usize>
    ensures { result ≡ position is_slash text.now }
{
    text.iter().position(|byte| *byte == b'/')
}

/// What stands before the first `/`.
fn before_slash(text: &[u8]) -> &[u8]
    ensures { result.now ≡ before_first is_slash text.now }
{
    let Some(slash) = slash_in(text) else {
        return text;
    };
    &text[..slash]
}

/// The denominator, behind the first `/`; it is 1 where there is none.
fn denominator_of(text: &[u8]) -> Option<u128>
    ensures { result ≡ denominator_in text.now }
{
    let Some(slash) = slash_in(text) else {
        return Some(1);
    };
    natural_of(&text[slash + 1..], MOST_DIGITS)
}

/// The fraction that a text spells, if it is a fraction text of a fraction: an optional `-`, 1 to
/// `MOST_DIGITS` digits, and optionally `/` and 1 to `MOST_DIGITS` digits, which are not all 0
/// (this project's rule). The lowest terms have to be within the limits of a `Frac`.
#[tactic(auto, unfolding(crate::specs::Fractions::fraction_in))]
pub fn fraction_of(text: &[u8]) -> Option<Frac>
    ensures { result ≡ fraction_in text.now }
{
    let numerator = integer_of(before_slash(text), MOST_DIGITS)?;
    let denominator = denominator_of(text)?;
    Frac::from_parts(numerator, denominator)
}

/// The fraction above 0 that a field spells: a duty in W, or the size of a branch.
#[tactic(auto, unfolding(crate::specs::Checks::fraction_checks, crate::specs::Fractions::fraction))]
pub fn positive_fraction(field: &[u8]) -> Result<Frac, NetWhy>
    ensures { Checked (fraction_checks field.now) (λ value. value ≡ fraction field.now) result }
{
    let Some(value) = fraction_of(field) else {
        return Err(NetWhy::BadNumber);
    };
    if !value.is_positive() {
        return Err(NetWhy::NotPositive);
    }
    Ok(value)
}
