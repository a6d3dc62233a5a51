//! The type of a fraction, its operations, its order and its text.
#![tactic(auto, using(crate::specs::Fields::fields))]

ghost use Rattle.std.specs.Prelude.{◌≡◌, ◌≢◌, ◌+◌, ◌*◌, ◌<◌, ◌≤◌, ◌^◌, pos, ◌*ℤ◌, unsigned_abs, MatchBool};
ghost use Rattle.std.specs.Ordering.{MatchOrdering};
ghost use Rattle.fractions.specs.Integers.{signed};
ghost use Rattle.fractions.specs.Rationals.{Gives, IsAtMost, IsBelow, IsWithinLimits, bounded_ratio, is_below, minus, over, plus, ratio, rational_cmp, rational_zero, times, whole};

use crate::terms::LowestTerms;
use std::cmp::Ordering;
use std::fmt;
use std::marker::Model;

/// The greatest size of a numerator.
const NUM_MAX: u128 = 1 << 76;

/// The greatest denominator.
const DEN_MAX: u128 = 1 << 48;

/// A rational in lowest terms within the limits of this project: a denominator of at most 2^48 and a numerator from
/// -2^76 to 2^76. Zero is 0/1.
///
/// `==`, the order and the hash are those of the rationals. It is printed as `n` where the denominator is 1, and as
/// `n/d` otherwise.
#[derive(Clone, Copy, Debug, PartialEq, Eq, Hash)]
pub struct Frac {
    num: i128,
    den: u64,
}

impl Model for Frac {
    ghost use Rattle.fractions.specs.Rationals.{Rational, ratio};
    ghost use Rattle.fractions.specs.LowestForms.{rational_code};
    ghost use Rattle.fractions.specs.Fields.{IsFraction};

    ghost Value = { Rational };

    ghost coded = { rational_code };

    ghost use Rattle.fractions.specs.Inside.{fields_of, fields_of-ratio};

    ghost view = { λ f. ratio f.num f.den };

    ghost invariant = { λ f. IsFraction f.num f.den };

    ghost inverse = { fields_of };

    ghost inverse_ok = { fields_of-ratio };
}

/// A whole number by its sign and its size.
fn with_sign(negative: bool, size: u128) -> i128
    requires { size ≤ 2 ^ 76 }
    ensures { result ≡ signed negative size }
{
    if negative {
        -(size as i128)
    } else {
        size as i128
    }
}

impl Frac {
    /// The fraction `num / den`: none where `den` is 0, or where its lowest terms are outside the limits.
    pub fn new(num: i128, den: u64) -> Option<Frac>
        ensures zero { den ≡ 0 → result ≡ None }
        ensures value { 0 < den → Gives result (ratio num den) }
    {
        Frac::from_parts(num, u128::from(den))
    }

    /// The same, where the denominator may be beyond 64 bits before it is reduced.
    pub fn from_parts(num: i128, den: u128) -> Option<Frac>
        ensures zero { den ≡ 0 → result ≡ None }
        ensures value { 0 < den → Gives result (ratio num den) }
        ensures bounded { result ≡ bounded_ratio num den }
    {
        if den == 0 {
            return None;
        }
        Frac::within_limits(LowestTerms::reduced(num, den))
    }

    /// The whole number `n`.
    pub fn whole(n: i64) -> Frac
        ensures { result ≡ whole n }
    {
        Frac {
            num: i128::from(n),
            den: 1,
        }
    }

    /// The numerator in lowest terms, from -2^76 to 2^76.
    pub fn num(&self) -> i128
        ensures value { result ≡ self.now.num }
        ensures within { IsWithinLimits self.now }
    {
        self.num
    }

    /// The denominator in lowest terms, from 1 to 2^48.
    pub fn den(&self) -> u64
        ensures value { result ≡ self.now.den }
        ensures within { IsWithinLimits self.now }
    {
        self.den
    }

    /// The sum: none where it is outside the limits.
    pub fn plus(&self, other: &Frac) -> Option<Frac>
        ensures { Gives result (plus self.now other.now) }
    {
        self.over_both(other, self.cross(other) + other.cross(self))
    }

    /// The difference: none where it is outside the limits.
    pub fn minus(&self, other: &Frac) -> Option<Frac>
        ensures { Gives result (minus self.now other.now) }
    {
        self.over_both(other, self.cross(other) - other.cross(self))
    }

    /// The product: none where it is outside the limits.
    pub fn times(&self, other: &Frac) -> Option<Frac>
        ensures { Gives result (times self.now other.now) }
    {
        Frac::within_limits(self.terms().times(other.terms())?)
    }

    /// The quotient: none where `other` is 0, or where the quotient is outside the limits.
    pub fn over(&self, other: &Frac) -> Option<Frac>
        ensures zero { other.now ≡ rational_zero → result ≡ None }
        ensures value { other.now ≢ rational_zero → Gives result (over self.now other.now) }
    {
        if other.num() == 0 {
            return None;
        }
        Frac::within_limits(self.terms().times(other.terms().reciprocal())?)
    }

    /// How the fraction compares with another, by the cross products.
    pub fn compare(&self, other: &Frac) -> Ordering
        ensures value { result ≡ rational_cmp self.now other.now }
        ensures ranks { MatchOrdering result (IsBelow self.now other.now)
            (self.now ≡ other.now) (IsBelow other.now self.now) }
    {
        self.cross(other).cmp(&other.cross(self))
    }

    /// Whether the fraction is below another.
    pub fn is_below(&self, other: &Frac) -> bool
        ensures value { result ≡ is_below self.now other.now }
        ensures ranks { MatchBool result (IsBelow self.now other.now)
            (IsAtMost other.now self.now) }
    {
        self.compare(other).is_lt()
    }

    /// Whether the fraction is above 0.
    pub fn is_positive(&self) -> bool
        ensures value { result ≡ is_below rational_zero self.now }
        ensures ranks { MatchBool result (IsBelow rational_zero self.now)
            (IsAtMost self.now rational_zero) }
    {
        self.num() > 0
    }

    /// The numerator times the other denominator.
    fn cross(&self, other: &Frac) -> i128
        ensures value { result ≡ self.now.num *ℤ pos other.now.den }
        ensures small { unsigned_abs result ≤ 2 ^ 124 }
    {
        self.num() * i128::from(other.den())
    }

    /// A numerator over the product of both denominators.
    fn over_both(&self, other: &Frac, num: i128) -> Option<Frac>
        ensures { Gives result (ratio num (self.now.den * other.now.den)) }
    {
        let den = u128::from(self.den()) * u128::from(other.den());
        Frac::within_limits(LowestTerms::reduced(num, den))
    }

    /// The fraction by its sign and sizes.
    fn terms(&self) -> LowestTerms
        ensures { result ≡ self.now }
    {
        LowestTerms {
            negative: self.num < 0,
            size: self.num.unsigned_abs(),
            den: u128::from(self.den),
        }
    }

    /// The fraction with these terms.
    fn within_limits(terms: LowestTerms) -> Option<Frac>
        ensures { Gives result terms }
    {
        if terms.size > NUM_MAX || terms.den > DEN_MAX {
            return None;
        }
        Some(Frac {
            num: with_sign(terms.negative, terms.size),
            den: terms.den as u64,
        })
    }
}

impl fmt::Display for Frac {
    ghost use Rattle.std.specs.Prelude.{Some};
    ghost use Rattle.fractions.specs.Rationals.{fraction_text};

    ghost output = { λ f. Some (fraction_text f) };

    fn fmt<W: fmt::Write>(&self, f: &mut fmt::Formatter<W>) -> fmt::Result {
        let num = self.num();
        let den = self.den();
        if den == 1 {
            write!(f, "{num}")
        } else {
            write!(f, "{num}/{den}")
        }
    }
}

impl Ord for Frac {
    ghost use Rattle.std.specs.Prelude.{refl};
    ghost use Rattle.fractions.specs.Rationals.{rational_cmp};
    ghost use Rattle.fractions.specs.Order.{rational_cmp_total, rational_cmp_ties};

    ghost cmp = { rational_cmp };

    ghost total = { rational_cmp_total };

    ghost matches_partial_cmp = { λ a b. refl };

    ghost matches_eq = { rational_cmp_ties };

    fn cmp(&self, other: &Frac) -> Ordering {
        self.compare(other)
    }
}

impl PartialOrd for Frac {
    ghost use Rattle.std.specs.Prelude.{Some, refl};
    ghost use Rattle.std.specs.Cmp.{partial_order_from_agreeing_total};
    ghost use Rattle.fractions.specs.Rationals.{rational_cmp};
    ghost use Rattle.fractions.specs.Order.{rational_cmp_total, rational_cmp_ties};

    ghost partial_cmp = { λ a b. Some (rational_cmp a b) };

    ghost laws = { partial_order_from_agreeing_total rational_cmp rational_cmp_total (λ a b. refl) rational_cmp_ties };

    fn partial_cmp(&self, other: &Frac) -> Option<Ordering> {
        Some(self.compare(other))
    }
}
