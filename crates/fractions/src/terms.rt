//! Lowest terms of any size that fits 128 bits, before the limits are tested.

ghost use Rattle.std.specs.Prelude.{◌≡◌, ◌≢◌, ◌<◌, IsNone, IfSome};
ghost use Rattle.fractions.specs.Rationals.{IsWithinLimits, ratio, rational_zero, reciprocal, times};

use crate::divisor::gcd;
use std::marker::Model;

/// A rational in lowest terms, by its sign and the sizes of its two numbers.
#[derive(Drop)]
pub struct LowestTerms {
    pub negative: bool,
    pub size: u128,
    pub den: u128,
}

impl Model for LowestTerms {
    ghost use Rattle.fractions.specs.Integers.{signed};
    ghost use Rattle.fractions.specs.Rationals.{Rational, ratio};
    ghost use Rattle.fractions.specs.LowestForms.{rational_code};
    ghost use Rattle.fractions.specs.Fields.{IsInLowestTerms};

    ghost Value = { Rational };

    ghost coded = { rational_code };

    ghost view = { λ terms. ratio (signed terms.negative terms.size) terms.den };

    ghost invariant = { λ terms. IsInLowestTerms terms.size terms.den };
}

impl LowestTerms {
    /// The lowest terms of `num / den`.
    pub fn reduced(num: i128, den: u128) -> LowestTerms
        requires { 0 < den }
        ensures { result ≡ ratio num den }
    {
        let size = num.unsigned_abs();
        let common = gcd(size, den);
        LowestTerms {
            negative: num < 0,
            size: size / common,
            den: den / common,
        }
    }

    /// One over a rational that is not 0.
    pub fn reciprocal(self) -> LowestTerms
        requires { self ≢ rational_zero }
        ensures { result ≡ reciprocal self }
    {
        LowestTerms {
            negative: self.negative,
            size: self.den,
            den: self.size,
        }
    }

    /// The product, where both of its numbers fit 128 bits; none otherwise, and it is outside the limits then.
    ///
    /// Common divisors are divided out crosswise first, so that what is left is in lowest terms.
    pub fn times(self, other: LowestTerms) -> Option<LowestTerms>
        ensures product { IfSome result (λ product. product ≡ times self other) }
        ensures beyond { IsNone result → IsWithinLimits (times self other) → ⊥ }
    {
        let first = gcd(self.size, other.den);
        let second = gcd(other.size, self.den);
        Some(LowestTerms {
            negative: self.negative != other.negative,
            size: (self.size / first).checked_mul(other.size / second)?,
            den: (self.den / second).checked_mul(other.den / first)?,
        })
    }
}
