//! The greatest common divisor.

ghost use Rattle.std.specs.Prelude.{◌<◌};
ghost use Rattle.std.specs.Int.{IsGcd};

/// The greatest common divisor, by Euclid's algorithm.
pub fn gcd(a: u128, b: u128) -> u128
    ensures divisor { IsGcd a b result }
    ensures positive { 0 < b → 0 < result }
{
    let mut x = a;
    let mut y = b;
    while y != 0 {
        let rest = x % y;
        x = y;
        y = rest;
    }
    x
}
