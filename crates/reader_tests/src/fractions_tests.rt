//! Fractions in lowest terms, at their limits too.
use crate::compare::assert_same;
use fractions::Frac;
use std::alloc::{AllocError, Global};
use std::collections::HashSet;
use std::process::Abort;
use std::test::Fail;

const MOST: i128 = 1 << 76;

const FINEST: u64 = 1 << 48;

const POWER_30_OF_3: u64 = 205891132094649;

const POWER_47_OF_3: i128 = 26588814358957503287787;

/// A numerator, a denominator, and the fraction.
const FRACTIONS: [(i128, u64, &str); 9] = [
    (4, 6, "2/3"),
    (1, 0, "none"),
    (MOST, 1, "75557863725914323419136"),
    (MOST + 1, 1, "none"),
    (-MOST, 1, "-75557863725914323419136"),
    (-MOST - 1, 1, "none"),
    (1, FINEST, "1/281474976710656"),
    (1, FINEST + 1, "none"),
    (-3, 6, "-1/2"),
];

/// The same with wide denominators.
const WIDE_FRACTIONS: [(i128, u128, &str); 3] = [
    (i128::MIN, 1 << 63, "-18446744073709551616"),
    (500000000000000000000000, 1000000000000000000000000, "1/2"),
    (3, 0, "none"),
];

#[derive(Clone, Copy)]
enum Operation {
    Plus,
    Minus,
    Times,
    Over,
}

use Operation::{Minus, Over, Plus, Times};

/// An operation, two fractions, and what it gives.
const OPERATIONS: [(Operation, (i128, u64), (i128, u64), &str); 10] = [
    (Plus, (1, 2), (1, 3), "5/6"),
    (Plus, (1, FINEST), (1, FINEST - 1), "none"),
    (Minus, (1, 3), (1, 2), "-1/6"),
    (Times, (MOST, 1), (1, 2), "37778931862957161709568"),
    (Times, (MOST, 3), (-3, FINEST), "-268435456"),
    (Times, (MOST, 1), (MOST, 1), "none"),
    // the product of the numerators passes 128 bits
    (
        Times,
        (MOST, POWER_30_OF_3),
        (POWER_47_OF_3, FINEST),
        "34665798542819328",
    ),
    (Over, (1, 3), (0, 1), "none"),
    (Over, (0, 1), (5, 1), "0"),
    (Over, (1, 3), (-2, 5), "-5/6"),
];

/// Fractions near the limits, rising.
const RISING: [(i128, u64); 7] = [
    (-MOST, FINEST - 2),
    (-MOST, FINEST - 1),
    (1 - MOST, FINEST - 1),
    (0, 5),
    (MOST - 1, FINEST - 1),
    (MOST, FINEST - 1),
    (MOST, FINEST - 2),
];

fn answer(operation: Operation, a: &Frac, b: &Frac) -> Option<Frac> {
    match operation {
        Plus => a.plus(b),
        Minus => a.minus(b),
        Times => a.times(b),
        Over => a.over(b),
    }
}

fn text_of(alloc: Global, fraction: Option<Frac>) -> Result<String, AllocError> {
    match fraction {
        Some(fraction) => format!(in alloc; "{fraction}"),
        None => String::from_str(alloc, "none"),
    }
}

/// The fraction of a fraction's own numerator and denominator.
fn again(fraction: Option<Frac>) -> Option<Frac> {
    let fraction = fraction?;
    Frac::new(fraction.num(), fraction.den())
}

fn assert_fraction(rt: &(impl Abort + AllocGlobal), found: Option<Frac>, wanted: &str) {
    let text = text_of(rt.alloc(), found).expect(rt, "memory for a text");
    assert_same(rt, "a fraction", &text.as_str(), &wanted);
    assert_same(rt, wanted, &again(found), &found);
}

fn fraction((num, den): (i128, u64)) -> Result<Frac, Fail> {
    Ok(Frac::new(num, den).ok_or("a fraction")?)
}

#[test]
fn fractions_are_in_lowest_terms_within_the_limits(rt: HostRuntime) {
    for (num, den, wanted) in &FRACTIONS {
        assert_fraction(&rt, Frac::new(*num, *den), wanted);
    }
    assert_fraction(&rt, Some(Frac::whole(-7)), "-7");
    assert!(rt; Frac::whole(7).is_positive() && !Frac::whole(0).is_positive());
}

#[test]
fn wide_denominators_are_reduced_first(rt: HostRuntime) {
    for (num, den, wanted) in &WIDE_FRACTIONS {
        assert_fraction(&rt, Frac::from_parts(*num, *den), wanted);
    }
}

#[test]
fn operations_are_exact_or_tell(rt: HostRuntime) -> Result<(), Fail> {
    for (operation, a, b, wanted) in &OPERATIONS {
        let found = answer(*operation, &fraction(*a)?, &fraction(*b)?);
        assert_fraction(&rt, found, wanted);
    }
    Ok(())
}

/// Compares a fraction with each of the rising ones, among which it has this index.
fn compare_with_each(rt: &(impl Abort + AllocGlobal), index: usize, a: &Frac) -> Result<(), Fail> {
    for (other, b) in RISING.iter().enumerate() {
        let b = fraction(*b)?;
        let found = (a.compare(&b), a.is_below(&b), *a < b, *a == b);
        let below = index < other;
        let wanted = (index.cmp(&other), below, below, index == other);
        assert_same(rt, "two fractions", &found, &wanted);
    }
    Ok(())
}

#[test]
fn fractions_near_the_limits_are_ordered_and_hashed(rt: HostRuntime) -> Result<(), Fail> {
    let mut seen = HashSet::new(rt.alloc());
    for (index, a) in RISING.iter().enumerate() {
        let a = fraction(*a)?;
        compare_with_each(&rt, index, &a)?;
        assert_same(&rt, "a new fraction", &seen.insert(a)?, &true);
    }
    assert_same(&rt, "the fractions seen", &seen.len(), &7);
    Ok(())
}
