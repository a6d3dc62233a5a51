//! Lists in order, and amounts laid end to end.
use crate::compare::assert_lists;
use std::alloc::{AllocError, Global};
use std::test::Fail;
use sums::{Pair, falling, pair_amounts, rising};

const VALUES: [i32; 6] = [200, -50, 1650, 200, -50, 0];

/// The indices of two amounts that overlap, and the length that they share.
const PAIRS: [(u32, u32, i64); 3] = [(0, 0, 20), (2, 0, 30), (2, 1, 30)];

fn rows_of(alloc: Global, pairs: &[Pair]) -> Result<Vec<(u32, u32, i64)>, AllocError> {
    let mut rows = Vec::new(alloc);
    for pair in pairs {
        rows.push((pair.first, pair.second, pair.amount))?;
    }
    Ok(rows)
}

#[test]
fn values_stand_in_order_each_once(rt: HostRuntime) -> Result<(), Fail> {
    let up = rising(VALUES.to_vec(rt.alloc())?);
    assert_lists(&rt, "rising", &up, &[-50, 0, 200, 1650]);
    let down = falling(VALUES.to_vec(rt.alloc())?);
    assert_lists(&rt, "falling", &down, &[1650, 200, 0, -50]);
    Ok(())
}

#[test]
fn amounts_are_paired_where_they_overlap(rt: HostRuntime) -> Result<(), Fail> {
    let pairs = pair_amounts(rt.alloc(), &[20, 0, 60], &[50, 30])?;
    let rows = rows_of(rt.alloc(), &pairs)?;
    assert_lists(&rt, "pairs", &rows, &PAIRS);
    Ok(())
}
