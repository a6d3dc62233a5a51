//! Two lists of amounts, paired.
ghost use Rattle.std.specs.Prelude.{◌≡◌, ◌<◌, ◌^◌, ◌++◌, [], pos, ◌+ℤ◌, ◌-ℤ◌, ◌<ℤ◌, length, slice_index_or, IfOk, OnErr, OnOk};
ghost use Rattle.sums.specs.Pairing.{IsWithin, cons_positive, progress_after};
ghost use Rattle.sums.specs.Spans.{NotNegative, ListsOverlaps};

use std::alloc::{AllocError, Global};

/// An index in each of two lists of amounts, and an amount that goes from the one to the other.
#[derive(Clone, Copy, Debug, PartialEq, Eq)]
pub struct Pair {
    pub first: u32,
    pub second: u32,
    pub amount: i64,
}

/// How far a list of amounts is given away: all before an index, and of the amount there a part.
#[derive(Clone, Copy)]
struct Progress {
    index: usize,
    given: i64,
}

impl Progress {
    /// What the amount at the index still has.
    fn left(self, amounts: &[i64]) -> i64
        requires index { self.index < length amounts.now }
        requires given { IsWithin amounts.now self }
        ensures { result ≡ slice_index_or amounts.now self.index (pos 0) -ℤ self.given }
    {
        amounts[self.index] - self.given
    }

    /// The progress once the amount at the index has given so much more.
    fn after(self, amounts: &[i64], more: i64) -> Progress
        requires index { self.index < length amounts.now }
        requires more { IsWithin amounts.now (record self { given = self.given +ℤ more }) }
        ensures { result ≡ progress_after amounts.now self more }
    {
        let amount = amounts[self.index];
        let given = self.given + more;
        if given == amount {
            Progress {
                index: self.index + 1,
                given: 0,
            }
        } else {
            Progress { given, ..self }
        }
    }
}

/// Appends a pair, if its amount is positive; else it takes no memory.
fn push_positive(
    pairs: &mut Vec<Pair>,
    first: u32,
    second: u32,
    amount: i64,
) -> Result<(), AllocError>
    ensures pairs { OnOk result (pairs.new.items
        ≡ pairs.old.items ++ cons_positive first second amount []) }
    ensures memory { OnErr result (pos 0 <ℤ amount) }
{
    if amount > 0 {
        pairs.push(Pair {
            first,
            second,
            amount,
        })?;
    }
    Ok(())
}

/// Lays the amounts of each list end to end, and pairs each two amounts whose spans overlap,
/// with the length that they share. The pairs rise by the first index, then by the second.
pub fn pair_amounts(alloc: Global, firsts: &[i64], seconds: &[i64]) -> Result<Vec<Pair>, AllocError>
    requires few_firsts { length firsts.now < 2 ^ 32 }
    requires few_seconds { length seconds.now < 2 ^ 32 }
    requires firsts { NotNegative firsts.now }
    requires seconds { NotNegative seconds.now }
    ensures { IfOk result (λ pairs. ListsOverlaps firsts.now seconds.now pairs.items) }
{
    let mut pairs = Vec::new(alloc);
    let mut first = Progress { index: 0, given: 0 };
    let mut second = Progress { index: 0, given: 0 };
    while first.index < firsts.len() && second.index < seconds.len() {
        let amount = first.left(firsts).min(second.left(seconds));
        push_positive(&mut pairs, first.index as u32, second.index as u32, amount)?;
        first = first.after(firsts, amount);
        second = second.after(seconds, amount);
    }
    Ok(pairs)
}
