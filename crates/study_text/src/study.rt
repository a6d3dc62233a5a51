//! Price studies, and the prices of a case that they start from.

ghost use Rattle.std.specs.Prelude.{◌≡◌, IfOk};
ghost use Rattle.study_text.specs.Study.{case_prices};

use std::alloc::{AllocError, Global};
use stream_case::{Case, Items, Name};

/// Questions about the prices of the utilities of a completed case.
#[derive(Debug, PartialEq, Eq, Drop)]
pub struct Study {
    pub items: Items<StudyItem>,
}

/// A question about prices; each price is of one W.
#[derive(Debug, PartialEq, Eq, Drop)]
pub enum StudyItem {
    /// What the case costs at these prices, one for each utility in case order.
    Scenario { name: Name, prices: Items<i64> },
    /// What the case costs at each whole price of a utility, by its index, from `from` to `to`;
    /// the other utilities keep their prices.
    Span { utility: u32, from: i64, to: i64 },
}

/// The prices of the utilities of the case, of one W each, in case order.
pub fn case_prices(alloc: Global, case: &Case) -> Result<Vec<i64>, AllocError>
    ensures { IfOk result (λ prices. prices.items ≡ case_prices case.now) }
{
    case.utilities
        .as_slice()
        .iter()
        .map(|utility| utility.price)
        .collect(alloc)
}
