//! Lines of a text, and the numbers in them.
ghost use Rattle.std.specs.Prelude.{◌≡◌, pos, slice_index_or, IfOk, string_bytes};
ghost use Rattle.reports.specs.Lines.{cost_line, infeasible_line, line};

use std::alloc::{AllocError, Global};

/// A line of a word and a number.
pub fn line(alloc: Global, word: &str, number: i128) -> Result<String, AllocError>
    ensures { IfOk result (λ text. string_bytes text ≡ line word.now number) }
{
    format!(in alloc; "{word} {number}\n")
}

/// A line of a word, and that there is no heat flow.
pub fn infeasible_line(alloc: Global, word: &str) -> Result<String, AllocError>
    ensures { IfOk result (λ text. string_bytes text ≡ infeasible_line word.now) }
{
    format!(in alloc; "{word} infeasible\n")
}

/// A line of a word and the least cost, or that there is no heat flow.
pub fn cost_line(alloc: Global, word: &str, cost: Option<i128>) -> Result<String, AllocError>
    ensures { IfOk result (λ text. string_bytes text ≡ cost_line word.now cost) }
{
    match cost {
        Some(cost) => line(alloc, word, cost),
        None => infeasible_line(alloc, word),
    }
}

/// The number at an index of a list, and 0 past its end.
pub fn number_at(numbers: &[i64], index: usize) -> i64
    ensures { result ≡ slice_index_or numbers.now index (pos 0) }
{
    match numbers.get(index) {
        Some(number) => *number,
        None => 0,
    }
}
