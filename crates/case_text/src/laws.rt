//! Laws of the grammar.

ghost use Rattle.std.specs.Prelude.{◌≡◌, ◌⊎◌, ℕ, List};
ghost use Rattle.rows.specs.Rows.{Row, rows_of};
ghost use Rattle.stream_case.specs.Case.{IsValid};
ghost use Rattle.stream_case.specs.declared.case.Case.{Case};
ghost use Rattle.case_text.specs.Outcome.{IsCase, IsFault};
ghost use Rattle.rows.specs.Text.{rows_text};
ghost use Rattle.case_text.specs.Printed.{printed_rows};

use crate::fault::CaseWhy;

/// Rows have an outcome, and only one. So a fault that the grammar names is what `read_case` answers, and a
/// case that the grammar gives is what it answers, but for want of memory.
pub fn rows_have_one_outcome()
    ensures some { (rows : List Row) → ((row : ℕ) × (why : CaseWhy) × IsFault rows row why)
        ⊎ ((case : Case) × IsCase rows case) }
    ensures fault { (rows : List Row) (row other : ℕ) (why because : CaseWhy)
        → IsFault rows row why
        → IsFault rows other because → (row ≡ other) × (why ≡ because) }
    ensures apart { (rows : List Row) (row : ℕ) (why : CaseWhy) (case : Case)
        → IsFault rows row why → IsCase rows case → ⊥ }
    ensures case { (rows : List Row) (case other : Case) → IsCase rows case → IsCase rows other
        → case ≡ other }
{}

/// The cases that the grammar gives are exactly the valid ones: what it gives is valid, and it gives
/// each valid case for the rows that are printed of it.
pub fn valid_cases_are_those_of_the_grammar()
    ensures valid { (rows : List Row) (case : Case) → IsCase rows case → IsValid case }
    ensures given { (case : Case) → IsValid case
        → IsCase (rows_of (rows_text (printed_rows case))) case }
{}
