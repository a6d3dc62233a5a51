//! Laws of the grammar of study files.

ghost use Rattle.std.specs.Prelude.{List};
ghost use Rattle.rows.specs.Rows.{Row};
ghost use Rattle.stream_case.specs.declared.case.Case.{Case};
ghost use Rattle.study_text.specs.Outcome.{HasOutcome, OneOutcome};

/// Rows have an outcome for a case, and only one. So a fault that the grammar names is what
/// `read_study` answers, and a study that the grammar gives is what it answers, but for want of
/// memory.
pub fn study_rows_have_one_outcome()
    ensures some { (c : Case) (rows : List Row) → HasOutcome c rows }
    ensures one { (c : Case) (rows : List Row) → OneOutcome c rows }
{}
