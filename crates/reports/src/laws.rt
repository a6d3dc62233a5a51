//! Laws of what is printed.

ghost use Rattle.reports.specs.Proofs.{PrintedProofsPass};

/// What is printed of a heat flow of a completed case, with prices that certify it, or of a cut, is
/// a report that is answered with yes.
pub fn printed_proofs_are_answered_with_yes()
    ensures { PrintedProofsPass }
{}
