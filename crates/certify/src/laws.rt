//! Laws of reports.

ghost use Rattle.certify.specs.Printed.{PrintedReportsAreReadAgain};
ghost use Rattle.certify.specs.Said.{CertifiedFlowsAreReadable, CertifiedFlowsPass, CutsAreReadable, CutsPass};

/// A report whose names are undotted and whose numbers are within their ranges is read from its
/// text as itself.
pub fn printed_reports_are_read_again()
    ensures { PrintedReportsAreReadAgain }
{}

/// The report of a heat flow of a completed case, with prices that certify it, is answered with
/// yes, and so is the report of a cut.
pub fn certified_reports_are_answered_with_yes()
    ensures flows { CertifiedFlowsPass }
    ensures cuts { CutsPass }
{}

/// These reports have undotted names, and numbers within their ranges.
pub fn certified_reports_are_within_the_ranges()
    ensures flows { CertifiedFlowsAreReadable }
    ensures cuts { CutsAreReadable }
{}
