//! What `certify` shows.
ghost use Rattle.std.specs.Prelude.{◌≡◌, IfOk};
ghost use Rattle.stream_case.specs.Case.{IsComplete};
ghost use Rattle.certify.specs.Answers.{HasPartPrices};
ghost use Rattle.commands.specs.Certify.{IsCheckOf, cost_in, shown_check};

use certify::{Checked, Report, check_report};
use reports::Shown;
use std::alloc::{AllocError, Global};
use stream_case::Case;

/// Whether a report proves what it says of a completed case, by the definitions alone.
pub fn show_certify(alloc: Global, case: &Case, report: &Report) -> Result<Shown, AllocError>
    requires complete { IsComplete case.now }
    requires prices { HasPartPrices report.now }
    ensures { IfOk result (IsCheckOf case.now report.now) }
{
    let checked = check_report(alloc, case, report)?;
    Ok(shown_check(report, checked))
}

/// How the answer to a report is shown.
fn shown_check(report: &Report, checked: Checked) -> Shown
    ensures { result ≡ shown_check report.now checked }
{
    match checked {
        Checked::Yes => Shown::Certified {
            cost: cost_in(report),
        },
        Checked::No { why } => Shown::NotCertified { why },
    }
}

/// The cost that a report of a heat flow gives, which is in W times price; a report of a cut gives
/// none.
fn cost_in(report: &Report) -> Option<i128>
    ensures { result ≡ cost_in report.now }
{
    match report {
        Report::Flow { cost, .. } => Some(*cost),
        Report::Cut { .. } => None,
    }
}
