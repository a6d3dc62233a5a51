//! Reading the text of a report.

ghost use Rattle.std.specs.Prelude.{◌≤◌, length, IfOk};
ghost use Rattle.statements.specs.Statements.{statements_of};
ghost use Rattle.certify.specs.Answers.{HasPartPrices};
ghost use Rattle.certify.specs.Outcome.{IsOutcome};

use crate::entry::entry_of;
use crate::fault::{ReportFault, ReportWhy};
use crate::given::Given;
use crate::report::Report;
use statements::{Statement, first_line};
use std::alloc::Global;

/// Reads the text of a report: the report of the grammar, or the first statement at fault with its
/// cause. Each price is within the limits of a certificate.
pub fn read_report(alloc: Global, bytes: &[u8]) -> Result<Report, ReportFault>
    requires { length bytes.now ≤ 2000000000 }
    ensures outcome { IsOutcome (statements_of bytes.now) result }
    ensures prices { IfOk result HasPartPrices }
{
    let mut given = Given::Nothing;
    let mut rest = bytes;
    let mut number: u32 = 0;
    while !rest.is_empty() {
        let (line, after) = first_line(rest);
        rest = after;
        let statement = Statement::of_line(alloc, line)?;
        if statement.is_passed_over() {
            continue;
        }
        number += 1;
        match entry_of(&given, &statement) {
            Ok(entry) => given = given.with(alloc, entry)?,
            Err(why) => return Err(ReportFault::At { line: number, why }),
        }
    }
    match given {
        Given::Whole(report) => Ok(report),
        _ => Err(ReportFault::At {
            line: number + 1,
            why: ReportWhy::Ended,
        }),
    }
}
