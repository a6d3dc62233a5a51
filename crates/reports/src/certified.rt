//! The texts of a report that was checked.
ghost use Rattle.std.specs.Prelude.{◌≡◌, IfOk};
ghost use Rattle.reports.specs.Certified.{certified_text, no_why_name, not_certified_text};

use crate::line::line;
use certify::NoWhy;
use std::alloc::{AllocError, Global};

/// A line that a report proves this cost least, or that it proves that there is no heat flow.
pub fn certified_text(alloc: Global, cost: Option<i128>) -> Result<Vec<u8>, AllocError>
    ensures { IfOk result (λ text. text.items ≡ certified_text cost) }
{
    match cost {
        Some(cost) => Ok(line(alloc, "yes cost", cost)?.into_bytes()),
        None => Ok(String::from_str(alloc, "yes infeasible\n")?.into_bytes()),
    }
}

/// A line that names the first check of a report that fails.
pub fn not_certified_text(alloc: Global, why: NoWhy) -> Result<Vec<u8>, AllocError>
    ensures { IfOk result (λ text. text.items ≡ not_certified_text why) }
{
    Ok(format!(in alloc; "no {}\n", no_why_name(why))?.into_bytes())
}

fn no_why_name(why: NoWhy) -> &'static str
    ensures { result.now ≡ no_why_name why }
{
    match why {
        NoWhy::Parts => "Parts",
        NoWhy::Moves => "Moves",
        NoWhy::Flow => "Flow",
        NoWhy::Cost => "Cost",
        NoWhy::Uses => "Uses",
        NoWhy::Support => "Support",
        NoWhy::Value => "Value",
        NoWhy::Cut => "Cut",
    }
}
