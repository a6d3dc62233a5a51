//! The text of the targets and the pinches.
ghost use Rattle.std.specs.Prelude.{◌≡◌, IfOk, string_bytes};
ghost use Rattle.reports.specs.Targets.{pinch_lines, targets_text};

use crate::line::line;
use problem_table::Target;
use std::alloc::{AllocError, Global};

/// The hot and the cold target, then a line for each pinch, or one that there is none.
pub fn targets_text(alloc: Global, targets: &Target, pinches: &[i32]) -> Result<Vec<u8>, AllocError>
    ensures { IfOk result (λ text. text.items ≡ targets_text targets.now pinches.now) }
{
    let mut text = line(alloc, "hot", i128::from(targets.hot))?;
    text.push_str(&line(alloc, "cold", i128::from(targets.cold))?)?;
    text.push_str(&pinch_lines(alloc, pinches)?)?;
    Ok(text.into_bytes())
}

fn pinch_lines(alloc: Global, pinches: &[i32]) -> Result<String, AllocError>
    ensures { IfOk result (λ text. string_bytes text ≡ pinch_lines pinches.now) }
{
    if pinches.is_empty() {
        return String::from_str(alloc, "pinch none\n");
    }
    let mut text = String::new(alloc);
    for pinch in pinches {
        text.push_str(&line(alloc, "pinch", i128::from(*pinch))?)?;
    }
    Ok(text)
}
