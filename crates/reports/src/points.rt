//! The text of the three curves.
ghost use Rattle.std.specs.Prelude.{◌≡◌, IfOk, string_bytes};
ghost use Rattle.reports.specs.Curves.{point_line, curve_text, curves_text};

use crate::line::line;
use curves::Point;
use std::alloc::{AllocError, Global};

/// The hot and the cold composite curve, then the grand composite curve, a line for each point.
pub fn curves_text(
    alloc: Global,
    hot: &[Point],
    cold: &[Point],
    net: &[Point],
) -> Result<Vec<u8>, AllocError>
    ensures { IfOk result (λ text. text.items ≡ curves_text hot.now cold.now net.now) }
{
    let mut text = curve_text(alloc, "hot", hot)?;
    text.push_str(&curve_text(alloc, "cold", cold)?)?;
    text.push_str(&curve_text(alloc, "net", net)?)?;
    Ok(text.into_bytes())
}

fn curve_text(alloc: Global, word: &str, curve: &[Point]) -> Result<String, AllocError>
    ensures { IfOk result (λ text. string_bytes text ≡ curve_text word.now curve.now) }
{
    let mut text = String::new(alloc);
    for point in curve {
        text.push_str(&point_line(alloc, word, point)?)?;
    }
    Ok(text)
}

fn point_line(alloc: Global, word: &str, point: &Point) -> Result<String, AllocError>
    ensures { IfOk result (λ text. string_bytes text ≡ point_line word.now point.now) }
{
    let word = format!(in alloc; "{word} {}", point.heat)?;
    line(alloc, &word, i128::from(point.temperature))
}
