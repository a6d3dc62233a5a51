//! The names of exchangers and branches.

ghost use Rattle.std.specs.Prelude.{◌≡◌, IfOk};
ghost use Rattle.design_lines.specs.Names.{branch_name, exchanger_name};

use std::alloc::{AllocError, Global};
use stream_case::Name;

/// The name of the exchanger with a number, from 0: `E1`, `E2` and so on.
pub fn exchanger_name(alloc: Global, number: u32) -> Result<Name, AllocError>
    ensures { IfOk result (λ name. name ≡ exchanger_name number) }
{
    let text = format!(in alloc; "E{}", u64::from(number) + 1)?;
    let Some(name) = Name::new(text.as_str().as_bytes()) else {
        unreachable!()
    };
    Ok(name)
}

/// The name of the branch with a number, from 0, among those that a design makes: `.1`, `.2` and
/// so on.
pub(crate) fn branch_name(alloc: Global, number: u32) -> Result<Name, AllocError>
    ensures { IfOk result (λ name. name ≡ branch_name number) }
{
    let text = format!(in alloc; ".{}", u64::from(number) + 1)?;
    let Some(name) = Name::new(text.as_str().as_bytes()) else {
        unreachable!()
    };
    Ok(name)
}
