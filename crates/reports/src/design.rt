//! The text of a design.
ghost use Rattle.std.specs.Prelude.{◌≡◌, IfOk, string_bytes};
ghost use Rattle.stream_case.specs.Case.{IsComplete};
ghost use Rattle.networks.specs.Shape.{HasShape};
ghost use Rattle.reports.specs.Design.{balance_comment, design_text};

use network_audit::Balance;
use network_text::{Network, print_network};
use std::alloc::{AllocError, Global};
use stream_case::Case;

/// A network as its text, below a comment line of what it needs and costs.
pub fn design_text(
    alloc: Global,
    case: &Case,
    network: &Network,
    balance: &Balance,
) -> Result<Vec<u8>, AllocError>
    requires complete { IsComplete case.now }
    requires shape { HasShape case.now network.now }
    ensures { IfOk result (λ text. text.items ≡ design_text case.now network.now balance.now) }
{
    let mut text = balance_comment(alloc, balance)?.into_bytes();
    let network = print_network(alloc, case, network)?;
    text.extend_from_slice(network.as_slice())?;
    Ok(text)
}

/// A line that a reader of networks passes over.
fn balance_comment(alloc: Global, balance: &Balance) -> Result<String, AllocError>
    ensures { IfOk result (λ text. string_bytes text ≡ balance_comment balance.now) }
{
    let Balance {
        hot,
        cold,
        excess,
        cost,
    } = *balance;
    format!(in alloc; "# hot {hot} cold {cold} excess {excess} cost {cost}\n")
}
