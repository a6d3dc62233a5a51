//! The audit of a network.
ghost use Rattle.std.specs.Prelude.{◌≡◌, IfOk};
ghost use Rattle.stream_case.specs.Case.{IsComplete};
ghost use Rattle.networks.specs.Shape.{HasShape};
ghost use Rattle.network_audit.specs.Audit.{HasAccepted};
ghost use Rattle.network_audit.specs.Balance.{balance_of};
ghost use Rattle.network_audit.specs.Valid.{IsValidNetwork};
ghost use Rattle.commands.specs.Audit.{IsAccepted, IsAuditOf};

use network_audit::{Auditor, Balance, Verdict};
use network_text::Network;
use penalties::penalties;
use price_floor::cost_floor;
use problem_table::reference_place;
use reports::Shown;
use std::alloc::{AllocError, Global};
use stream_case::Case;

/// The verdict on a network of a completed case; of one that is accepted the floor under its cost
/// and the penalties too. It stays accepted where they are too fine.
pub fn show_audit(alloc: Global, case: Case, network: Network) -> Result<Shown, AllocError>
    requires complete { IsComplete case }
    requires shape { HasShape case network }
    ensures { IfOk result (IsAuditOf case network) }
{
    let mut auditor = Auditor::new(alloc, &case, &network)?;
    match auditor.audit() {
        Verdict::Accepted(balance) => show_accepted(alloc, case, network, balance, &auditor),
        Verdict::Rejected { place, reason } => Ok(Shown::Rejected {
            case,
            network,
            place,
            reason,
        }),
        Verdict::TooFine { place, step } => Ok(Shown::TooFine {
            case,
            network,
            place,
            step,
        }),
    }
}

/// What is shown of a network that its auditor has accepted, with this balance.
fn show_accepted(
    alloc: Global,
    case: Case,
    network: Network,
    balance: Balance,
    auditor: &Auditor,
) -> Result<Shown, AllocError>
    requires complete { IsComplete case }
    requires shape { HasShape case network }
    requires valid { IsValidNetwork case network }
    requires accepted { HasAccepted auditor.now case network }
    requires balance { balance ≡ balance_of case network }
    ensures { IfOk result (IsAccepted case network balance) }
{
    let floor = cost_floor(alloc, &case, &network)?;
    let penalties = penalties(alloc, &case, &network, auditor)?;
    Ok(Shown::Accepted {
        place: reference_place(&case),
        case,
        network,
        balance,
        floor,
        penalties,
    })
}
