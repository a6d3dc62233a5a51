//! All penalties of a network.
ghost use Rattle.std.specs.Prelude.{IfOk, ◌≡◌, All};
ghost use Rattle.network_audit.specs.Audit.{HasAccepted};
ghost use Rattle.network_audit.specs.Balance.{excess_of};
ghost use Rattle.penalties.specs.Answers.{IfListed, IsNotNegative, ListsPenalties, sum_of};

use crate::heights::Survey;
use crate::list::{PenaltyList, TooFine};
use network_audit::Auditor;
use networks::Network;
use problem_table::reference_of;
use std::alloc::{AllocError, Global};
use stream_case::{Case, Items};

/// The penalties in W of a network that the last audit accepted. They add up to its excess, and
/// none is negative.
pub fn penalties(
    alloc: Global,
    case: &Case,
    network: &Network,
    auditor: &Auditor,
) -> Result<PenaltyList, AllocError>
    requires accepted { HasAccepted auditor.now case.now network.now }
    ensures lists { IfOk result (ListsPenalties case.now network.now) }
    ensures not_negative { IfOk result (λ list. IfListed list (All IsNotNegative)) }
    ensures sum { IfOk result (λ list.
        IfListed list (λ listed. sum_of listed ≡ excess_of case.now network.now)) }
{
    auditor.knows_its_network();
    let joints = auditor.joints();
    let survey = Survey {
        case,
        network,
        auditor,
        reference: reference_of(case),
    };
    let mut list = Vec::new(alloc);
    if let Some(TooFine { place, step }) = survey.add_exchangers(joints, &mut list)? {
        return Ok(PenaltyList::TooFine { place, step });
    }
    if let Some(TooFine { place, step }) = survey.add_mixes(network.lines.as_slice(), &mut list)? {
        return Ok(PenaltyList::TooFine { place, step });
    }
    Ok(PenaltyList::Listed(Items::from_vec(list)))
}
