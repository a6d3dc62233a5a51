//! The auditor of a network.
ghost use Rattle.std.specs.Prelude.{◌≡◌, None, Some, IfOk, MatchResult, slice_get, option_and_then};
ghost use Rattle.stream_case.specs.Case.{IsComplete};
ghost use Rattle.fractions.specs.Rationals.{IsAtMost, rational_zero};
ghost use Rattle.networks.specs.Shape.{HasShape};
ghost use Rattle.network_values.specs.Values.{IsWholeValuation, Valuation};
ghost use Rattle.network_audit.specs.Audit.{Accepts, IfAccepted, IsReady};
ghost use Rattle.network_audit.specs.Findings.{IsFinding, IsVerdict};
ghost use Rattle.network_audit.specs.Valid.{IsValidNetwork};
ghost use Rattle.network_audit.specs.declared.verdict.Verdict.{Verdict};

use crate::balance::{balance_of, hot_target};
use crate::copies::{copied_case, copied_network};
use crate::exchangers::audit_exchangers;
use crate::findings::{Finding, Place};
use crate::joints::{Joint, joints_of};
use crate::streams::audit_streams;
use crate::utilities::audit_utilities;
use crate::verdict::{Balance, Verdict};
use crate::walk::audit_statements;
use fractions::Frac;
use network_values::BranchValue;
use networks::Network;
use std::alloc::{AllocError, Global};
use std::marker::Model;
use stream_case::Case;

/// Audits one network for one case, as often as it is asked to.
#[derive(Drop)]
pub struct Auditor {
    case: Case,
    network: Network,
    joints: Vec<Joint>,
    values: Vec<BranchValue>,
    heats: Vec<Frac>,
    is_accepted: bool,
}

impl Model for Auditor {
    ghost use Rattle.std.specs.Prelude.{IsTrue, Some, None, if◌then◌else◌};
    ghost use Rattle.network_audit.specs.Audit.{Audit, IsFaultless, IsReady};

    ghost Value = { Audit };

    ghost view = { λ a. record {
      case = a.case;
      network = a.network;
      values = (if a.is_accepted then Some a.values.items else None);
    } };

    // What it keeps of an audit that accepted the network is a whole valuation without a finding.
    ghost invariant = { λ a.
        IsReady a.case a.network a.joints.items a.values.items a.heats.items
        × (IsTrue a.is_accepted → IsFaultless a.case a.network a.values.items) };
}

impl Auditor {
    ghost use Rattle.network_audit.specs.Audit.{KnowsItsNetwork, Leaves, SaysExactly};
    ghost use Rattle.network_audit.specs.Joints.{joints_of};

    /// Takes all the room that the audits need, and copies of the case and the network.
    pub fn new(alloc: Global, case: &Case, network: &Network) -> Result<Auditor, AllocError>
        requires complete { IsComplete case.now }
        requires shape { HasShape case.now network.now }
        ensures { IfOk result (λ auditor.
            auditor ≡ record { case = case.now; network = network.now; values = None }) }
    {
        let none = BranchValue {
            cp: Frac::whole(0),
            t: Frac::whole(0),
        };
        Ok(Auditor {
            joints: joints_of(alloc, network)?,
            values: vec![in alloc; none; network.branches.len()]?,
            heats: vec![in alloc; Frac::whole(0); case.utilities.len()]?,
            case: copied_case(alloc, case)?,
            network: copied_network(alloc, network)?,
            is_accepted: false,
        })
    }

    /// The verdict on the network, which takes no memory: the first finding, in the order of the
    /// statements, the streams, the exchangers, the utilities and the balance, or the balance.
    pub fn audit(&mut self) -> Verdict
        ensures verdict { IsVerdict self.old.case self.old.network result }
        ensures after { Leaves self.old result self.new }

        // The valuation that is kept is the only one.
        ensures only { IfAccepted result (λ _. (values : Valuation)
            → IsWholeValuation self.old.case self.old.network values
            → self.new.values ≡ Some values) }

        // The verdict is too fine, or it accepts exactly the valid networks.
        ensures valid { SaysExactly result (IsValidNetwork self.old.case self.old.network) }
        ensures excess { IfAccepted result (λ balance. IsAtMost rational_zero balance.excess) }
        ensures again { (other : Verdict) → IsVerdict self.old.case self.old.network other
            → other ≡ result }
    {
        self.audited()
    }

    /// Audits the network, and keeps whether it was accepted.
    fn audited(&mut self) -> Verdict
        ensures verdict { IsVerdict self.old.case self.old.network result }
        ensures after { Leaves self.old result self.new }
        ensures complete { IsComplete self.old.case }
        ensures shape { HasShape self.old.case self.old.network }
    {
        let audited = audit_network(
            &self.case,
            &self.network,
            &self.joints,
            &mut self.values,
            &mut self.heats,
        );
        self.is_accepted = audited.is_ok();
        match audited {
            Ok(balance) => Verdict::Accepted(balance),
            Err(Finding::Failed { place, reason }) => Verdict::Rejected { place, reason },
            Err(Finding::TooFine { place, step }) => Verdict::TooFine { place, step },
        }
    }

    /// The exchangers with the branches that pass them.
    pub fn joints(&self) -> &[Joint]
        ensures { result.now ≡ joints_of self.now.network }
    {
        self.joints.as_slice()
    }

    /// Tells what an auditor knows at any time: its case is complete, its network has the shape of
    /// one, and what it keeps of an audit is a whole valuation without a finding.
    pub fn knows_its_network(&self)
        ensures { KnowsItsNetwork self.now }
    {
        let _is_accepted = self.is_accepted;
    }

    /// What a branch carries, by its number: its size in 10 W/K and its state in tenths of °C, of a
    /// latent stream in W and as a part of the load. There is none where no audit was made, where the
    /// last one did not accept the network, and where there is no such branch.
    pub fn value(&self, branch: u32) -> Option<BranchValue>
        ensures { result ≡ option_and_then (λ values. slice_get values branch) self.now.values }
    {
        if !self.is_accepted {
            return None;
        }
        self.values.get(branch as usize).copied()
    }
}

/// The balance of a network, or what is found first; the room gets what the branches carry, and
/// the heats of the utilities.
fn audit_network(
    case: &Case,
    network: &Network,
    joints: &[Joint],
    values: &mut [BranchValue],
    heats: &mut [Frac],
) -> Result<Balance, Finding>
    requires { IsReady case.now network.now joints.now values.old heats.old }
    ensures { MatchResult result
        (λ balance. Accepts case.now network.now values.new balance)
        (λ found. IsFinding case.now network.now found) }
{
    let utilities = case.utilities.as_slice();
    if let Err(found) = audit_statements(case, network, joints, values) {
        return Err(found);
    }
    if let Err(found) = audit_streams(case, network) {
        return Err(found);
    }
    if let Err(found) = audit_exchangers(case, joints, values) {
        return Err(found);
    }
    if let Err(found) = audit_utilities(joints, utilities, heats) {
        return Err(found);
    }
    let target = hot_target(case);
    match balance_of(&target, utilities, heats) {
        Ok(balance) => Ok(balance),
        Err(step) => Err(Finding::TooFine {
            place: Place::Balance,
            step,
        }),
    }
}
