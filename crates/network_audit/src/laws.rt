//! Laws of findings and verdicts.

ghost use Rattle.std.specs.Prelude.{◌≡◌, length, All};
ghost use Rattle.stream_case.specs.declared.case.Case.{Case};
ghost use Rattle.networks.specs.Shape.{HasShape};
ghost use Rattle.networks.specs.declared.network.Network.{Network};
ghost use Rattle.network_values.specs.Values.{IsWholeValuation, Valuation};
ghost use Rattle.network_audit.specs.AllItems.{items};
ghost use Rattle.network_audit.specs.Items.{IsFormed};
ghost use Rattle.network_audit.specs.Findings.{HasNoFinding, IsFinding, IsVerdict};
ghost use Rattle.network_audit.specs.Valid.{IsValidNetwork};
ghost use Rattle.network_audit.specs.declared.findings.Finding.{Finding};
ghost use Rattle.network_audit.specs.declared.findings.Finding.TheVariants as finding;
ghost use Rattle.network_audit.specs.declared.findings.Place.{Place};
ghost use Rattle.network_audit.specs.declared.findings.Reason.{Reason};
ghost use Rattle.network_audit.specs.declared.verdict.Verdict.{Verdict};

/// A network that has the shape of one has at most one finding, and at most one verdict; one with a
/// finding is not one without.
pub fn networks_have_one_verdict()
    ensures one { (case : Case) (network : Network) (found other : Finding)
        → HasShape case network
        → IsFinding case network found → IsFinding case network other → found ≡ other }
    ensures apart { (case : Case) (network : Network) (found : Finding) → HasShape case network
        → IsFinding case network found → HasNoFinding case network → ⊥ }
    ensures verdict { (case : Case) (network : Network) (given other : Verdict)
        → HasShape case network → IsVerdict case network given → IsVerdict case network other
        → given ≡ other }
{}

/// A network without a finding is valid, and one that fails a test is not. A valid one has no
/// finding where each number that is formed on the way is within the limits of a fraction.
pub fn findings_tell_what_is_valid()
    ensures valid { (case : Case) (network : Network) → HasShape case network
        → HasNoFinding case network → IsValidNetwork case network }
    ensures invalid { (case : Case) (network : Network) (place : Place) (reason : Reason)
        → HasShape case network → IsFinding case network (finding.Failed place reason)
        → IsValidNetwork case network → ⊥ }
    ensures formed { (case : Case) (network : Network) (values : Valuation)
        → HasShape case network
        → IsWholeValuation case network values → IsValidNetwork case network
        → All IsFormed (items case network values (length network.lines))
        → HasNoFinding case network }
{}
