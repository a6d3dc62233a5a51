//! The texts of what is shown: lines that end with `\n`, with single spaces between fields.
ghost use Rattle.std.specs.Prelude.{◌≡◌, IfOk};
ghost use Rattle.reports.specs.Text.{text, IsPrintable};

use crate::audit::{accepted_text, rejected_text, too_fine_text};
use crate::certified::{certified_text, not_certified_text};
use crate::cut::stuck_text;
use crate::design::design_text;
use crate::flow::flow_text;
use crate::names::case_names;
use crate::points::curves_text;
use crate::prices::prices_text;
use crate::refusal::{
    LATENT, NOT_STANDARD, WORDS, bad_case_text, bad_network_text, bad_report_text, bad_site_text,
    bad_study_text, file_text, fixed_text,
};
use crate::sample::sample_text;
use crate::shown::Shown;
use crate::sweep::sweep_text;
use crate::targets::targets_text;
use crate::total_site::total_site_text;
use std::alloc::{AllocError, Global};

/// The exact text of what is shown: a call for each variant. A network that is shown as a design
/// has the shape that the grammar of networks asks for.
#[tactic(auto, unfolding(crate::specs::Text::IsPrintable, crate::specs::Text::text))]
pub fn text_of(alloc: Global, shown: &Shown) -> Result<Vec<u8>, AllocError>
    requires { IsPrintable shown.now }
    ensures { IfOk result (λ printed. printed.items ≡ text shown.now) }
{
    match shown {
        Shown::Targets { targets, pinches } => targets_text(alloc, targets, pinches.as_slice()),
        Shown::Flow {
            case,
            parts,
            flow,
            prices,
            cost,
        } => flow_text(alloc, case, parts, flow.transfers.as_slice(), prices, *cost),
        Shown::Stuck { case, parts, cut } => {
            Ok(stuck_text(alloc, &case_names(alloc, case)?, parts, cut)?.into_bytes())
        }
        Shown::Curves { hot, cold, net } => {
            curves_text(alloc, hot.as_slice(), cold.as_slice(), net.as_slice())
        }
        Shown::Design {
            case,
            network,
            balance,
        } => design_text(alloc, case, network, balance),
        Shown::Accepted {
            case,
            network,
            balance,
            place,
            floor,
            penalties,
        } => accepted_text(alloc, case, network, balance, *place, *floor, penalties),
        Shown::Rejected {
            case,
            network,
            place,
            reason,
        } => rejected_text(alloc, case, network, *place, *reason),
        Shown::TooFine {
            case,
            network,
            place,
            step,
        } => Ok(too_fine_text(alloc, case, network, *place, *step)?.into_bytes()),
        Shown::SiteShown {
            site,
            parts,
            sinks,
            sources,
            answer,
        } => total_site_text(alloc, site, parts, sinks, sources, answer),
        Shown::Sweep { rows } => sweep_text(alloc, rows.as_slice()),
        Shown::Sample { hot, cold, cost } => sample_text(alloc, *hot, *cold, *cost),
        Shown::Certified { cost } => certified_text(alloc, *cost),
        Shown::NotCertified { why } => not_certified_text(alloc, *why),
        Shown::Prices {
            case,
            study,
            answers,
        } => prices_text(alloc, case, study, answers.as_slice()),
        Shown::BadWords => fixed_text(alloc, WORDS),
        Shown::BadCase { row, why } => bad_case_text(alloc, *row, *why),
        Shown::NotStandard => fixed_text(alloc, NOT_STANDARD),
        Shown::Latent => fixed_text(alloc, LATENT),
        Shown::BadSite { row, why } => bad_site_text(alloc, *row, *why),
        Shown::BadNetwork { line, why } => bad_network_text(alloc, *line, *why),
        Shown::BadReport { line, why } => bad_report_text(alloc, *line, *why),
        Shown::BadStudy { row, why } => bad_study_text(alloc, *row, *why),
        Shown::TooLong { file } => file_text(alloc, "too long", *file),
        Shown::ReadFault { file } => file_text(alloc, "read fault", *file),
    }
}
