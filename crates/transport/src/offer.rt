//! The offer of a cut of the parts of a case, without a table of their pairs.
ghost use Rattle.std.specs.Prelude.{◌≡◌, ⊤, IfOk};
ghost use Rattle.heat_flow.specs.Cuts.{opposite, parts_of, cut_side, offer_of};
ghost use Rattle.heat_flow.specs.Reach.{reach_between};
ghost use Rattle.transport.specs.Offer.{names, ForbidAlike, reach_unless};

use crate::cut::Members;
use grid::Parts;
use heat_flow::{Reaches, opposite, part_offer, parts_of, passes_heat};
use std::alloc::{AllocError, Global};
use stream_case::{Case, Forbid, Side, Source};

/// Parts, and matches of their sources that are forbidden.
#[derive(Clone, Copy)]
struct PartPairs<'a> {
    parts: &'a Parts,
    forbids: &'a [Forbid],
}

impl Reaches for PartPairs<'_> {
    ghost is_sound = { λ _. ⊤ };

    ghost reach = { λ p. reach_unless p.forbids.now p.parts.now.hot p.parts.now.cold };

    fn reaches(&self, hot: u32, cold: u32) -> bool {
        let Some(hot) = self.parts.hot.get(hot as usize) else {
            return false;
        };
        let Some(cold) = self.parts.cold.get(cold as usize) else {
            return false;
        };
        let pair = Forbid {
            hot: hot.source,
            cold: cold.source,
        };
        passes_heat(hot, cold) && !self.forbids.contains(&pair)
    }
}

/// Whether a forbidden match is one of this source, which is of this side.
fn names(forbid: &Forbid, side: Side, source: Source) -> bool
    ensures { result ≡ names side source forbid.now }
{
    match side {
        Side::Hot => forbid.hot == source,
        Side::Cold => forbid.cold == source,
    }
}

/// The forbidden matches of a source of this side. They are picked once for each part, so that
/// those of the whole case are not gone through for each pair of parts.
fn forbids_of(
    alloc: Global,
    case: &Case,
    side: Side,
    source: Source,
) -> Result<Vec<Forbid>, AllocError>
    ensures { IfOk result (λ forbids. ForbidAlike side source forbids.items case.now.forbids) }
{
    let mut forbids = Vec::new(alloc);
    for forbid in case.forbids.as_slice() {
        if names(forbid, side, source) {
            forbids.push(*forbid)?;
        }
    }
    Ok(forbids)
}

/// The offer of a cut of the parts of a case that names these: the most that all parts of the other
/// side can take or give that reach one of them, or that one of them reaches, in W.
pub(crate) fn case_offer(
    alloc: Global,
    case: &Case,
    parts: &Parts,
    members: &Members,
) -> Result<i128, AllocError>
    ensures { IfOk result (λ offer. offer
        ≡ offer_of (cut_side members.now.kind)
        (reach_between case.now parts.now.hot parts.now.cold)
        (parts_of (opposite (cut_side members.now.kind)) parts.now.hot parts.now.cold)
        members.now.indexes) }
{
    let side = members.kind.side();
    let other_side = opposite(side);
    let indexes = members.indexes.as_slice();
    let others = parts_of(other_side, parts);
    let mut offer = 0i128;
    for (index, part) in others.iter().enumerate() {
        let picked = forbids_of(alloc, case, other_side, part.source)?;
        let forbids = picked.as_slice();
        let pairs = PartPairs { parts, forbids };
        offer += i128::from(part_offer(side, &pairs, indexes, index as u32, part));
    }
    Ok(offer)
}
