//! Whether parts are a cut.
ghost use Rattle.std.specs.Prelude.{◌≡◌, ◌↔◌, ◌<◌, ◌≤◌, pos, ◌<ℤ◌, if◌then◌else◌, IsTrue, length, All, AllPairs};
ghost use Rattle.stream_case.specs.declared.limits.TheConstants.{MOST_PARTS};
ghost use Rattle.stream_case.specs.Limits.{IsHeat};
ghost use Rattle.grid.specs.Bounds.{IsBounded};
ghost use Rattle.heat_flow.specs.Certificate.{IsCutOf};
ghost use Rattle.heat_flow.specs.Checks.{IsCutOver};
ghost use Rattle.heat_flow.specs.Cuts.{opposite, parts_of, joins, meets, least_at, need_of, offer_of, HasNoFlow};
ghost use Rattle.heat_flow.specs.Table.{reaches};

use crate::cut::Cut;
use crate::reach::{Reach, Reaches};
use crate::table::has_sizes;
use grid::{Part, Parts};
use stream_case::Side;

/// The other side.
pub fn opposite(side: Side) -> Side
    ensures { result ≡ opposite side }
{
    match side {
        Side::Hot => Side::Cold,
        Side::Cold => Side::Hot,
    }
}

/// The parts of a side.
pub fn parts_of(side: Side, parts: &Parts) -> &[Part]
    ensures { result.now ≡ parts_of side parts.now.hot parts.now.cold }
{
    match side {
        Side::Hot => parts.hot.as_slice(),
        Side::Cold => parts.cold.as_slice(),
    }
}

/// The least of the part at an index, and 0 for none.
fn least_at(parts: &[Part], index: u32) -> i64
    requires { All IsBounded parts.now }
    ensures value { result ≡ least_at parts.now index }
    ensures range { IsHeat result }
{
    parts.get(index as usize).map_or(0, |part| part.least)
}

/// Whether each of these is the index of a part that has to have some heat.
fn are_needing(parts: &[Part], members: &[u32]) -> bool
    requires { All IsBounded parts.now }
    ensures { IsTrue result ↔ All (λ i. pos 0 <ℤ least_at parts.now i) members.now }
{
    members.iter().all(|member| least_at(parts, *member) > 0)
}

/// Whether indexes rise strictly.
fn are_rising(members: &[u32]) -> bool
    ensures { IsTrue result ↔ AllPairs (λ i j. i < j) members.now }
{
    for i in 1..members.len() {
        if members[i - 1] >= members[i] {
            return false;
        }
    }
    true
}

/// The need of a cut: what parts of a side have to give or take, in W.
pub fn need_of(parts: &[Part], members: &[u32]) -> i128
    requires { All IsBounded parts.now }
    ensures { result ≡ need_of parts.now members.now }
{
    let mut need = 0i128;
    for member in members {
        need += i128::from(least_at(parts, *member));
    }
    need
}

/// Whether a part of this side and one of the other side reach.
fn joins<R: Reaches>(side: Side, reach: &R, member: u32, other: u32) -> bool
    requires { R.is_sound reach.now }
    ensures { result ≡ joins side (R.reach reach.now) member other }
{
    match side {
        Side::Hot => reach.reaches(member, other),
        Side::Cold => reach.reaches(other, member),
    }
}

/// Whether a part of the other side reaches one of the members, or one of them reaches it.
fn meets<R: Reaches>(side: Side, reach: &R, members: &[u32], other: u32) -> bool
    requires { R.is_sound reach.now }
    ensures { result ≡ meets side (R.reach reach.now) members.now other }
{
    members
        .iter()
        .any(|member| joins(side, reach, *member, other))
}

/// The most that a part of the other side can take or give in W, if it meets a member.
pub fn part_offer<R: Reaches>(
    side: Side,
    reach: &R,
    members: &[u32],
    index: u32,
    part: &Part,
) -> i64
    requires sound { R.is_sound reach.now }
    requires bounded { IsBounded part.now }
    ensures value { result
        ≡ if meets side (R.reach reach.now) members.now index then part.now.most else pos 0 }
    ensures range { IsHeat result }
{
    if meets(side, reach, members, index) {
        part.most
    } else {
        0
    }
}

/// The offer of a cut whose parts are of this side: the most that all parts of the other side can
/// take or give that reach one of them, or that one of them reaches, in W.
pub fn offer_of<R: Reaches>(side: Side, reach: &R, others: &[Part], members: &[u32]) -> i128
    requires sound { R.is_sound reach.now }
    requires few { length others.now ≤ MOST_PARTS }
    requires bounded { All IsBounded others.now }
    ensures { result ≡ offer_of side (R.reach reach.now) others.now members.now }
{
    let mut offer = 0i128;
    for (index, part) in others.iter().enumerate() {
        offer += i128::from(part_offer(side, reach, members, index as u32, part));
    }
    offer
}

/// Whether a cut has this need and this offer, and its need is the greater one.
fn is_short(cut: &Cut, need: i128, offer: i128) -> bool
    ensures { IsTrue result
        ↔ (cut.now.need ≡ need) × (cut.now.offer ≡ offer) × (offer <ℤ need) }
{
    i128::from(cut.need) == need && i128::from(cut.offer) == offer && offer < need
}

/// Whether a cut is one of these parts. Its indexes rise strictly, and each names a part with a
/// least above 0. Its need is the sum of their leasts, its offer the sum of the mosts of all parts
/// of the other side that meet one of them, and the need is greater than the offer. Indexes out of
/// range, and another need or offer than these sums give false. Where there is a cut there is no
/// heat flow.
pub fn is_cut_of<R: Reaches>(parts: &Parts, reach: &R, cut: &Cut) -> bool
    requires { R.is_sound reach.now }
    ensures exact { IsTrue result
        ↔ IsCutOf (R.reach reach.now) parts.now.hot parts.now.cold cut.now }
    ensures refuses { IsTrue result
        → HasNoFlow (R.reach reach.now) parts.now.hot parts.now.cold }
{
    let side = cut.kind.side();
    let own = parts_of(side, parts);
    let others = parts_of(opposite(side), parts);
    let members = cut.parts.as_slice();
    if !are_rising(members) || !are_needing(own, members) {
        return false;
    }
    let need = need_of(own, members);
    let offer = offer_of(side, reach, others, members);
    is_short(cut, need, offer)
}

/// Whether a cut is one of these parts, as `is_cut_of` says it. A table of other sizes than the
/// parts' lists gives false.
pub fn is_cut(parts: &Parts, reach: &Reach, cut: &Cut) -> bool
    ensures exact { IsTrue result ↔ IsCutOver parts.now.hot parts.now.cold reach.now cut.now }
    ensures refuses { IsTrue result → HasNoFlow (reaches reach.now) parts.now.hot parts.now.cold }
{
    has_sizes(reach, parts) && is_cut_of(parts, reach, cut)
}
