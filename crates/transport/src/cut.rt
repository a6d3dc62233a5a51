//! The cut of parts that shows that the most of all parts cannot be routed.
ghost use Rattle.std.specs.Prelude.{◌≡◌, ℕ, ◌+◌, ◌≤◌, Bool, length, IfOk};
ghost use Rattle.stream_case.specs.declared.limits.TheConstants.{MOST_PARTS};
ghost use Rattle.heat_flow.specs.Cuts.{parts_of, cut_side, need_of};
ghost use Rattle.chains.specs.declared.net.TheConstants.{MOST_INNER_LINKS, MOST_INNER_NODES};
ghost use Rattle.chains.specs.Inner.{IsInner};
ghost use Rattle.chains.specs.Path.{PathsAreReaches};
ghost use Rattle.transport.specs.Around.{BlocksMost};
ghost use Rattle.transport.specs.Members.{is_picked, members_of, IsSideHeat, IsCutWithin};

use crate::net::ends_behind;
use flow_net::Net;
use grid::{Part, Parts};
use heat_flow::{Cut, CutKind, need_of, parts_of};
use std::alloc::{AllocError, Global};
use stream_case::Items;

/// The parts that a cut names.
#[derive(Drop)]
pub(crate) struct Members {
    pub kind: CutKind,
    /// Their indexes in the list of their side, from the least up.
    pub indexes: Items<u32>,
}

/// Whether a cut of this kind may name a part, by whether its node is reached.
fn is_picked(kind: CutKind, reached: bool) -> bool
    ensures { result ≡ is_picked kind reached }
{
    match kind {
        CutKind::Demand => !reached,
        CutKind::Supply => reached,
    }
}

/// The indexes of the parts that a cut of this kind names: those that have to have some heat. The
/// nodes of the parts begin with this one.
fn members_of(
    alloc: Global,
    kind: CutKind,
    first: usize,
    reached: &[bool],
    parts: &[Part],
) -> Result<Items<u32>, AllocError>
    requires reached { first + length parts.now ≤ length reached.now }
    requires few { length parts.now ≤ MOST_PARTS }
    ensures { IfOk result (λ members. members ≡ members_of kind first reached.now parts.now) }
{
    let mut members = Vec::new(alloc);
    for (index, part) in parts.iter().enumerate() {
        if is_picked(kind, reached[first + index]) && part.least > 0 {
            members.push(index as u32)?;
        }
    }
    Ok(Items::from_vec(members))
}

/// The parts that a cut names, from a cut of a net around an inner net, which the most of all parts
/// cannot pass. They are a cut wherever the paths of the inner net are the pairs that reach. Where
/// the filler is reached, the cold parts that are not reached need more than all hot parts that
/// are not reached can give; and else the hot parts that are reached have to give more than all
/// cold parts that are reached can take.
pub(crate) fn blocked_members(
    alloc: Global,
    parts: &Parts,
    inner: &Net,
    reached: &[bool],
) -> Result<Members, AllocError>
    requires inner { IsInner (length parts.now.hot) (length parts.now.cold) inner.now }
    requires few_nodes { inner.now.nodes ≤ MOST_INNER_NODES }
    requires few_links { length inner.now.links ≤ MOST_INNER_LINKS }
    requires blocked { BlocksMost parts.now.hot parts.now.cold inner.now reached.now }
    ensures { IfOk result (λ members. (reach : ℕ → ℕ → Bool)
        → PathsAreReaches (length parts.now.hot) (length parts.now.cold) inner.now.links reach
        → IsCutWithin (cut_side members.kind) reach parts.now.hot parts.now.cold
        members.indexes) }
{
    let hot = parts.hot.as_slice();
    let cold = parts.cold.as_slice();
    if reached[ends_behind(inner.nodes).filler as usize] {
        Ok(Members {
            kind: CutKind::Demand,
            indexes: members_of(alloc, CutKind::Demand, hot.len(), reached, cold)?,
        })
    } else {
        Ok(Members {
            kind: CutKind::Supply,
            indexes: members_of(alloc, CutKind::Supply, 0, reached, hot)?,
        })
    }
}

/// The cut that names these parts, with what they need and this offer, in W.
pub(crate) fn cut_of(parts: &Parts, members: Members, offer: i128) -> Cut
    requires needed { IsSideHeat
        (need_of (parts_of (cut_side members.kind) parts.now.hot parts.now.cold) members.indexes) }
    requires offered { IsSideHeat offer }
    ensures kind { result.kind ≡ members.kind }
    ensures parts { result.parts ≡ members.indexes }
    ensures need { result.need
        ≡ need_of (parts_of (cut_side members.kind) parts.now.hot parts.now.cold)
        members.indexes }
    ensures offer { result.offer ≡ offer }
{
    let own = parts_of(members.kind.side(), parts);
    let need = need_of(own, members.indexes.as_slice());
    Cut {
        kind: members.kind,
        parts: members.indexes,
        need: need as i64,
        offer: offer as i64,
    }
}
