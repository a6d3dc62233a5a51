//! Shares of heat that have come to cold parts, gathered into transfers.
ghost use Rattle.std.specs.Prelude.{◌≡◌, ◌≤◌, pos, ◌+ℤ◌, ◌≤ℤ◌, ◌<ℤ◌, All, IfOk, OnOk};
ghost use Rattle.heat_flow.specs.declared.flow.Transfer.{Transfer};
ghost use Rattle.chains.specs.declared.stock.Share.{Share};
ghost use Rattle.chains.specs.Gathered.{transfer_of, IsAdded, AreGathered};
ghost use Rattle.chains.specs.Stock.{held_of};

use crate::stock::Share;
use heat_flow::{Flow, Transfer};
use std::alloc::{AllocError, Global};
use stream_case::Items;

/// The transfers of shares that stand at cold parts, in the order of a heat flow: those of one pair
/// of parts added up.
pub(crate) fn transfers_of(alloc: Global, hots: u32, shares: Vec<Share>) -> Result<Flow, AllocError>
    requires at_cold { All (λ (s : Share). hots ≤ s.node) shares.items }
    requires positive { All (λ (s : Share). pos 0 <ℤ s.heat) shares.items }
    requires fits { All (λ (s : Share). held_of shares.items s.hot ≤ℤ i64.MAX) shares.items }
    ensures { IfOk result (λ flow. AreGathered hots shares.items flow.transfers) }
{
    let mut sorted = shares;
    sorted.sort_by_key(|share| (share.hot, share.node))?;
    let mut transfers = Vec::new(alloc);
    for share in &sorted {
        add_share(&mut transfers, hots, share)?;
    }
    Ok(Flow {
        transfers: Items::from_vec(transfers),
    })
}

/// Adds a share to the last transfer, if that is of the same pair of parts, and else behind it.
fn add_share(transfers: &mut Vec<Transfer>, hots: u32, share: &Share) -> Result<(), AllocError>
    requires at_cold { hots ≤ share.now.node }
    requires positive { pos 0 <ℤ share.now.heat }
    requires fits { All (λ (t : Transfer). t.hot ≡ share.now.hot
        → (t.heat +ℤ share.now.heat) ≤ℤ i64.MAX) transfers.old.items }
    ensures { OnOk result (IsAdded transfers.old.items
        (transfer_of hots share.now) transfers.new.items) }
{
    let cold = share.node - hots;
    let count = transfers.len();
    if count > 0 && transfers[count - 1].hot == share.hot && transfers[count - 1].cold == cold {
        transfers[count - 1].heat += share.heat;
    } else {
        transfers.push(Transfer {
            hot: share.hot,
            cold,
            heat: share.heat,
        })?;
    }
    Ok(())
}
