//! The items of all workers, in their order.
ghost use Rattle.std.specs.Prelude.{◌≡◌, ℕ, ◌+◌, ◌^◌, ◌<◌, ◌≤◌, List, length, IfOk, is_ok};
ghost use Rattle.workers.specs.Shares.{AreItems, AreItemsOfWorker, AreItemsOfWorkers, IsLastOf};

use crate::gate::Gate;
use std::alloc::{AllocError, Global};
use std::marker::Model;
use std::thread;
use std::thread::Threads;
use stream_case::Items;

/// The items that one worker made. A contract sees the list of them.
#[derive(Drop)]
struct Share<X> {
    items: Vec<X>,
}

impl<X> Model for Share<X> {
    ghost Value = { List X };

    ghost view = { λ s. s.items.items };
}

/// The items that one of so many workers makes: that of its own number, from 0, and then each that
/// is so many further on.
fn share_of<X: Drop, G: Gate, F: Fn(u32) -> Result<X, AllocError>>(
    alloc: Global,
    gate: &G,
    item: &F,
    count: u32,
    worker: u32,
    workers: u32,
) -> Result<Share<X>, AllocError>
    requires callable { (k : ℕ) → k < count → F.pre item.now k }
    requires some_workers { 1 ≤ workers }
    requires few { count + workers < 2 ^ 32 }
    requires worker { worker < workers }
    ensures { IfOk result
        (λ items. AreItemsOfWorker (λ k x. F.post item.now k (Ok x)) count workers worker items) }
{
    let mut items = Vec::new(alloc);
    for number in (worker..count).step_by(workers as usize) {
        gate.enter(number);
        let made = item(number);
        gate.leave(number);
        items.push(made?)?;
    }
    Ok(Share { items })
}

/// The items of each worker.
fn shares_of_workers<
    R: Threads + Sync,
    X: Drop + Send,
    G: Gate + Sync,
    F: Fn(u32) -> Result<X, AllocError> + Sync,
>(
    rt: &R,
    alloc: Global,
    gate: &G,
    item: &F,
    count: u32,
    workers: u32,
) -> Result<Vec<Result<Share<X>, AllocError>>, AllocError>
    requires callable { (k : ℕ) → k < count → F.pre item.now k }
    requires some_workers { 1 ≤ workers }
    requires few { count + workers < 2 ^ 32 }
    ensures count { IfOk result (λ shares. length shares.items ≡ workers) }
    ensures items { IfOk result
        (λ shares. AreItemsOfWorkers (λ k x. F.post item.now k (Ok x)) count shares.items) }
{
    thread::map_indices(
        rt,
        alloc,
        workers as usize,
        &|worker| { share_of(alloc, gate, item, count, worker as u32, workers) },
    )
}

/// Takes the last item of a share, or says that its worker found no memory.
fn take_last<X: Drop>(share: &mut Result<Share<X>, AllocError>) -> Result<X, AllocError>
    requires { IfOk share.old (λ items. 0 < length items) }
    ensures found { is_ok result ≡ is_ok share.old }
    ensures last { IfOk result (IsLastOf share.old share.new) }
{
    match share {
        Ok(share) => Ok(share.items.pop().unwrap()),
        Err(_) => Err(AllocError),
    }
}

/// So many items, in the order of their numbers from 0: each is what `item` gives for its number.
/// The workers share them out among them; neither their number nor the gate decides which items
/// there are or where they stand. Where a worker finds no memory the others end their items, and
/// the answer is want of memory.
pub fn items_by_workers<
    R: Threads + Sync,
    X: Drop + Send,
    G: Gate + Sync,
    F: Fn(u32) -> Result<X, AllocError> + Sync,
>(
    rt: &R,
    alloc: Global,
    gate: &G,
    item: &F,
    count: u32,
    workers: u32,
) -> Result<Items<X>, AllocError>
    requires callable { (k : ℕ) → k < count → F.pre item.now k }
    requires some_workers { 1 ≤ workers }
    requires few { count + workers < 2 ^ 32 }
    ensures { IfOk result (AreItems (λ k x. F.post item.now k (Ok x)) count) }
{
    let mut shares = shares_of_workers(rt, alloc, gate, item, count, workers)?;
    let mut items = Vec::new(alloc);
    let mut left = count;
    // Each item moves out of the end of its worker's share, so the last one comes first.
    while left > 0 {
        left -= 1;
        items.push(take_last(&mut shares[(left % workers) as usize])?)?;
    }
    items.reverse();
    Ok(Items::from_vec(items))
}
