//! The begin of a transaction.
ghost use Rattle.std.specs.Prelude.{◌≡◌, ◌<◌, IfOk, IfSome, length};
ghost use Rattle.zeus_model.specs.Scripts.{FitsStep};
ghost use Rattle.reached_worlds.specs.Ranged.{IsRanged};
ghost use Rattle.random_schedule.specs.Choices.{ready_tx, ready_txs};
ghost use Rattle.random_schedule.specs.Ready.{AreBegun, AreQueues, AreAllBegun, IsQueue, IsSlot};
ghost use Rattle.random_schedule.specs.Schedule.{begin_at, begin_step};

use crate::lists::push_some;
use crate::nodes::tick_of;
use crate::places::chosen;
use crate::queues::{Queue, first_new};
use crate::slots::has_current;
use std::alloc::Global;
use zeus_base::{NoMemory, Step, TxId};
use zeus_world::World;

/// The transaction that can begin at the queue's slot.
#[tactic(auto, unfolding(crate::specs::Choices::ready_tx))]
fn ready_tx(world: &World, queue: &Queue, begun: &mut usize) -> Option<TxId>
    requires world { IsRanged world.now }
    requires slot { IsSlot world.now.config queue.now.slot }
    requires queue { IsQueue world.now.txs queue.now }
    requires begun { AreBegun world.now.book queue.now.txs.items begun.old }
    ensures ready { result ≡ ready_tx world.now queue.now.slot }
    ensures begun { AreBegun world.now.book queue.now.txs.items begun.new }
{
    if !world.is_live(queue.slot.node) || has_current(world, queue.slot) {
        return None;
    }
    first_new(world.book(), queue.txs.as_slice(), begun)
}

/// The transactions that can begin, by slot.
fn ready_txs(
    alloc: Global,
    world: &World,
    queues: &[Queue],
    begun: &mut [usize],
) -> Result<Vec<TxId>, NoMemory>
    requires world { IsRanged world.now }
    requires queues { AreQueues world.now queues.now }
    requires begun { AreAllBegun world.now.book queues.now begun.old }
    ensures ready { IfOk result (λ v. v.items ≡ ready_txs world.now) }
    ensures begun { AreAllBegun world.now.book queues.now begun.new }
{
    let mut ready = Vec::with_capacity(alloc, queues.len()).map_err(|_| NoMemory)?;
    for (place, queue) in queues.iter().enumerate() {
        push_some(&mut ready, ready_tx(world, queue, &mut begun[place]))?;
    }
    Ok(ready)
}

/// The begin of the transaction, or a tick if there is none.
#[tactic(auto, unfolding(zeus_model::specs::Scripts::FitsStep, crate::specs::Schedule::begin_at))]
fn begin_at(world: &World, u: u32, id: Option<TxId>) -> Step
    requires world { IsRanged world.now }
    requires id { IfSome id (λ k. k < length world.now.txs) }
    ensures step { result ≡ begin_at world.now u id }
    ensures fits { FitsStep world.now.config (length world.now.txs) result }
{
    match id {
        None => tick_of(world, u),
        Some(id) => Step::Begin(id),
    }
}

/// The begin of the chosen transaction that can begin, or a tick if there is none.
///
/// # Errors
/// `NoMemory` if the memory for the list is not there.
pub(crate) fn begin_step(
    alloc: Global,
    world: &World,
    queues: &[Queue],
    begun: &mut [usize],
    u: u32,
) -> Result<Step, NoMemory>
    requires world { IsRanged world.now }
    requires queues { AreQueues world.now queues.now }
    requires begun { AreAllBegun world.now.book queues.now begun.old }
    ensures step { IfOk result (λ step. step ≡ begin_step world.now u) }
    ensures fits { IfOk result (FitsStep world.now.config (length world.now.txs)) }
    ensures begun { AreAllBegun world.now.book queues.now begun.new }
{
    let ready = ready_txs(alloc, world, queues, begun)?;
    Ok(begin_at(world, u, chosen(u, ready.as_slice())))
}
