//! The transactions of each slot, and how far they are begun.
ghost use Rattle.std.specs.Prelude.{◌≡◌, ◌<◌, ◌^◌, All, IfOk, length, map};
ghost use Rattle.zeus_base.specs.Order.{same_stream};
ghost use Rattle.random_schedule.specs.Choices.{first_new, own_txs, stream};
ghost use Rattle.random_schedule.specs.Ready.{AreBegun, IsQueue};

use crate::lists::{push, push_if};
use std::alloc::Global;
use zeus_base::{NoMemory, Stream, TxId};
use zeus_txn::{TxDecl, TxList};
use zeus_world::Book;

/// The transactions that are declared at a slot, in order.
#[derive(Debug, Drop)]
pub(crate) struct Queue {
    pub(crate) slot: Stream,
    pub(crate) txs: Vec<TxId>,
}

impl Queue {
    /// The transactions of a slot.
    ///
    /// # Errors
    /// `NoMemory` if the memory for it is not there.
    pub(crate) fn new(alloc: Global, slot: Stream, txs: &TxList) -> Result<Queue, NoMemory>
        requires { length txs.now < 2 ^ 32 }
        ensures slot { IfOk result (λ q. q.slot ≡ slot) }
        ensures queue { IfOk result (IsQueue txs.now) }
    {
        let own = own_txs(alloc, &slot, txs)?;
        Ok(Queue { slot, txs: own })
    }
}

/// Whether the transaction is declared at the slot.
#[tactic(auto, unfolding(zeus_base::specs::Order::same_stream))]
fn is_of(declared: &TxDecl, slot: &Stream) -> bool
    ensures { result ≡ same_stream (stream declared.now.node declared.now.slot) slot.now }
{
    declared.node == slot.node && declared.slot == slot.slot
}

/// The numbers of the transactions that are declared at a slot.
#[tactic(auto, using(crate::proofs::Making::own_more, crate::proofs::Making::own_done))]
fn own_txs(alloc: Global, slot: &Stream, txs: &TxList) -> Result<Vec<TxId>, NoMemory>
    requires { length txs.now < 2 ^ 32 }
    ensures { IfOk result (λ v. v.items ≡ own_txs slot.now txs.now) }
{
    let mut own = Vec::new(alloc);
    for (place, declared) in txs.as_slice().iter().enumerate() {
        push_if(&mut own, is_of(declared, slot), TxId(place as u32))?;
    }
    Ok(own)
}

/// The first of the transactions that is not begun. The transactions in front of `begun` are; the number is raised to
/// those that this call finds.
#[tactic(auto, unfolding(crate::specs::Choices::is_begun), using(crate::proofs::Begun::begun_more, crate::proofs::Begun::first_found, crate::proofs::Begun::all_begun))]
pub(crate) fn first_new(book: &Book, txs: &[TxId], begun: &mut usize) -> Option<TxId>
    requires { AreBegun book.now.book txs.now begun.old }
    ensures first { result ≡ first_new book.now.book txs.now }
    ensures begun { AreBegun book.now.book txs.now begun.new }
{
    for place in *begun..txs.len() {
        let id = txs[place];
        if !book.is_begun(id) {
            *begun = place;
            return Some(id);
        }
    }
    *begun = txs.len();
    None
}

/// The queues of the slots.
///
/// # Errors
/// `NoMemory` if the memory for it is not there.
pub(crate) fn queues_of(
    alloc: Global,
    slots: &[Stream],
    txs: &TxList,
) -> Result<Vec<Queue>, NoMemory>
    requires { length txs.now < 2 ^ 32 }
    ensures slots { IfOk result (λ v. map (λ q. q.slot) v.items ≡ slots.now) }
    ensures each { IfOk result (λ v. All (IsQueue txs.now) v.items) }
{
    let mut queues = Vec::with_capacity(alloc, slots.len()).map_err(|_| NoMemory)?;
    for slot in slots {
        push(&mut queues, Queue::new(alloc, *slot, txs)?)?;
    }
    Ok(queues)
}
