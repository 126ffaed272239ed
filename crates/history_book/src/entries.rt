//! The transaction of each entry, by stream and number.
ghost use Rattle.std.specs.Prelude.{ℕ, ◌≡◌, ◌≤◌, ◌<◌, ◌+◌, ◌∷◌, ◌++◌, [], IfOk, length, option_copied, slice_get};
ghost use Rattle.zeus_base.specs.declared.order.Stream.{Stream};
ghost use Rattle.zeus_model.specs.Tables.{nth, put};
ghost use Rattle.history_book.specs.Entries.{HasEntries, HasSlots, IsStream, of_stream};
ghost use Rattle.history_book.specs.Ids.{no_ids};

use crate::tx_ids::TxIds;
use std::alloc::Global;
use std::marker::Model;
use zeus_base::{NoMemory, NodeId, SlotId, Stream, TxId};

/// The entries of one node, by slot.
#[derive(Debug, Drop)]
struct NodeEntries {
    slots: Vec<TxIds>,
}

impl Model for NodeEntries {
    ghost use Rattle.std.specs.Prelude.{List};
    ghost use Rattle.history_book.specs.Ids.{IdsState};

    ghost Value = { List IdsState };

    ghost view = { λ e. e.slots.items };
}

impl NodeEntries {
    fn new(alloc: Global, slots: u8, count: usize) -> Result<NodeEntries, NoMemory>
        ensures size { IfOk result (λ e. length e ≡ slots) }
        ensures none { IfOk result (λ e. (s : ℕ) → (nth no_ids e s).ids ≡ []) }
        ensures room { IfOk result (λ e. (s : ℕ) → s < slots → count ≤ (nth no_ids e s).room) }
    {
        let Ok(mut lists) = Vec::with_capacity(alloc, slots as usize) else {
            return Err(NoMemory);
        };
        for _slot in 0..slots {
            lists.push_reserved(TxIds::with_room(alloc, count)?);
        }
        Ok(NodeEntries { slots: lists })
    }

    fn list(&self, slot: SlotId) -> Option<&TxIds>
        ensures { option_copied result ≡ slice_get self.now slot }
    {
        self.slots.get(slot.place())
    }

    fn get(&self, slot: SlotId, number: u32) -> Option<TxId>
        ensures { result ≡ slice_get (nth no_ids self.now slot).ids number }
    {
        match self.list(slot) {
            None => None,
            Some(list) => list.get(number),
        }
    }

    fn push(&mut self, slot: SlotId, id: TxId)
        requires slot { slot < length self.old }
        requires room { 0 < (nth no_ids self.old slot).room }
        ensures list { self.new ≡ put no_ids self.old slot (nth no_ids self.new slot) }
        ensures ids { (nth no_ids self.new slot).ids ≡ (nth no_ids self.old slot).ids ++ id ∷ [] }
        ensures room { (nth no_ids self.new slot).room + 1 ≡ (nth no_ids self.old slot).room }
    {
        let list = &mut self.slots[slot.place()];
        list.push(id);
    }
}

/// The transaction of each entry: of each stream the transactions in the order of their entries' numbers, from 0.
#[derive(Debug, Drop)]
pub(crate) struct Entries {
    nodes: Vec<NodeEntries>,
}

impl Model for Entries {
    ghost use Rattle.std.specs.Prelude.{List};
    ghost use Rattle.history_book.specs.Ids.{IdsState};

    ghost Value = { List (List IdsState) };

    ghost view = { λ e. e.nodes.items };
}

impl Entries {
    /// No entries yet, and room for so many of each stream.
    ///
    /// # Errors
    /// `NoMemory` if the room is not there.
    pub(crate) fn new(
        alloc: Global,
        nodes: u8,
        slots: u8,
        count: usize,
    ) -> Result<Entries, NoMemory>
        ensures size { IfOk result (HasSlots nodes slots) }
        ensures none { IfOk result (λ e. (s : Stream) → (of_stream e s).ids ≡ []) }
        ensures room { IfOk result (HasEntries count nodes slots) }
    {
        let Ok(mut rows) = Vec::with_capacity(alloc, nodes as usize) else {
            return Err(NoMemory);
        };
        for _node in 0..nodes {
            rows.push_reserved(NodeEntries::new(alloc, slots, count)?);
        }
        Ok(Entries { nodes: rows })
    }

    fn node(&self, node: NodeId) -> Option<&NodeEntries>
        ensures { option_copied result ≡ slice_get self.now node }
    {
        self.nodes.get(node.place())
    }

    /// The transaction of an entry.
    pub(crate) fn get(&self, stream: &Stream, number: u32) -> Option<TxId>
        ensures { result ≡ slice_get (of_stream self.now stream.now).ids number }
    {
        match self.node(stream.node) {
            None => None,
            Some(node) => node.get(stream.slot, number),
        }
    }

    /// The transaction is that of the next entry of the stream, for which there is room.
    pub(crate) fn push(&mut self, stream: &Stream, id: TxId)
        requires node { stream.now.node < length self.old }
        requires slot { stream.now.slot < length (nth [] self.old stream.now.node) }
        requires room { 0 < (of_stream self.old stream.now).room }
        ensures list { self.new
            ≡ put [] self.old stream.now.node (put no_ids (nth [] self.old stream.now.node) stream.now.slot (of_stream self.new stream.now)) }
        ensures ids { (of_stream self.new stream.now).ids ≡ (of_stream self.old stream.now).ids ++ id ∷ [] }
        ensures room { (of_stream self.new stream.now).room + 1 ≡ (of_stream self.old stream.now).room }
    {
        let node = &mut self.nodes[stream.node.place()];
        node.push(stream.slot, id);
    }
}
