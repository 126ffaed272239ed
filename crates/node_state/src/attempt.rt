//! A try of a slot's current transaction, before a letter is sent.
ghost use Rattle.std.specs.Prelude.{◌≡◌, ℕ, length};
ghost use Rattle.zeus_model.specs.State.{Node};
ghost use Rattle.object_table.specs.Entries.{AreNamed};
ghost use Rattle.node_state.specs.SlotTries.{IsCurrentWithin, IsNodeAt, TriesSlot, current_after, newest_of};

use crate::slot::Slot;
use local_txn::{WriteTry, try_write};
use object_table::Copies;
use owner_entry::Dir;
use replica_reads::{ReadTry, try_read};
use zeus_base::{NodeId, SlotId, Stream, TxId};
use zeus_model::Current;
use zeus_packet::RInv;

/// What becomes of a try of a slot's current transaction.
#[derive(Debug, Drop)]
pub enum SlotTry {
    /// The slot has none.
    Nothing,
    /// A read-only transaction was tried on the node's copies.
    Read(TxId, ReadTry),
    /// A write transaction was tried on what the node owns.
    Write(TxId, WriteTry),
}

impl Slot {
    /// The slot has this current transaction, or none.
    pub(crate) fn set_current(&mut self, current: Option<Current>)
        ensures { self.new ≡ record self.old { current = current } }
    {
        self.current = current;
    }

    /// Tries the slot's current transaction at the node `me`, whose entries and copies these are. A commit frees the
    /// slot.
    pub(crate) fn try_current(
        &mut self,
        copies: &mut Copies,
        dir: &Dir,
        me: NodeId,
        slot: SlotId,
    ) -> SlotTry
        requires objects { IsCurrentWithin (length copies.old.copies) self.old.current }
        requires places { length dir.now.entries ≡ length copies.old.copies }
        requires holds { AreNamed slot copies.old.holds self.old.pending }
        ensures does { (n : Node) → IsNodeAt me dir.now.entries copies.old slot self.old n → TriesSlot n slot copies.new self.new result }
    {
        let Some(current) = self.current.as_ref() else {
            return SlotTry::Nothing;
        };
        let id = current.id;
        if !current.tx.is_write() {
            return SlotTry::Read(id, try_read(copies, &current.tx));
        }
        let tried = try_write(copies, dir, &mut self.pipe, me, slot, id, &current.tx);
        self.leave(&tried);
        SlotTry::Write(id, tried)
    }

    /// The last pending entry, as the slot's stream sends it; none where nothing is pending.
    pub(crate) fn newest(&self, stream: &Stream) -> Option<RInv>
        ensures { result ≡ newest_of stream.now self.now }
    {
        let place = self.pipe.len().saturating_sub(1);
        let entry = self.pipe.pending(place)?;
        Some(RInv {
            stream: *stream,
            number: self.pipe.done() + place,
            done: self.pipe.done(),
            followers: entry.followers,
            writes: entry.writes.duplicate(),
        })
    }

    /// A transaction that is committed is the slot's current one no more.
    #[tactic(auto, unfolding(crate::specs::SlotTries::current_after))]
    fn leave(&mut self, tried: &WriteTry)
        ensures { self.new ≡ record self.old { current = current_after tried.now self.old.current } }
    {
        if let WriteTry::Committed(_, _) = tried {
            self.set_current(None);
        }
    }
}
