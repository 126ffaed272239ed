//! The write part of a try.
ghost use Rattle.std.specs.Prelude.{◌≡◌, ◌<◌, All, length};
ghost use Rattle.zeus_txn.specs.Ops.{named};
ghost use Rattle.object_table.specs.Entries.{AreNamed};
ghost use Rattle.local_txn.specs.Tries.{TriesWrite};

use crate::causes::cause;
use crate::commit::commit;
use commit_pipeline::Pipe;
use object_table::Copies;
use owner_entry::Dir;
use zeus_base::{NodeId, ObjId, SlotId, TxId};
use zeus_txn::{Reply, Tx};

/// What becomes of a try to commit.
#[derive(Debug, Drop)]
pub enum WriteTry {
    /// The slot has 16 pending entries.
    PipeFull,
    /// The node does not own this object.
    NotOwner(ObjId),
    /// Another slot, this one, holds the object.
    Held(ObjId, SlotId),
    /// The next number of the slot, or a version that would rise, is at its end.
    WornOut,
    /// The transaction is the entry of this number of the slot's stream, and replies this.
    Committed(u32, Reply),
}

/// Tries to commit a write transaction of the slot at the node `me`. If one of these holds, the first of them is the
/// answer, and nothing changes:
///
/// 1. `PipeFull`: the slot has 16 pending entries.
/// 2. `NotOwner`: the node does not own this object, the first such in the order of naming.
/// 3. `Held`: another slot, this one, holds this object, the first such in that order.
/// 4. `WornOut`: the slot's next number, or the version of a written object, is at its end.
///
/// Else the answer is `Committed`. Each write stands in the node's own copy, one version higher and not yet valid. The
/// slot holds each named object once more. The entry is the last of the pipe, and its followers are the replicas of the
/// written objects by the settled placements, without the node.
///
/// The clause speaks of every node with these entries, copies and this slot, whose other slots hold what the table says.
/// What a slot holds stays named by its pending entries. Takes no memory.
pub fn try_write(
    copies: &mut Copies,
    dir: &Dir,
    pipe: &mut Pipe,
    me: NodeId,
    slot: SlotId,
    id: TxId,
    tx: &Tx,
) -> WriteTry
    requires objects { All (λ x. x < length copies.old.copies) (named tx.now) }
    requires places { length dir.now.entries ≡ length copies.old.copies }
    requires holds { AreNamed slot copies.old.holds pipe.old.pending }
    ensures does { TriesWrite me dir.now.entries slot (record { id = id; tx = tx.now }) copies.old copies.new pipe.old pipe.new result }
{
    match cause(copies, dir, pipe, me, slot, tx) {
        Some(cause) => cause,
        None => commit(copies, dir, pipe, me, slot, id, tx),
    }
}
