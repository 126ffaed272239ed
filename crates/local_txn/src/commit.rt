//! The commit of a transaction that nothing stands against.
ghost use Rattle.std.specs.Prelude.{◌≡◌, ◌≢◌, ◌+◌, ◌<◌, ◌∷◌, ◌++◌, ℕ, List, [], All, length};
ghost use Rattle.zeus_model.specs.Commit.{each_write};
ghost use Rattle.zeus_model.specs.Local.{new_writes, replicas_of, rewritten_copy, run_here};
ghost use Rattle.zeus_model.specs.declared.state.Pending.{Pending};
ghost use Rattle.zeus_txn.specs.Ops.{named};
ghost use Rattle.object_table.specs.Table.{AreWithin, each_held};
ghost use Rattle.object_table.specs.Entries.{AreEntriesWithin, AreNamed};
ghost use Rattle.local_txn.specs.Tries.{AreNext, AreRising, CanHoldEach, IsClear, entry_here, node_of, tried_as, writes_here};
ghost use Rattle.zeus_model.specs.declared.answer.Tried.TheVariants.{Committed};

use crate::attempt::WriteTry;
use crate::causes::version;
use commit_pipeline::{Full, Pending, Pipe};
use object_table::Copies;
use owner_entry::Dir;
use replica_reads::run_on;
use std::alloc::Global;
use zeus_base::{NodeId, NodeSet, SlotId, TxId};
use zeus_packet::{Write, Writes};
use zeus_txn::{Named, NewValues, Tx};

/// Writes the own copies, holds the named objects, and adds the entry to the pipe.
pub(crate) fn commit(
    copies: &mut Copies,
    dir: &Dir,
    pipe: &mut Pipe,
    me: NodeId,
    slot: SlotId,
    id: TxId,
    tx: &Tx,
) -> WriteTry
    requires objects { All (λ x. x < length copies.old.copies) (named tx.now) }
    requires places { length dir.now.entries ≡ length copies.old.copies }
    requires holds { AreNamed slot copies.old.holds pipe.old.pending }
    requires clear { IsClear slot copies.old pipe.old tx.now }
    ensures answer { tried_as id result
        ≡ Committed id (pipe.old.done + length pipe.old.pending) (run_here (node_of me dir.now.entries copies.old.copies) tx.now).reply }
    ensures copies { copies.new.copies ≡ each_write rewritten_copy copies.old.copies (writes_here (node_of me dir.now.entries copies.old.copies) tx.now) }
    ensures holds { copies.new.holds ≡ each_held slot copies.old.holds (named tx.now) }
    ensures pending { pipe.new.pending ≡ pipe.old.pending ++ entry_here (node_of me dir.now.entries copies.old.copies) id tx.now ∷ [] }
    ensures done { pipe.new.done ≡ pipe.old.done }
    ensures named { AreNamed slot copies.new.holds pipe.new.pending }
    ensures others { (t : ℕ) (ps : List Pending) → t ≢ slot → AreNamed t copies.old.holds ps → AreNamed t copies.new.holds ps }
    ensures objects { length copies.new.copies ≡ length copies.old.copies }
    ensures within { AreEntriesWithin (length copies.old.copies) pipe.old.pending → AreEntriesWithin (length copies.old.copies) pipe.new.pending }
{
    let ran = run_on(copies, tx);
    let writes = new_writes(tx.allocator(), copies, &ran.writes);
    let followers = replicas(dir, &writes).without(me);
    let reply = ran.into_reply();
    let named = tx.named();
    write_each(copies, &writes);
    hold_each(copies, slot, &named);
    let entry = Pending {
        id,
        reply: reply.duplicate(),
        named,
        followers,
        writes,
        acks: NodeSet::empty(),
    };
    match pipe.push(entry) {
        Ok(number) => WriteTry::Committed(number, reply),
        Err(Full) => WriteTry::PipeFull,
    }
}

/// The writes of these values, with the versions that they make.
fn new_writes(alloc: Global, copies: &Copies, values: &NewValues) -> Writes
    requires { AreRising copies.now.copies values.now }
    ensures { result ≡ new_writes (node_of 0 [] copies.now.copies) values.now }
{
    let mut writes = Writes::new(alloc);
    for place in 0..values.len() {
        let written = &values.as_slice()[place];
        let ver = version(copies, written.0) + 1;
        writes.push(Write {
            obj: written.0,
            ver,
            value: written.1,
        });
    }
    writes
}

/// The replicas of the written objects by the settled placements.
fn replicas(dir: &Dir, writes: &Writes) -> NodeSet
    requires { AreWithin (length dir.now.entries) writes.now }
    ensures { result ≡ replicas_of (node_of 0 dir.now.entries []) writes.now }
{
    let mut all = NodeSet::empty();
    let count = writes.len();
    for turn in 0..count {
        let write = &writes.as_slice()[count - 1 - turn];
        all = dir.entry(write.obj).place.replicas.join(all);
    }
    all
}

/// Each of the writes stands in the own copies.
fn write_each(copies: &mut Copies, writes: &Writes)
    requires { AreNext copies.old.copies writes.now }
    ensures copies { copies.new.copies ≡ each_write rewritten_copy copies.old.copies writes.now }
    ensures holds { copies.new.holds ≡ copies.old.holds }
    ensures objects { length copies.new.copies ≡ length copies.old.copies }
{
    for write in writes.as_slice() {
        copies.write(write.obj, write.value);
    }
}

/// The slot holds each of the objects once more.
fn hold_each(copies: &mut Copies, slot: SlotId, objects: &Named)
    requires { CanHoldEach slot (length copies.old.copies) copies.old.holds objects.now }
    ensures holds { copies.new.holds ≡ each_held slot copies.old.holds objects.now }
    ensures copies { copies.new.copies ≡ copies.old.copies }
{
    for object in objects.as_slice() {
        copies.hold(*object, slot);
    }
}
