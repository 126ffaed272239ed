//! Why a transaction is not committed.
ghost use Rattle.std.specs.Prelude.{◌≡◌, ◌<◌, ◌+◌, ◌-◌, ◌==◌, ◌||◌, ◌^◌, ℕ, All, IfNone, None, length};
ghost use Rattle.std.specs.List.{list_any};
ghost use Rattle.zeus_model.specs.Local.{write_cause};
ghost use Rattle.zeus_model.specs.State.{Node, version_of};
ghost use Rattle.zeus_model.specs.Tables.{first_of, nth};
ghost use Rattle.zeus_txn.specs.Ops.{named};
ghost use Rattle.local_txn.specs.Tries.{IsClear, IsNodeOf, cause_as, held_at, owner_at, told_held, told_not_owned, worn_at};

use crate::attempt::WriteTry;
use commit_pipeline::Pipe;
use object_table::Copies;
use owner_entry::{Dir, OwnerEntry};
use zeus_base::{NodeId, ObjId, SlotId};
use zeus_packet::WINDOW_DEPTH;
use zeus_txn::{Op, Tx};

/// An object that another slot holds.
#[derive(Clone, Copy, Debug, PartialEq, Eq)]
pub(crate) struct HeldBy {
    pub(crate) object: ObjId,
    pub(crate) slot: SlotId,
}

/// The first cause against the transaction.
pub(crate) fn cause(
    copies: &Copies,
    dir: &Dir,
    pipe: &Pipe,
    me: NodeId,
    slot: SlotId,
    tx: &Tx,
) -> Option<WriteTry>
    requires { All (λ x. x < length dir.now.entries) (named tx.now) }
    ensures first { (n : Node) (id : ℕ) → IsNodeOf me dir.now.entries copies.now slot pipe.now n → cause_as id result ≡ write_cause n slot tx.now }
    ensures clear { IfNone result (IsClear slot copies.now pipe.now tx.now) }
{
    if pipe.len() as usize == WINDOW_DEPTH {
        return Some(WriteTry::PipeFull);
    }
    let named = tx.named();
    let objects = named.as_slice();
    if let Some(object) = first_not_owned(dir, me, objects) {
        return Some(WriteTry::NotOwner(object));
    }
    if let Some(held) = first_held(copies, slot, objects) {
        return Some(WriteTry::Held(held.object, held.slot));
    }
    if is_worn(copies, pipe, tx) {
        return Some(WriteTry::WornOut);
    }
    None
}

/// The first of the objects that the node does not own.
fn first_not_owned(dir: &Dir, me: NodeId, objects: &[ObjId]) -> Option<ObjId>
    requires { All (λ x. x < length dir.now.entries) objects.now }
    ensures { told_not_owned result ≡ first_of (owner_at me dir.now.entries) objects.now }
{
    for object in objects {
        if !dir.entry(*object).owns(me) {
            return Some(*object);
        }
    }
    None
}

/// The first of the objects that another slot holds.
fn first_held(copies: &Copies, slot: SlotId, objects: &[ObjId]) -> Option<HeldBy>
    ensures { told_held result ≡ first_of (held_at slot copies.now.holds) objects.now }
{
    for object in objects {
        let found = held_by_another(copies, slot, *object);
        if found.is_some() {
            return found;
        }
    }
    None
}

/// The slot that holds the object, where it is another one.
fn held_by_another(copies: &Copies, slot: SlotId, object: ObjId) -> Option<HeldBy>
    ensures { told_held result ≡ held_at slot copies.now.holds object }
{
    match copies.holder(object) {
        None => None,
        Some(other) => {
            if other == slot {
                None
            } else {
                Some(HeldBy {
                    object,
                    slot: other,
                })
            }
        }
    }
}

/// Whether the next number of the slot, or the version of an object that the transaction may write, is at its end.
fn is_worn(copies: &Copies, pipe: &Pipe, tx: &Tx) -> bool
    ensures { result ≡ ((pipe.now.done + length pipe.now.pending == 2 ^ 32 - 1) || list_any (worn_at copies.now.copies) tx.now) }
{
    if pipe.done() + pipe.len() == u32::MAX {
        return true;
    }
    for op in tx.ops() {
        if is_worn_at(copies, op) {
            return true;
        }
    }
    false
}

/// Whether the operation stores at an object whose version is at its end.
#[tactic(auto, unfolding(crate::specs::Tries::worn_at))]
fn is_worn_at(copies: &Copies, op: &Op) -> bool
    ensures { result ≡ worn_at copies.now.copies op.now }
{
    op.stores() && version(copies, op.object()) == u64::MAX
}

/// The version of the copy, or 0 where there is none.
#[tactic(auto, unfolding(zeus_model::specs::State::version_of))]
pub(crate) fn version(copies: &Copies, object: ObjId) -> u64
    ensures { result ≡ version_of (nth None copies.now.copies object) }
{
    match copies.copy(object) {
        None => 0,
        Some(copy) => copy.ver,
    }
}
