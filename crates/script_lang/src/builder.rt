//! Transactions that are put together operation by operation.
ghost use Rattle.std.specs.Prelude.{◌≡◌, ◌<◌, ◌≤◌, ◌==◌, ◌++◌, ◌∷◌, [], true, length};
ghost use Rattle.zeus_txn.specs.Ops.{object_of, mentioned, mentions};

use smallvec::SmallVec;
use std::alloc::Global;
use std::marker::Model;
use zeus_base::ObjId;
use zeus_txn::{Op, Tx};

/// Whether the object is among these.
fn is_mentioned(seen: &[ObjId], object: ObjId) -> bool
    ensures { result ≡ mentions object seen.now }
{
    seen.contains(&object)
}

/// Notes an object behind those that are named, where it is new to them.
#[tactic(auto, unfolding(zeus_txn::specs::Ops::mentioned))]
fn note(named: &mut SmallVec<ObjId, 8>, object: ObjId)
    requires capacity { named.old.capacity ≡ 8 }
    requires room { length (mentioned named.old.items object) ≤ 8 }
    ensures items { named.new.items ≡ mentioned named.old.items object }
    ensures capacity { named.new.capacity ≡ 8 }
{
    if !is_mentioned(named.as_slice(), object) {
        named.push_reserved(object);
    }
}

/// Keeps an item behind those that are kept.
fn keep<T: Copy + Default + Drop>(items: &mut SmallVec<T, 16>, item: T)
    requires capacity { items.old.capacity ≡ 16 }
    requires room { length items.old.items < 16 }
    ensures items { items.new.items ≡ items.old.items ++ item ∷ [] }
    ensures capacity { items.new.capacity ≡ 16 }
{
    items.push_reserved(item);
}

/// At most 16 operations on at most 8 objects, seen as their list.
#[derive(Drop)]
pub(crate) struct TxBuilder {
    ops: SmallVec<Op, 16>,
    named: SmallVec<ObjId, 8>,
}

impl Model for TxBuilder {
    ghost use Rattle.std.specs.Prelude.{List};
    ghost use Rattle.zeus_txn.specs.declared.ops.Op.{Op};

    ghost Value = { List Op };

    ghost use Rattle.script_lang.specs.Gathered.{IsGathered};

    ghost view = { λ o. o.ops.items };

    ghost invariant = { IsGathered };
}

impl TxBuilder {
    ghost use Rattle.script_lang.specs.Gathered.{takes_object};

    /// No operation.
    #[tactic(auto, unfolding(zeus_txn::specs::Ops::named, zeus_txn::specs::Ops::named_after))]
    pub(crate) fn new(alloc: Global) -> Self
        ensures { result ≡ [] }
    {
        TxBuilder {
            ops: SmallVec::new(alloc),
            named: SmallVec::new(alloc),
        }
    }

    /// Whether there is room for no further operation.
    pub(crate) fn is_full(&self) -> bool
        ensures full { result ≡ (length self.now == 16) }
        ensures few { length self.now ≤ 16 }
    {
        self.ops.len() == 16
    }

    /// Whether an operation on the object may follow: it is named already, or fewer than 8 are.
    #[tactic(auto, unfolding(crate::specs::Gathered::takes_object))]
    pub(crate) fn takes(&self, object: ObjId) -> bool
        ensures { result ≡ takes_object self.now object }
    {
        is_mentioned(self.named.as_slice(), object) || self.named.len() < 8
    }

    /// Adds an operation at the end.
    pub(crate) fn push(&mut self, op: &Op)
        requires room { length self.old < 16 }
        requires object { takes_object self.old (object_of op.now) ≡ true }
        ensures { self.new ≡ self.old ++ op.now ∷ [] }
    {
        note(&mut self.named, op.object());
        keep(&mut self.ops, *op);
    }

    /// The transaction with these operations.
    #[tactic(auto, unfolding(zeus_txn::specs::Tx::made_tx))]
    pub(crate) fn into_tx(self) -> Tx
        requires { 1 ≤ length self }
        ensures { result ≡ self }
    {
        Tx::new(*self.ops.allocator(), self.ops.as_slice()).unwrap()
    }
}
