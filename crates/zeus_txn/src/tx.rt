//! Transactions as they are declared.
ghost use Rattle.std.specs.Prelude.{◌≡◌, ◌≤◌, ◌∷◌, [], length, nat_lt, None, Some, if◌then◌else◌};
ghost use Rattle.std.specs.List.{list_any};
ghost use Rattle.zeus_txn.specs.Ops.{is_write, mentions, named, stores, written, written_after};
ghost use Rattle.zeus_txn.specs.Tx.{IsTx, made_tx};

use crate::lists::Named;
use crate::ops::Op;
use smallvec::SmallVec;
use std::alloc::Global;
use std::marker::Model;
use thiserror::Error;
use zeus_base::{List, NodeId, ObjId, SlotId, TxId};

/// A transaction: 1 to 16 operations on at most 8 objects, seen as the list of its operations.
#[derive(Debug, Drop)]
pub struct Tx {
    ops: SmallVec<Op, 16>,
}

impl Model for Tx {
    ghost use Rattle.std.specs.Prelude.{List, ◌≡◌};
    ghost use Rattle.zeus_txn.specs.declared.ops.Op.{Op};

    ghost Value = { List Op };

    ghost use Rattle.zeus_txn.specs.Tx.{IsTx};

    ghost view = { λ t. t.ops.items };

    ghost invariant = { λ t. (t.ops.capacity ≡ 16) × IsTx t.ops.items };
}

impl Tx {
    /// The transaction of these operations.
    ///
    /// # Errors
    /// The first fault that applies.
    #[tactic(auto, unfolding(crate::specs::Tx::made_tx))]
    pub fn new(alloc: Global, ops: &[Op]) -> Result<Tx, TxFault>
        ensures { result ≡ made_tx ops.now }
    {
        if ops.is_empty() {
            return Err(TxFault::Empty);
        }
        if ops.len() > 16 {
            return Err(TxFault::ManyOps);
        }
        if named(alloc, ops).is_none() {
            return Err(TxFault::ManyObjects);
        }
        Ok(Tx {
            ops: SmallVec::from_slice(alloc, ops).unwrap(),
        })
    }

    /// The operations in order.
    pub fn ops(&self) -> &[Op]
        ensures list { result.now ≡ self.now }
        ensures limits { IsTx self.now }
    {
        self.ops.as_slice()
    }

    /// Whether it has a put or an add, whether or not it fails.
    pub fn is_write(&self) -> bool
        ensures { result ≡ is_write self.now }
    {
        is_write(self.ops.as_slice())
    }

    /// The objects that it names, in the order of first naming.
    pub fn named(&self) -> Named
        ensures { result ≡ named self.now }
    {
        named(*self.ops.allocator(), self.ops.as_slice()).unwrap()
    }

    /// The objects that its puts and adds name, in the order of first naming by one of these.
    pub fn written(&self) -> Named
        ensures { result ≡ written self.now }
    {
        let mut all = Named::new(self.allocator());
        let ops = self.ops();
        for op in ops {
            add_written(&mut all, op);
        }
        all
    }

    /// The allocator that its lists are made with.
    pub fn allocator(&self) -> Global {
        *self.ops.allocator()
    }

    /// The same transaction once more, without memory.
    pub fn duplicate(&self) -> Tx
        ensures { result ≡ self.now }
    {
        Tx {
            ops: SmallVec::from_slice(*self.ops.allocator(), self.ops.as_slice()).unwrap(),
        }
    }
}

// Whether an operation stores.
fn is_write(ops: &[Op]) -> bool
    ensures { result ≡ list_any stores ops.now }
{
    ops.iter().any(|op| op.stores())
}

// The objects that the operations name, in the order of first naming, where there are at most 8.
fn named(alloc: Global, ops: &[Op]) -> Option<Named>
    ensures { result ≡ (if nat_lt 8 (length (named ops.now)) then None else Some (named ops.now)) }
{
    let mut all = Named::new(alloc);
    for op in ops {
        let obj = op.object();
        if !mentions(obj, all.as_slice()) {
            if all.len() == 8 {
                return None;
            }
            all.push(obj);
        }
    }
    Some(all)
}

// Adds the object of an operation that stores, where it is new.
#[tactic(auto, unfolding(crate::specs::Ops::mentioned, crate::specs::Ops::written_after))]
fn add_written(all: &mut Named, op: &Op)
    requires { length (written_after all.old (op.now ∷ [])) ≤ 8 }
    ensures { all.new ≡ written_after all.old (op.now ∷ []) }
{
    let obj = op.object();
    if op.stores() && !mentions(obj, all.as_slice()) {
        all.push(obj);
    }
}

// Whether the object is in the list.
fn mentions(obj: ObjId, all: &[ObjId]) -> bool
    ensures { result ≡ mentions obj all.now }
{
    all.contains(&obj)
}

/// Why operations are no transaction; the first that applies.
#[derive(Clone, Copy, Debug, PartialEq, Eq, Error)]
pub enum TxFault {
    /// No operation.
    #[error("a transaction has at least one operation")]
    Empty,
    /// More than 16 operations.
    #[error("a transaction has at most 16 operations")]
    ManyOps,
    /// More than 8 objects.
    #[error("a transaction names at most 8 objects")]
    ManyObjects,
}

/// A transaction with the place where it is to run.
#[derive(Debug, Drop)]
pub struct TxDecl {
    pub node: NodeId,
    pub slot: SlotId,
    /// The earlier transaction whose acknowledgement it waits for.
    pub after: Option<TxId>,
    pub tx: Tx,
}

/// The transactions of a script in order.
pub type TxList = List<TxDecl>;
