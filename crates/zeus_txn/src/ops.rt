//! The operations of a transaction.
ghost use Rattle.std.specs.Prelude.{◌≡◌};
ghost use Rattle.zeus_txn.specs.Ops.{object_of, stores};

use zeus_base::{ObjId, Value};

/// One operation, on one object.
#[derive(Clone, Copy, Debug, PartialEq, Eq)]
pub enum Op {
    /// Gives the value to the reply.
    Get(ObjId),
    /// Stores the value.
    Put(ObjId, Value),
    /// Adds to the number, modulo 2^64, and gives the sum; fails at a text.
    Add(ObjId, u64),
    /// Fails at a text, and at a number below this one.
    Need(ObjId, u64),
    /// Fails where the value is another.
    Same(ObjId, Value),
}

impl Default for Op {
    /// `get` of the object 0; a list keeps its free places so.
    fn default() -> Op {
        Op::Get(ObjId::default())
    }
}

impl Op {
    /// The object that it is on.
    #[tactic(auto, unfolding(crate::specs::Ops::object_of))]
    pub fn object(&self) -> ObjId
        ensures { result ≡ object_of self.now }
    {
        match self {
            Op::Get(obj) => *obj,
            Op::Put(obj, _) => *obj,
            Op::Add(obj, _) => *obj,
            Op::Need(obj, _) => *obj,
            Op::Same(obj, _) => *obj,
        }
    }

    /// Whether it stores, as puts and adds do.
    #[tactic(auto, unfolding(crate::specs::Ops::stores))]
    pub fn stores(&self) -> bool
        ensures { result ≡ stores self.now }
    {
        matches!(self, Op::Put(_, _) | Op::Add(_, _))
    }
}
