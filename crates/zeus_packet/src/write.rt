//! Writes of objects, and the content of a copy.
ghost use Rattle.std.specs.Prelude.{◌≡◌, ◌<◌, ◌≤◌, ◌↔◌, ◌∷◌, ◌++◌, [], IsTrue, length, option_copied, slice_get};

use std::alloc::Global;
use std::marker::Model;
use zeus_base::{ObjId, Value};

/// A value of an object with the version that it makes.
#[derive(Clone, Copy, Debug, Default, PartialEq, Eq)]
pub struct Write {
    pub obj: ObjId,
    pub ver: u64,
    pub value: Value,
}

/// What a copy holds.
#[derive(Clone, Copy, Debug, Default, PartialEq, Eq)]
pub struct Content {
    pub ver: u64,
    pub value: Value,
}

// What stands in a place without a write.
const NO_WRITE: Write = Write {
    obj: ObjId(0),
    ver: 0,
    value: Value::Num(0),
};

/// The writes of a transaction, each object once; at most 8, kept inline, seen as a list.
#[derive(Clone, Copy, Debug)]
pub struct Writes {
    len: u8,
    items: [Write; 8],
}

impl Model for Writes {
    ghost use Rattle.std.specs.Prelude.{List, take};
    ghost use Rattle.zeus_packet.specs.Kept.{IsKept, kept_writes, kept_writes-take};
    ghost use Rattle.zeus_packet.specs.declared.write.Write.{Write};

    ghost Value = { List Write };

    ghost view = { λ w. take w.len w.items };

    ghost invariant = { IsKept };

    ghost inverse = { kept_writes };

    ghost inverse_ok = { kept_writes-take };
}

impl Writes {
    /// No write.
    pub fn new(_alloc: Global) -> Writes
        ensures { result ≡ [] }
    {
        Writes {
            len: 0,
            items: [NO_WRITE; 8],
        }
    }

    /// Adds a write at the end.
    pub fn push(&mut self, write: Write)
        requires { length self.old < 8 }
        ensures { self.new ≡ self.old ++ write ∷ [] }
    {
        self.items[self.len as usize] = write;
        self.len += 1;
    }

    /// The writes as a slice.
    pub fn as_slice(&self) -> &[Write]
        ensures { result.now ≡ self.now }
    {
        &self.items[..self.len as usize]
    }

    /// How many there are.
    pub fn len(&self) -> usize
        ensures value { result ≡ length self.now }
        ensures few { result ≤ 8 }
    {
        self.len as usize
    }

    /// Whether there is none.
    pub fn is_empty(&self) -> bool
        ensures { IsTrue result ↔ (self.now ≡ []) }
    {
        self.as_slice().is_empty()
    }

    /// The write at this place from 0, where there is one.
    pub fn get(&self, place: usize) -> Option<&Write>
        ensures { option_copied result ≡ slice_get self.now place }
    {
        self.as_slice().get(place)
    }

    /// The same writes once more.
    pub fn duplicate(&self) -> Writes
        ensures { result ≡ self.now }
    {
        *self
    }
}
