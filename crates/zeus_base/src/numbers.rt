//! The numbers by which nodes, slots, objects and transactions are named, each a type of its own.
ghost use Rattle.std.specs.Prelude.{◌≡◌};

use std::marker::Model;

/// A node, by its number from 0; below 8.
#[derive(Clone, Copy, Debug, Default, PartialEq, Eq, PartialOrd, Ord)]
pub struct NodeId(pub u8);

impl Model for NodeId {
    ghost use Rattle.std.specs.Prelude.{ℕ, ◌<◌};

    ghost Value = { ℕ };

    ghost view = { λ n. n.0 };

    ghost invariant = { λ n. n.0 < 8 };

    ghost inverse = { λ n. record { 0 = n } };
}

impl NodeId {
    /// Its place in a table by node.
    pub fn place(self) -> usize
        ensures { result ≡ self }
    {
        usize::from(self.0)
    }
}

/// A slot of a node, which is one worker's pipeline, by its number from 0; below 8.
#[derive(Clone, Copy, Debug, Default, PartialEq, Eq, PartialOrd, Ord)]
pub struct SlotId(pub u8);

impl Model for SlotId {
    ghost use Rattle.std.specs.Prelude.{ℕ, ◌<◌};

    ghost Value = { ℕ };

    ghost view = { λ s. s.0 };

    ghost invariant = { λ s. s.0 < 8 };

    ghost inverse = { λ n. record { 0 = n } };
}

impl SlotId {
    /// Its place in a table by slot.
    pub fn place(self) -> usize
        ensures { result ≡ self }
    {
        usize::from(self.0)
    }
}

/// An object, by its number from 0 in the order of declaration; below 256.
#[derive(Clone, Copy, Debug, Default, PartialEq, Eq, PartialOrd, Ord)]
pub struct ObjId(pub u16);

impl Model for ObjId {
    ghost use Rattle.std.specs.Prelude.{ℕ, ◌<◌};

    ghost Value = { ℕ };

    ghost view = { λ o. o.0 };

    ghost invariant = { λ o. o.0 < 256 };

    ghost inverse = { λ n. record { 0 = n } };
}

impl ObjId {
    /// Its place in a table by object.
    pub fn place(self) -> usize
        ensures { result ≡ self }
    {
        usize::from(self.0)
    }
}

/// A transaction of a script, by its number from 0 in the order of the script.
#[derive(Clone, Copy, Debug, Default, PartialEq, Eq, PartialOrd, Ord)]
pub struct TxId(pub u32);

impl Model for TxId {
    ghost use Rattle.std.specs.Prelude.{ℕ};

    ghost Value = { ℕ };

    ghost view = { λ t. t.0 };

    ghost inverse = { λ n. record { 0 = n } };
}

impl TxId {
    /// Its place in a table by transaction.
    pub fn place(self) -> usize
        ensures { result ≡ self }
    {
        self.0 as usize
    }
}
