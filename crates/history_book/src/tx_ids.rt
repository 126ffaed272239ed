//! Transactions in order, with room that is taken before they come.
ghost use Rattle.std.specs.Prelude.{◌≡◌, ◌<◌, ◌≤◌, ◌+◌, [], ◌∷◌, ◌++◌, IfOk, OnOk, length, slice_get};
ghost use Rattle.history_book.specs.Ids.{listed, one};

use std::alloc::Global;
use std::marker::Model;
use zeus_base::{NoMemory, TxId};

/// Transactions in order, seen as their list and the room for more.
#[derive(Debug, Drop)]
pub struct TxIds {
    items: Vec<TxId>,
}

impl Model for TxIds {
    ghost use Rattle.std.specs.Prelude.{◌-◌, vec_capacity, vec_len};
    ghost use Rattle.history_book.specs.Ids.{IdsState};

    ghost Value = { IdsState };

    ghost view = { λ l. record { ids = l.items.items; room = vec_capacity l.items - vec_len l.items } };
}

impl TxIds {
    /// No transactions yet, and no room.
    pub fn new(alloc: Global) -> TxIds
        ensures { result.ids ≡ [] }
    {
        TxIds {
            items: Vec::new(alloc),
        }
    }

    /// No transactions yet, and room for so many.
    ///
    /// # Errors
    /// `NoMemory` if the room is not there.
    pub fn with_room(alloc: Global, count: usize) -> Result<TxIds, NoMemory>
        ensures ids { IfOk result (λ l. l.ids ≡ []) }
        ensures room { IfOk result (λ l. count ≤ l.room) }
    {
        let items = Vec::with_capacity(alloc, count).map_err(|_| NoMemory)?;
        Ok(TxIds { items })
    }

    /// Makes room for so many transactions more. The list stays as it is, also at an error.
    ///
    /// # Errors
    /// `NoMemory` if memory ran out.
    pub fn reserve(&mut self, count: usize) -> Result<(), NoMemory>
        ensures ids { self.new.ids ≡ self.old.ids }
        ensures room { OnOk result (count ≤ self.new.room) }
    {
        self.items.reserve(count).map_err(|_| NoMemory)
    }

    /// Takes out all transactions; the room that they had is there again.
    pub fn clear(&mut self)
        ensures ids { self.new.ids ≡ [] }
        ensures room { self.old.room ≤ self.new.room }
    {
        self.items.clear();
    }

    /// The transactions as a slice.
    pub fn as_slice(&self) -> &[TxId]
        ensures { result.now ≡ self.now.ids }
    {
        self.items.as_slice()
    }

    /// How many there are.
    pub fn len(&self) -> usize
        ensures { result ≡ length self.now.ids }
    {
        self.items.len()
    }

    /// The transaction at a place from 0, if there is one.
    pub fn get(&self, place: u32) -> Option<TxId>
        ensures { result ≡ slice_get self.now.ids place }
    {
        self.items.get(place as usize).copied()
    }

    /// Adds a transaction, for which there is room.
    pub(crate) fn push(&mut self, id: TxId)
        requires { 0 < self.old.room }
        ensures ids { self.new.ids ≡ self.old.ids ++ id ∷ [] }
        ensures room { self.new.room + 1 ≡ self.old.room }
    {
        self.items.push_reserved(id);
    }

    /// Adds a transaction, for which there is room, if the test holds.
    #[tactic(auto, unfolding(crate::specs::Ids::listed, crate::specs::Ids::one))]
    pub(crate) fn push_if(&mut self, test: bool, id: TxId)
        requires { one test ≤ self.old.room }
        ensures ids { self.new.ids ≡ self.old.ids ++ listed test id }
        ensures room { self.new.room + one test ≡ self.old.room }
    {
        if test {
            self.push(id);
        }
    }
}
