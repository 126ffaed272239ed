//! What a call of a node sends and passes.
ghost use Rattle.std.specs.Prelude.{◌≡◌, ◌<◌, ◌≤◌, [], ◌∷◌, ◌++◌, length, nat_le, take, IfOk};
ghost use Rattle.node_state.specs.Effect.{IsCleared};

use std::alloc::Global;
use std::marker::Model;
use zeus_base::{NoMemory, Passed, push_copy};
use zeus_packet::Letter;

/// How many letters one call leaves at most.
const ROOM: usize = 64;

/// How many passes one call leaves at most: one for each of 8 own slots and for each stream of 8 nodes.
const PASSES: usize = 72;

/// The letters of one call in the order of sending, seen as a list; the first 64 of them.
#[derive(Debug, Drop)]
pub struct Letters {
    items: Vec<Letter>,
}

impl Model for Letters {
    ghost use Rattle.std.specs.Prelude.{List, ◌≤◌, length, vec_capacity};
    ghost use Rattle.zeus_packet.specs.declared.letter.Letter.{Letter};

    ghost Value = { List Letter };

    ghost view = { λ l. l.items.items };

    ghost invariant = { λ l. (64 ≤ vec_capacity l.items) × (length l.items.items ≤ 64) };
}

impl Letters {
    fn new(alloc: Global) -> Result<Letters, NoMemory>
        ensures { IfOk result (λ letters. letters ≡ []) }
    {
        let items = Vec::with_capacity(alloc, ROOM).map_err(|_| NoMemory)?;
        Ok(Letters { items })
    }

    /// The letters as a slice.
    pub fn as_slice(&self) -> &[Letter]
        ensures { result.now ≡ self.now }
    {
        self.items.as_slice()
    }

    /// How many there are; at most 64.
    pub fn len(&self) -> usize
        ensures count { result ≡ length self.now }
        ensures most { result ≤ 64 }
    {
        self.items.len()
    }

    /// Whether no further letter is kept.
    pub fn is_full(&self) -> bool
        ensures full { result ≡ nat_le 64 (length self.now) }
        ensures most { length self.now ≤ 64 }
    {
        self.items.len() >= ROOM
    }

    fn clear(&mut self)
        ensures { self.new ≡ [] }
    {
        self.items.clear();
    }

    /// Adds a letter; behind 64 it is lost, as a packet may be.
    pub(crate) fn push(&mut self, letter: Letter)
        ensures { self.new ≡ take 64 (self.old ++ letter ∷ []) }
    {
        if self.items.len() < ROOM {
            push_copy(&mut self.items, &letter);
        }
    }
}

/// The passes of one call in order, seen as a list.
#[derive(Debug, Drop)]
pub struct PassedList {
    items: Vec<Passed>,
}

impl Model for PassedList {
    ghost use Rattle.std.specs.Prelude.{List, ◌≤◌, length, vec_capacity};
    ghost use Rattle.zeus_base.specs.declared.step.Passed.{Passed};

    ghost Value = { List Passed };

    ghost view = { λ l. l.items.items };

    ghost invariant = { λ l. (72 ≤ vec_capacity l.items) × (length l.items.items ≤ 72) };
}

impl PassedList {
    fn new(alloc: Global) -> Result<PassedList, NoMemory>
        ensures { IfOk result (λ passes. passes ≡ []) }
    {
        let items = Vec::with_capacity(alloc, PASSES).map_err(|_| NoMemory)?;
        Ok(PassedList { items })
    }

    /// The passes as a slice.
    pub fn as_slice(&self) -> &[Passed]
        ensures { result.now ≡ self.now }
    {
        self.items.as_slice()
    }

    /// How many there are; at most 72.
    pub fn len(&self) -> usize
        ensures count { result ≡ length self.now }
        ensures most { result ≤ 72 }
    {
        self.items.len()
    }

    fn clear(&mut self)
        ensures { self.new ≡ [] }
    {
        self.items.clear();
    }

    /// Adds a pass, for which there is room.
    pub fn push(&mut self, passed: Passed)
        requires { length self.old < 72 }
        ensures { self.new ≡ self.old ++ passed ∷ [] }
    {
        self.items.push_reserved(passed);
    }
}

/// What one call of a node sends and passes. The memory for both is taken at once.
#[derive(Debug, Drop)]
pub struct Effect {
    /// The letters, in the order of sending.
    pub sent: Letters,
    /// The entries that passed, by stream in the order of passing.
    pub passed: PassedList,
}

impl Effect {
    /// An effect with room for 64 letters and 72 passes, and nothing in it; `NoMemory` if that room is not there.
    pub fn new(alloc: Global) -> Result<Effect, NoMemory>
        ensures { IfOk result IsCleared }
    {
        Ok(Effect {
            sent: Letters::new(alloc)?,
            passed: PassedList::new(alloc)?,
        })
    }

    /// Takes out all that is in it, and keeps the room.
    pub fn clear(&mut self)
        ensures { IsCleared self.new }
    {
        self.sent.clear();
        self.passed.clear();
    }
}
