//! The names of the objects that were declared.
ghost use Rattle.std.specs.Prelude.{◌≡◌, ◌<◌, ◌≤◌, ◌++◌, ◌∷◌, [], None, IfSome, IfOk, OnOk, length};
ghost use Rattle.script_lang.specs.Names.{find};

use indexmap::IndexSet;
use std::alloc::{AllocError, Global};
use std::marker::Model;
use zeus_model::{Name, Names};

/// The names that were declared, each of them once, seen as their list in order.
#[derive(Drop)]
pub(crate) struct NameIndex {
    names: IndexSet<Name>,
}

impl Model for NameIndex {
    ghost use Rattle.std.specs.Prelude.{List, ℕ, ◌≤◌, length};

    ghost Value = { List (List ℕ) };

    ghost view = { λ i. i.names.keys };

    ghost invariant = { λ i. length i.names.keys ≤ 256 };
}

impl NameIndex {
    /// No name.
    pub(crate) fn new(alloc: Global) -> Self
        ensures { result ≡ [] }
    {
        NameIndex {
            names: IndexSet::new(alloc),
        }
    }

    /// How many there are.
    pub(crate) fn len(&self) -> usize
        ensures count { result ≡ length self.now }
        ensures few { length self.now ≤ 256 }
    {
        self.names.len()
    }

    /// The place of a name, where it was declared.
    #[tactic(auto, using(crate::proofs::Naming::position_is_find))]
    pub(crate) fn find(&self, name: &Name) -> Option<usize>
        ensures place { result ≡ find self.now name.now }
        ensures within { IfSome result (λ place. place < length self.now) }
        ensures few { length self.now ≤ 256 }
    {
        self.names.get_index_of(name)
    }

    /// Adds a new name at the end.
    #[tactic(auto, using(crate::proofs::Naming::new_name))]
    pub(crate) fn push(&mut self, name: Name) -> Result<(), AllocError>
        requires new { find self.old name ≡ None }
        requires room { length self.old < 256 }
        ensures { OnOk result (self.new ≡ self.old ++ name ∷ []) }
    {
        self.names.insert(name)?;
        Ok(())
    }

    /// The names as a list of their own.
    pub(crate) fn to_names(&self, alloc: Global) -> Result<Names, AllocError>
        ensures { IfOk result (λ names. names ≡ self.now) }
    {
        Ok(Names::from_vec(Vec::from_slice(alloc, self.names.as_slice())?))
    }
}
