//! An own slot: its current transaction, and the entries of its stream that wait.
ghost use Rattle.std.specs.Prelude.{◌≡◌, IfOk, replicate};
ghost use Rattle.zeus_model.specs.Membership.{names_it};
ghost use Rattle.zeus_model.specs.Ownership.{keeps};
ghost use Rattle.zeus_model.specs.State.{no_slot};
ghost use Rattle.zeus_txn.specs.Ops.{mentions, named};

use commit_pipeline::Pipe;
use std::alloc::Global;
use std::marker::Model;
use zeus_base::{NoMemory, ObjId};
use zeus_model::Current;
use zeus_txn::Tx;

/// An own slot, seen as the slot of the rules: its current transaction, how many of its entries have passed, and the
/// pending ones behind these.
#[derive(Debug, Drop)]
pub struct Slot {
    pub(crate) current: Option<Current>,
    pub(crate) pipe: Pipe,
}

impl Model for Slot {
    ghost use Rattle.zeus_model.specs.State.{Slot};

    ghost Value = { Slot };

    ghost view = { λ s. record { current = s.current; done = s.pipe.done; pending = s.pipe.pending } };
}

impl Slot {
    /// A free slot whose stream has no entry.
    fn new(alloc: Global) -> Result<Slot, NoMemory>
        ensures { IfOk result (λ slot. slot ≡ no_slot) }
    {
        Ok(Slot {
            current: None,
            pipe: Pipe::new(alloc)?,
        })
    }

    /// Whether the slot's current transaction is a write transaction that names the object.
    #[tactic(auto, unfolding(zeus_model::specs::Ownership::keeps))]
    pub(crate) fn keeps(&self, obj: ObjId) -> bool
        ensures { result ≡ keeps obj self.now.current }
    {
        match &self.current {
            None => false,
            Some(current) => current.tx.is_write() && names(&current.tx, obj),
        }
    }

    /// Whether the slot's current transaction names the object.
    #[tactic(auto, unfolding(zeus_model::specs::Membership::names_it))]
    pub(crate) fn wants(&self, obj: ObjId) -> bool
        ensures { result ≡ names_it obj self.now.current }
    {
        match &self.current {
            None => false,
            Some(current) => names(&current.tx, obj),
        }
    }
}

/// So many slots at the start of a run.
pub(crate) fn start_slots(alloc: Global, count: u8) -> Result<Vec<Slot>, NoMemory>
    ensures { IfOk result (λ slots. slots.items ≡ replicate count no_slot) }
{
    let mut slots = Vec::with_capacity(alloc, usize::from(count)).map_err(|_| NoMemory)?;
    for _slot in 0..count {
        slots.push_reserved(Slot::new(alloc)?);
    }
    Ok(slots)
}

/// Whether the transaction names the object.
pub(crate) fn names(tx: &Tx, obj: ObjId) -> bool
    ensures { result ≡ mentions obj (named tx.now) }
{
    tx.named().as_slice().contains(&obj)
}
