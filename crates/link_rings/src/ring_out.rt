//! The end that puts.
ghost use Rattle.std.specs.Prelude.{◌≡◌, ◌+◌, ◌<◌, ◌≤◌, [], ◌∷◌, ◌++◌, IfErr, IsOk, OnOk, length};
ghost use Rattle.link_rings.specs.Ends.{LookedIn, LookedOut, SameOut};

use crate::item::Item;
use crate::ring_in::RingIn;
use crate::rule::{Rule, Under};
use rtrb::{Producer, PushError};
use std::alloc::Global;
use std::marker::Model;

/// An item that found no place, handed back.
#[derive(Debug, Drop, PartialEq, Eq)]
pub struct Full<T>(pub T);

/// The end of a ring that puts. It can move to another thread.
///
/// A clause sees it as an `Out`: its ring, the head, all that was put, how many places are known to be free, and how many
/// there are. So many can be put before the ring can be full: each item that was taken leaves its place.
#[derive(Drop)]
pub struct RingOut<H: Drop, T: Drop, R: Rule<H, T>> {
    pub(crate) end: Producer<Item<H, T>, Global, Under<R>>,
    pub(crate) head: H,
}

impl<H: Drop, T: Drop, R: Rule<H, T>> Model for RingOut<H, T, R> {
    ghost use Rattle.link_rings.specs.Ends.{Out};

    ghost Value = { Out H T };

    ghost use Rattle.std.specs.Prelude.{◌≡◌, ◌+◌, ◌<◌, ◌≤◌, length};
    ghost use Rattle.rtrb.specs.Ring.{known_free, producer_capacity, sent};
    ghost use Rattle.link_rings.specs.Items.{IsHeaded, carried};
    ghost use Rattle.link_rings.specs.Views.{out_view};

    ghost view = { λ r. out_view r.end r.head };

    ghost invariant = { λ r. IsHeaded r.head (sent r.end) × (producer_capacity r.end ≤ known_free r.end + length (carried (sent r.end))) };
}

impl<H: Drop, T: Drop, R: Rule<H, T>> RingOut<H, T, R> {
    #[tactic(auto, using(crate::proofs::Heads::carried_next, crate::proofs::Heads::headed_next, crate::proofs::Heads::headed_length, crate::proofs::Heads::allowed_next, crate::proofs::Heads::one_head))]
    /// Puts an item that keeps the rule behind all that was put. It takes no memory, and waits for nobody.
    ///
    /// # Errors
    ///
    /// `Full` where no place is free: it hands the item back, and nothing is put. It does not come where a place is known to
    /// be free, and not before as many items were put as there are places.
    pub fn put(&mut self, item: T) -> Result<(), Full<T>>
        requires keeps { R.keeps self.old.head self.old.put item }
        ensures same { SameOut self.old self.new }
        ensures put { OnOk result (self.new.put ≡ self.old.put ++ item ∷ []) }
        ensures free { OnOk result (self.old.free ≤ self.new.free + 1) }
        ensures back { IfErr result (λ e. e.0 ≡ item) }
        ensures kept { IfErr result (λ e. self.new.put ≡ self.old.put) }
        ensures full { IfErr result (λ e. self.new.free ≡ 0) }
        ensures succeeds { 0 < self.old.free → IsOk result }
        ensures never_full { length self.old.put < self.old.room → IsOk result }
    {
        match self.end.push(Item::Carried(item)) {
            Ok(()) => Ok(()),
            Err(PushError::Full(Item::Carried(back))) => Err(Full(back)),
            Err(PushError::Full(Item::Head(_))) => unreachable!(),
        }
    }

    /// The head that both ends know.
    pub fn head(&self) -> &H
        ensures { result.now ≡ self.now.head }
    {
        &self.head
    }

    #[tactic(auto, using(crate::proofs::Heads::headed_length, crate::proofs::Heads::front_prefix))]
    /// Looks at the other end of the same ring: every place that holds no item is then known to be free.
    pub fn meet_to_put(&mut self, other: &mut RingIn<H, T, R>)
        requires pair { self.old.ring ≡ other.old.ring }
        ensures looked { LookedOut self.old self.new }
        ensures other { LookedIn other.old other.new }
        ensures all_free { self.new.free + length self.new.put ≡ self.new.room + length other.new.taken }
    {
        self.end.slots_beside(&mut other.end);
    }
}
