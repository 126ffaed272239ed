//! The end that takes.
ghost use Rattle.std.specs.Prelude.{◌≡◌, ◌<◌, ◌↔◌, [], ◌∷◌, ◌++◌, IfSome, IsNone, IsSome, IsTrue, length};
ghost use mathlib.Core.List.{IsPrefix};
ghost use Rattle.link_rings.specs.Ends.{LookedIn, LookedOut, SameIn};

use crate::item::Item;
use crate::ring_out::RingOut;
use crate::rule::{Rule, Under};
use rtrb::Consumer;
use std::alloc::Global;
use std::marker::Model;

/// The end of a ring that takes. It can move to another thread.
///
/// A clause sees it as an `In`: its ring, the head, all that was taken, what is known to lie in the ring, and how many
/// places there are. What was taken keeps the rule.
#[derive(Drop)]
pub struct RingIn<H: Drop, T: Drop, R: Rule<H, T>> {
    pub(crate) end: Consumer<Item<H, T>, Global, Under<R>>,
    pub(crate) head: H,
}

impl<H: Drop, T: Drop, R: Rule<H, T>> Model for RingIn<H, T, R> {
    ghost use Rattle.link_rings.specs.Ends.{In};

    ghost Value = { In H T };

    ghost use Rattle.rtrb.specs.Ring.{received};
    ghost use Rattle.link_rings.specs.Items.{IsHeaded};
    ghost use Rattle.link_rings.specs.Views.{in_view};

    ghost view = { λ r. in_view r.end r.head };

    ghost invariant = { λ r. IsHeaded r.head (received r.end) };
}

impl<H: Drop, T: Drop, R: Rule<H, T>> RingIn<H, T, R> {
    #[tactic(auto, using(crate::proofs::Heads::carried_next, crate::proofs::Heads::headed_next, crate::proofs::Heads::kept_next, crate::proofs::Heads::one_head, crate::proofs::Heads::front_prefix))]
    /// Takes the oldest item, of which the rule then holds, or none where the ring is empty. It waits for nobody.
    pub fn take(&mut self) -> Option<T>
        ensures same { SameIn self.old self.new }
        ensures taken { IfSome result (λ x. self.new.taken ≡ self.old.taken ++ x ∷ []) }
        ensures known { IfSome result (λ x. IsPrefix self.old.known (x ∷ self.new.known)) }
        ensures keeps { IfSome result (λ x. R.keeps self.old.head self.old.taken x) }
        ensures kept { IsNone result → self.new.taken ≡ self.old.taken }
        ensures empty { IsNone result → self.new.known ≡ [] }
        ensures succeeds { 0 < length self.old.known → IsSome result }
    {
        match self.end.pop() {
            Ok(Item::Carried(item)) => Some(item),
            Ok(Item::Head(_)) => unreachable!(),
            Err(_) => None,
        }
    }

    /// The head that both ends know.
    pub fn head(&self) -> &H
        ensures { result.now ≡ self.now.head }
    {
        &self.head
    }

    /// Looks whether there is an item to take. It is then known.
    pub fn look(&mut self) -> bool
        ensures looked { LookedIn self.old self.new }
        ensures value { IsTrue result ↔ (0 < length self.new.known) }
    {
        if self.end.slots() == 0 {
            return false;
        }
        match self.end.peek_known() {
            Item::Carried(_) => true,
            Item::Head(_) => false,
        }
    }

    /// The oldest item that is known to lie in the ring, left there.
    pub fn front(&self) -> &T
        requires known { 0 < length self.now.known }
        ensures { IsPrefix (result.now ∷ []) self.now.known }
    {
        match self.end.peek_known() {
            Item::Carried(item) => item,
            Item::Head(_) => unreachable!(),
        }
    }

    #[tactic(auto, using(crate::proofs::Heads::front_prefix, crate::proofs::Heads::met, crate::proofs::Heads::met_heads))]
    /// Looks at the other end of the same ring: what was taken and what is known are then all that was put.
    pub fn meet(&mut self, other: &mut RingOut<H, T, R>)
        requires pair { self.old.ring ≡ other.old.ring }
        ensures looked { LookedIn self.old self.new }
        ensures other { LookedOut other.old other.new }
        ensures heads { self.new.head ≡ other.new.head }
        ensures all_known { self.new.taken ++ self.new.known ≡ other.new.put }
    {
        self.end.slots_beside(&mut other.end);
    }
}
