//! The ownership protocol of one object is safe: what is decided is one chain of placements, and who owns is at its end.
//!
//! The functions do nothing. Their contracts are the theorems, over the definitions in `specs/`: `Object` is all that the nodes know
//! and have said of one object, `Moves` what may happen to it, and `OwnershipInvariant` what holds of it at every moment.
#![tactic(auto)]

ghost use Rattle.std.specs.Prelude.{ℕ, ◌≡◌, ◌≢◌, true, false, List, [], length, Option, ◌⊎◌};
ghost use Rattle.zeus_base.specs.Nodes.{has};
ghost use Rattle.zeus_base.specs.Order.{is_below};
ghost use Rattle.zeus_base.specs.declared.order.Stamp.{Stamp};
ghost use Rattle.zeus_packet.specs.Place.{new_place};
ghost use Rattle.zeus_packet.specs.declared.place.Place.{Place};
ghost use Rattle.zeus_packet.specs.declared.place.Proposal.{Proposal};
ghost use Rattle.zeus_packet.specs.declared.write.Content.{Content};
ghost use Rattle.zeus_model.specs.declared.state.Gather.{Gather};
ghost use Rattle.ownership_safety.specs.Object.{Object, Invalidates, Acknowledges, Validates, In, IsLive, IsArbiter};
ghost use Rattle.ownership_safety.specs.Object.{IsOwner, IsSaid, IsChosen, HasGiven, view, latest, chain_stamp};
ghost use Rattle.ownership_safety.specs.Moves.{NewView, Stops, Installs, Settles, Drives, Accepts, Redrives, Notes, Decides, Tells};
ghost use Rattle.ownership_safety.specs.OwnershipInvariant.{OwnershipInvariant};
ghost use Rattle.ownership_safety.specs.Kept.{IsStart, Grows, Rises, IsAgain, IsFirst};
ghost use Rattle.ownership_safety.specs.Run.{IsMove, IsReached, IsRun};

/// What is in order in the beginning stays so, whatever move is made: only the first decision of a proposal makes the chain longer.
pub fn order_kept()
    ensures start { (o : Object) → IsStart o → OwnershipInvariant o [] }
    ensures new_view { (old new : Object) (chain : List Proposal) (set : List ℕ) → OwnershipInvariant old chain → NewView old new set
        → OwnershipInvariant new chain }
    ensures stops { (old new : Object) (chain : List Proposal) (n : ℕ) → OwnershipInvariant old chain → Stops old new n → OwnershipInvariant new chain }
    ensures installs { (old new : Object) (chain : List Proposal) (n e : ℕ) → OwnershipInvariant old chain → Installs old new n e
        → OwnershipInvariant new chain }
    ensures settles { (old new : Object) (chain : List Proposal) (n u : ℕ) → OwnershipInvariant old chain → Settles old new chain n u
        → OwnershipInvariant new chain }
    ensures drives { (old new : Object) (chain : List Proposal) (n : ℕ) (p : Proposal) → OwnershipInvariant old chain → Drives old new n p
        → OwnershipInvariant new chain }
    ensures accepts { (old new : Object) (chain : List Proposal) (n : ℕ) (p : Proposal) → OwnershipInvariant old chain → Accepts old new n p
        → OwnershipInvariant new chain }
    ensures redrives { (old new : Object) (chain : List Proposal) (n : ℕ) (p : Proposal) → OwnershipInvariant old chain → Redrives old new n p
        → OwnershipInvariant new chain }
    ensures notes { (old new : Object) (chain : List Proposal) (n a : ℕ) (p : Proposal) (c : Option Content) → OwnershipInvariant old chain
        → Notes old new n p a c → OwnershipInvariant new chain }
    ensures decides { (old new : Object) (chain : List Proposal) (n : ℕ) (g : Gather) → OwnershipInvariant old chain → Decides old new n g
        → IsAgain old new chain n g.proposal ⊎ IsFirst old new chain n g.proposal }
    ensures tells { (old new : Object) (chain : List Proposal) (n : ℕ) → OwnershipInvariant old chain → Tells old new n → OwnershipInvariant new chain }
    ensures run { (old new : Object) (chain longer : List Proposal) → OwnershipInvariant old chain → IsRun old chain new longer
        → OwnershipInvariant new longer }
{}

/// A move takes nothing back: letters and stops stay, and epochs, ranks and settled stamps do not fall.
pub fn nothing_falls()
    ensures one { (old new : Object) (chain longer : List Proposal) → OwnershipInvariant old chain → IsMove old new chain longer → Grows old new }
    ensures run { (old new : Object) (chain longer : List Proposal) → OwnershipInvariant old chain → IsRun old chain new longer → Rises old new }
{}

/// Whatever moves were made from the beginning on, in whatever epochs: of each version at most one proposal is ever chosen.
pub fn agreement()
    ensures { (o : Object) (chain : List Proposal) (p q : Proposal) (e f : ℕ) → IsReached o chain → IsChosen o p e → IsChosen o q f
        → p.stamp.ver ≡ q.stamp.ver → p ≡ q }
{}

/// Whatever moves were made from the beginning on: at most one live node owns the object, and it has settled the latest placement.
pub fn one_owner()
    ensures one { (o : Object) (chain : List Proposal) (n m : ℕ) → IsReached o chain → IsOwner o n → IsOwner o m → n ≡ m }
    ensures at_end { (o : Object) (chain : List Proposal) (n : ℕ) → IsReached o chain → IsOwner o n → (o.entry n).place ≡ latest o chain }
    ensures unasked { (o : Object) (chain : List Proposal) (n a e : ℕ) (p : Proposal) (c : Content) → IsReached o chain → IsOwner o n
        → p.base.ver ≡ length chain → HasGiven o a p c e → ⊥ }
{}

/// What a live node knows of a letter of its epoch: who is asked is an arbiter, who collects is the requester unless that is no
/// member, and no settled placement makes a node the owner that was not named so before.
pub fn letters_fit()
    ensures arbiter { (o : Object) (chain : List Proposal) (from n : ℕ) (p : Proposal) → IsReached o chain
        → In (Invalidates from n (o.epoch n) p) o.letters → IsArbiter o (o.epoch n) p.base_place n }
    ensures collector { (o : Object) (chain : List Proposal) (a n : ℕ) (p : Proposal) (c : Option Content) → IsReached o chain
        → In (Acknowledges a n (o.epoch n) p c) o.letters → (p.requester ≡ n) ⊎ (has p.requester (view o (o.epoch n)) ≡ false) }
    ensures base { (o : Object) (chain : List Proposal) (n e : ℕ) (p : Proposal) → IsReached o chain → IsLive o n → IsSaid o p e
        → is_below (o.entry n).stamp p.base ≡ true → p.base_place.owner ≡ n → (o.entry n).place.owner ≡ n }
    ensures told { (o : Object) (chain : List Proposal) (n : ℕ) (t : Stamp) (place : Place) → IsReached o chain → IsLive o n
        → In (Validates t place) o.letters → is_below (o.entry n).stamp t ≡ true → place.owner ≡ n → (o.entry n).place.owner ≡ n }
    ensures taken_over { (o : Object) (chain : List Proposal) (a n : ℕ) (p : Proposal) (c : Option Content) → IsReached o chain → IsLive o n
        → In (Acknowledges a n (o.epoch n) p c) o.letters → is_below (o.entry n).stamp p.base ≡ false → is_below (o.entry n).stamp p.stamp ≡ true
        → (new_place p).owner ≡ n → p.requester ≢ n → (o.entry n).place.owner ≡ n }
{}

/// The rules can be met: some moves from the beginning on decide a proposal.
pub fn rules_can_be_met()
    ensures { (o : Object) × (chain : List Proposal) × IsReached o chain × (length chain ≡ 1) }
{}
