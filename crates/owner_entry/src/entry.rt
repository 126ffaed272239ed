//! The entry of one object: whether its node owns the object, and how the entry settles and holds proposals.
ghost use Rattle.std.specs.Prelude.{◌≡◌, ℕ, not};
ghost use Rattle.zeus_base.specs.Order.{is_below};
ghost use Rattle.zeus_model.specs.Ownership.{greater_cause, holding, is_held, proposal_above, settle};
ghost use Rattle.zeus_model.specs.State.{Node, entry, owns};
ghost use Rattle.owner_entry.specs.Acceptance.{cause_of, on_proposal, outcome_of};

use zeus_base::{NodeId, Stamp};
use zeus_model::Entry;
use zeus_packet::{Place, Proposal};

/// What becomes of a proposal.
#[derive(Clone, Copy, Debug, PartialEq, Eq)]
pub enum Accept {
    /// It is held now.
    Held,
    /// It was held already, the same in each field.
    HeldBefore,
    /// A proposal with this greater stamp is held.
    Older(Stamp),
    /// This stamp is settled, and the proposal's is not above it.
    Settled(Stamp),
}

/// What a node does with its entry of an object. Each clause speaks of every node that has this entry, so of the one
/// that the entry is from. No call takes memory.
pub trait OwnerEntry {
    ghost use Rattle.zeus_model.specs.declared.state.Entry.{Entry};

    /// The entry that it is.
    ghost known: { Self → Entry };

    /// Whether the node `me` owns the object: the settled placement names it as owner, and no proposal is held.
    fn owns(&self, me: NodeId) -> bool
        ensures { (n : Node) (x : ℕ) → entry n x ≡ known self.now → n.me ≡ me → result ≡ owns n x };

    /// Settles a stamp and its placement where the stamp is above the settled one, and drops a held proposal that is
    /// not above it. Else nothing changes, and the answer is false.
    fn settle(&mut self, stamp: Stamp, place: Place) -> bool
        ensures above { result ≡ is_below (known self.old).stamp stamp }
        ensures after { (n : Node) (x : ℕ) → entry n x ≡ known self.old → known self.new ≡ entry (settle n x stamp place) x };

    /// Holds a proposal, in place of a lesser one, where its stamp is above the settled one and no proposal with a
    /// greater stamp is held. Else nothing changes, and the answer has the stamp that stands against it, the settled
    /// one first.
    fn accept(&mut self, p: &Proposal) -> Accept
        ensures answer { (n : Node) (from x : ℕ) → entry n x ≡ known self.old → outcome_of result ≡ (on_proposal n from x p.now).answer }
        ensures after { (n : Node) (from x : ℕ) → entry n x ≡ known self.old → known self.new ≡ entry (on_proposal n from x p.now).node x };

    /// Holds a proposal in place of any other, whatever their stamps. True exactly where this one was not held.
    fn hold(&mut self, p: &Proposal) -> bool
        ensures new { result ≡ not (is_held p.now (known self.old).proposal) }
        ensures after { (n : Node) (x : ℕ) → entry n x ≡ known self.old → known self.new ≡ entry (holding n x p.now) x };
}

impl OwnerEntry for Entry {
    ghost known = { λ e. e };

    fn owns(&self, me: NodeId) -> bool {
        self.place.owner == me && self.proposal.is_none()
    }

    fn settle(&mut self, stamp: Stamp, place: Place) -> bool {
        let stamp = &stamp;
        if !self.stamp.is_below(*stamp) {
            return false;
        }
        let proposal = proposal_above(stamp, &self.proposal);
        *self = Entry {
            stamp: *stamp,
            place,
            proposal,
        };
        true
    }

    fn accept(&mut self, p: &Proposal) -> Accept {
        if !self.stamp.is_below(p.stamp) {
            return Accept::Settled(self.stamp);
        }
        if let Some(stamp) = greater_stamp(p.stamp, &self.proposal) {
            return Accept::Older(stamp);
        }
        if self.hold(p) {
            Accept::Held
        } else {
            Accept::HeldBefore
        }
    }

    fn hold(&mut self, p: &Proposal) -> bool {
        let before = is_held(p, &self.proposal);
        self.proposal = Some(*p);
        !before
    }
}

/// The held proposal, where its stamp is above this one.
#[tactic(auto, unfolding(zeus_model::specs::Ownership::proposal_above, zeus_model::specs::Tables::where_true))]
fn proposal_above(stamp: &Stamp, held: &Option<Proposal>) -> Option<Proposal>
    ensures { result ≡ proposal_above stamp.now held.now }
{
    match held {
        None => None,
        Some(held) => {
            if stamp.is_below(held.stamp) {
                Some(*held)
            } else {
                None
            }
        }
    }
}

/// The stamp of a held proposal that is above this one.
#[tactic(auto, unfolding(crate::specs::Acceptance::cause_of, zeus_model::specs::Ownership::greater_cause, zeus_model::specs::Tables::where_true))]
fn greater_stamp(stamp: Stamp, held: &Option<Proposal>) -> Option<Stamp>
    ensures { cause_of result ≡ greater_cause stamp held.now }
{
    match held {
        None => None,
        Some(held) => {
            if stamp.is_below(held.stamp) {
                Some(held.stamp)
            } else {
                None
            }
        }
    }
}

/// Whether this proposal is held.
#[tactic(auto, unfolding(zeus_model::specs::Ownership::is_held))]
fn is_held(p: &Proposal, held: &Option<Proposal>) -> bool
    ensures { result ≡ is_held p.now held.now }
{
    match held {
        None => false,
        Some(held) => p == held,
    }
}
