//! Ownership at a node: what becomes of its entries, its gathers and its copies, and what it gives as a source.
ghost use Rattle.std.specs.Prelude.{◌≡◌, ◌<◌, not, true, length};
ghost use Rattle.zeus_packet.specs.Fits.{content_fits, place_fits, proposal_fits, stamp_fits};
ghost use Rattle.zeus_model.specs.Ownership.{bring, drive_cause, driven, holding, is_held, is_source};
ghost use Rattle.zeus_model.specs.Ownership.{keeper, own_content, settle, source_cause, takes_over, unready_cause};
ghost use Rattle.zeus_model.specs.State.{entry, gather, with_gather};
ghost use Rattle.arbitration.specs.Gathering.{ack_at, decision_of, gathered};
ghost use Rattle.arbitration.specs.Giving.{told_cause};
ghost use Rattle.directory.specs.Driving.{answered};
ghost use Rattle.node_ranges.specs.Ranges.{KeepsRanges, limits_of};

use crate::state::NodeState;
use arbitration::{Ack, Decision, GiveUp, give_up};
use directory::{Drive, Drives};
use zeus_base::{NodeId, ObjId, SlotId, Stamp};
use zeus_packet::{Cause, Content, Place, Proposal, Want, source};

impl NodeState {
    /// Settles a stamp and its placement of the object if the stamp is above the settled one, and then drops a held
    /// proposal and a gather that are not above it. Else nothing changes.
    pub fn settle(&mut self, obj: ObjId, stamp: Stamp, place: Place)
        requires object { obj < length self.old.entries }
        requires stamp { stamp_fits (limits_of self.old) stamp ≡ true }
        requires place { place_fits (limits_of self.old) place ≡ true }
        ensures { self.new ≡ settle self.old obj stamp place }
    {
        let stamp = &stamp;
        if self.dir.settle(obj, *stamp, place) {
            self.gathers.drop_upto(obj, *stamp);
        }
    }

    /// Holds the proposal for the object in place of any other, whatever their stamps. True exactly if this one was not
    /// held.
    pub fn hold(&mut self, obj: ObjId, p: &Proposal) -> bool
        requires object { obj < length self.old.entries }
        requires proposal { proposal_fits (limits_of self.old) p.now ≡ true }
        ensures new { result ≡ not (is_held p.now (entry self.old obj).proposal) }
        ensures after { self.new ≡ holding self.old obj p.now }
    {
        self.dir.hold(obj, p)
    }

    /// Whether the placement would make the node the owner of the object, which its settled placement does not name.
    #[tactic(auto, unfolding(zeus_model::specs::Ownership::takes_over))]
    pub fn takes_over(&self, obj: ObjId, place: &Place) -> bool
        requires { obj < length self.now.entries }
        ensures { result ≡ takes_over self.now obj place.now }
    {
        place.owner == self.me && self.entry(obj).place.owner != self.me
    }

    /// Whether the node may drive the wish of the requester for the object: the first cause against it, or the
    /// proposal of the next version. What a source has against it is asked by `source_cause`.
    pub fn may_drive(&self, obj: ObjId, requester: NodeId, want: Want) -> Drive
        requires { obj < length self.now.entries }
        ensures answer { result ≡ answered (drive_cause self.now obj requester want) (driven self.now obj requester want) }
        ensures ranges { KeepsRanges (limits_of self.now) self.now }
    {
        self.dir
            .may_drive(obj, requester, self.me, self.members, want)
    }

    /// Whether the node is the source of the placement.
    #[tactic(auto, unfolding(zeus_model::specs::Ownership::is_node))]
    pub fn is_source(&self, place: &Place) -> bool
        ensures { result ≡ is_source self.now place.now }
    {
        match source(place, self.members) {
            None => false,
            Some(node) => node == self.me,
        }
    }

    /// The least slot whose current write transaction names the object.
    pub fn keeper(&self, obj: ObjId) -> Option<SlotId>
        ensures { result ≡ keeper self.now obj }
    {
        for slot in 0..self.slot_count {
            let slot = SlotId(slot);
            if self.slots[slot.place()].keeps(obj) {
                return Some(slot);
            }
        }
        None
    }

    /// The first cause for which the node, as a source, is not ready to give the object up: it has no copy, a slot
    /// holds the object, or the copy is not valid.
    pub fn unready_cause(&self, obj: ObjId) -> Option<Cause>
        ensures { result ≡ unready_cause self.now obj }
    {
        cause_of(give_up(&self.copies, obj, self.me, self.me, None))
    }

    /// The first cause for which the node, as a source, does not give the object up to the requester: it is not
    /// ready, or keeps the object for a write transaction of its own from a requester with a greater number.
    pub fn source_cause(&self, obj: ObjId, requester: NodeId) -> Option<Cause>
        ensures { result ≡ source_cause self.now obj requester }
    {
        let keeper = self.keeper(obj);
        cause_of(give_up(&self.copies, obj, self.me, requester, keeper))
    }

    /// The content of the node's copy, if the node is the source of the placement and has one.
    #[tactic(auto, unfolding(zeus_model::specs::Ownership::own_content, zeus_model::specs::Ownership::content_of))]
    pub fn own_content(&self, obj: ObjId, place: &Place) -> Option<Content>
        ensures { result ≡ own_content self.now obj place.now }
    {
        if !self.is_source(place) {
            return None;
        }
        let copy = self.copies.copy(obj)?;
        Some(Content {
            ver: copy.ver,
            value: copy.value,
        })
    }

    /// Notes that the sender has acknowledged the proposal, and the content if none came before; in the gather of the
    /// proposal's stamp, or in a new one in place of a lesser one. If a greater one stands, nothing changes.
    pub fn take_ack(
        &mut self,
        obj: ObjId,
        from: NodeId,
        p: &Proposal,
        content: Option<Content>,
    ) -> Ack
        requires object { obj < length self.old.entries }
        requires proposal { proposal_fits (limits_of self.old) p.now ≡ true }
        ensures answer { result ≡ ack_at (gather self.old obj) from p.now content }
        ensures after { self.new ≡ with_gather self.old obj (gathered (gather self.old obj) from p.now content) }
        ensures ranges { KeepsRanges (limits_of self.old) self.old }
    {
        self.gathers.take_ack(obj, from, p, content)
    }

    /// What the node decides of the object, if it can: the gathered proposal and its content.
    pub fn decided(&self, obj: ObjId) -> Option<Decision>
        ensures decision { result ≡ decision_of self.now (gather self.now obj) }
        ensures ranges { KeepsRanges (limits_of self.now) self.now }
    {
        self.gathers.decided(obj, self.members, self.dir.nodes())
    }

    /// The requester of the proposal takes the content as its copy, valid, or drops its copy if it wished to leave. At
    /// another node nothing changes.
    pub fn bring(&mut self, obj: ObjId, p: &Proposal, content: &Content)
        requires { obj < length self.old.entries }
        ensures { self.new ≡ bring self.old obj p.now content.now }
    {
        if p.requester == self.me {
            match p.want {
                Want::Own | Want::Read => self.copies.place_copy(obj, content),
                Want::Leave => self.copies.drop_copy(obj),
            }
        }
    }
}

/// The cause that an answer tells.
#[tactic(auto, unfolding(arbitration::specs::Giving::told_cause))]
fn cause_of(answer: GiveUp) -> Option<Cause>
    ensures { result ≡ told_cause answer }
{
    match answer {
        GiveUp::Given(_) => None,
        GiveUp::No(cause) => Some(cause),
    }
}
