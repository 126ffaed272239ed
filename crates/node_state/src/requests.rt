//! Requests for ownership and copies: to whom they go, and for which objects.
ghost use Rattle.std.specs.Prelude.{◌≡◌, ◌≤◌, ◌<◌, [], ◌∷◌, All, length};
ghost use Rattle.zeus_model.specs.Local.{driver, least_from, not_copied, not_owned, requests};
ghost use Rattle.zeus_packet.specs.declared.place.Want.TheVariants.{Own, Read};
ghost use Rattle.zeus_model.specs.State.{slot as slot_of};
ghost use Rattle.zeus_model.specs.Tables.{or_else};
ghost use Rattle.zeus_base.specs.Nodes.{least};
ghost use Rattle.node_state.specs.Done.{Adds};
ghost use Rattle.node_state.specs.Requests.{requests_for_copies, requests_to_own};

use crate::effect::Effect;
use crate::state::NodeState;
use zeus_base::{NodeId, NodeSet, ObjId, SlotId};
use zeus_packet::{Body, Want};
use zeus_txn::Named;

impl NodeState {
    /// The node that requests go to: among the members that are nodes of the directory the least one that is not below
    /// this node, else the least one; none where there is none.
    #[tactic(auto, unfolding(zeus_model::specs::Local::driver))]
    pub fn driver(&self) -> Option<NodeId>
        ensures { result ≡ driver self.now }
    {
        first_from(self.me, self.dir.nodes().meet(self.members))
    }

    /// Sends a request for the object to the driver, where there is one.
    pub fn request(&self, obj: ObjId, want: Want, out: &mut Effect)
        requires { length out.old.sent ≤ 64 }
        ensures { Adds (requests self.now want (obj ∷ [])) [] out.old out.new }
    {
        if let Some(driver) = self.driver() {
            self.send(driver, Body::OReq(obj, want), out);
        }
    }

    /// Asks for each object that the slot's current transaction names and the node does not own, in order of naming.
    pub fn ask_to_own(&self, slot: SlotId, out: &mut Effect)
        requires slot { slot < length self.now.slots }
        requires room { length out.old.sent ≤ 64 }
        ensures { Adds (requests_to_own self.now (slot_of self.now slot).current) [] out.old out.new }
    {
        let slot = &self.slots[slot.place()];
        if let Some(current) = slot.current.as_ref() {
            self.request_unowned(&current.tx.named(), out);
        }
    }

    /// Asks for a copy of each object that the slot's current transaction names and of which the node has none, in order
    /// of naming.
    pub fn ask_for_copies(&self, slot: SlotId, out: &mut Effect)
        requires slot { slot < length self.now.slots }
        requires room { length out.old.sent ≤ 64 }
        ensures { Adds (requests_for_copies self.now (slot_of self.now slot).current) [] out.old out.new }
    {
        if let Some(current) = self.current(slot) {
            self.request_uncopied(&current.tx.named(), out);
        }
    }

    fn request_unowned(&self, objects: &Named, out: &mut Effect)
        requires there { All (λ x. x < length self.now.entries) objects.now }
        requires room { length out.old.sent ≤ 64 }
        ensures { Adds (requests self.now Own (not_owned self.now objects.now)) [] out.old out.new }
    {
        for object in objects.as_slice() {
            if !self.owns(*object) {
                self.request(*object, Want::Own, out);
            }
        }
    }

    fn request_uncopied(&self, objects: &Named, out: &mut Effect)
        requires { length out.old.sent ≤ 64 }
        ensures { Adds (requests self.now Read (not_copied self.now objects.now)) [] out.old out.new }
    {
        for object in objects.as_slice() {
            if self.copy(*object).is_none() {
                self.request(*object, Want::Read, out);
            }
        }
    }
}

/// The least of the nodes that is not below `me`, else the least one.
fn first_from(me: NodeId, nodes: NodeSet) -> Option<NodeId>
    ensures { result ≡ or_else (least_from me nodes) (least nodes) }
{
    for node in nodes {
        if node >= me {
            return Some(node);
        }
    }
    nodes.least()
}
