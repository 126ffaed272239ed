//! The letters of proposals: to whom they go, and what they say.
ghost use Rattle.std.specs.Prelude.{◌≡◌, ◌≤◌, [], ◌∷◌, length};
ghost use Rattle.zeus_model.specs.Ownership.{acknowledgement, collector, invalidations};
ghost use Rattle.node_state.specs.Done.{Adds};

use crate::effect::Effect;
use crate::state::NodeState;
use zeus_base::{NodeId, ObjId};
use zeus_packet::{Body, Proposal, arbiters};

impl NodeState {
    /// The node that the acknowledgements of the proposal go to: its requester where that is a member, else the other
    /// node.
    #[tactic(auto, unfolding(zeus_model::specs::Ownership::collector))]
    pub fn collector(&self, p: &Proposal, other: NodeId) -> NodeId
        ensures { result ≡ collector self.now p.now other }
    {
        if self.members.has(p.requester) {
            p.requester
        } else {
            other
        }
    }

    /// Asks each other arbiter of the proposal's base to hold the proposal.
    pub fn send_invalidations(&self, obj: ObjId, p: &Proposal, out: &mut Effect)
        requires { length out.old.sent ≤ 64 }
        ensures { Adds (invalidations self.now obj p.now) [] out.old out.new }
    {
        let receivers = arbiters(&p.base_place, self.members, self.dir.nodes()).without(self.me);
        self.send_each(receivers, &Body::OInv(obj, *p), out);
    }

    /// Tells the node that this node holds the proposal; where this node is the source of its base, with the content
    /// of its copy.
    pub fn acknowledge(&self, to: NodeId, obj: ObjId, p: &Proposal, out: &mut Effect)
        ensures { Adds (acknowledgement self.now to obj p.now ∷ []) [] out.old out.new }
    {
        let content = self.own_content(obj, &p.base_place);
        self.send(to, Body::OAck(obj, *p, content), out);
    }
}
