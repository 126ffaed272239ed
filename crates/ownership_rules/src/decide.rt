//! Decisions.
ghost use Rattle.std.specs.Prelude.{◌≡◌, ◌<◌, ◌≤◌, length, true};
ghost use Rattle.zeus_packet.specs.Fits.{proposal_fits};
ghost use Rattle.zeus_model.specs.Ownership.{decide, decide_with};
ghost use Rattle.node_ranges.specs.Ranges.{limits_of};
ghost use Rattle.node_state.specs.Done.{IsActed};

use node_state::{Effect, NodeState};
use zeus_base::ObjId;
use zeus_packet::{Body, Content, Proposal, new_place};

/// Decides what the node has gathered of the object, if it can.
pub(crate) fn decide(node: &mut NodeState, obj: ObjId, out: &mut Effect)
    requires object { obj < length node.old.entries }
    requires room { length out.old.sent ≤ 64 }
    ensures { IsActed (decide obj node.old) node.new out.old out.new }
{
    if let Some(decision) = node.decided(obj) {
        carry_out(node, obj, &decision.proposal, &decision.content, out);
    }
}

/// Tells the other members the new placement and settles it, and takes the content if the node is the requester.
fn carry_out(node: &mut NodeState, obj: ObjId, p: &Proposal, content: &Content, out: &mut Effect)
    requires object { obj < length node.old.entries }
    requires proposal { proposal_fits (limits_of node.old) p.now ≡ true }
    requires room { length out.old.sent ≤ 64 }
    ensures { IsActed (decide_with node.old obj p.now content.now) node.new out.old out.new }
{
    let place = &new_place(p);
    let others = node.members().without(node.me());
    node.send_each(others, &Body::OVal(obj, p.stamp, *place), out);
    node.settle(obj, p.stamp, *place);
    node.bring(obj, p, content);
}
