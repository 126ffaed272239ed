//! Proposals that are driven again.
ghost use Rattle.std.specs.Prelude.{◌≤◌, [], length};
ghost use Rattle.zeus_model.specs.Membership.{own_acknowledgement, repeat_proposal, repeat_proposals};
ghost use Rattle.node_state.specs.Done.{Adds};

use node_state::{Effect, NodeState};
use zeus_base::ObjId;
use zeus_packet::{Proposal, source};

/// Drives each proposal that the node holds again, where the node is open.
pub(crate) fn repeat_proposals(node: &NodeState, out: &mut Effect)
    requires { length out.old.sent ≤ 64 }
    ensures { Adds (repeat_proposals node.now) [] out.old out.new }
{
    if !node.is_open() {
        return;
    }
    for (place, entry) in node.entries().iter().enumerate() {
        repeat_proposal(node, ObjId(place as u16), &entry.proposal, out);
    }
}

/// Drives the proposal that is held for the object again, if there is one and its base has a source.
fn repeat_proposal(node: &NodeState, obj: ObjId, held: &Option<Proposal>, out: &mut Effect)
    requires { length out.old.sent ≤ 64 }
    ensures { Adds (repeat_proposal node.now obj held.now) [] out.old out.new }
{
    let Some(p) = held else {
        return;
    };
    if out.sent.is_full() {
        return;
    }
    if source(&p.base_place, node.members()).is_some() {
        node.send_invalidations(obj, p, out);
        acknowledge_own(node, obj, p, out);
    }
}

/// Acknowledges the node's own hold of the proposal, but for a source that is not ready to give the object up.
fn acknowledge_own(node: &NodeState, obj: ObjId, p: &Proposal, out: &mut Effect)
    requires { length out.old.sent ≤ 64 }
    ensures { Adds (own_acknowledgement node.now obj p.now) [] out.old out.new }
{
    if node.is_source(&p.base_place) && node.unready_cause(obj).is_some() {
        return;
    }
    node.acknowledge(node.collector(p, node.me()), obj, p, out);
}
