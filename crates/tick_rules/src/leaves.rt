//! Readers that leave, where more replicas are there than the degree asks for.
ghost use Rattle.std.specs.Prelude.{◌≡◌, ◌<◌, ◌≤◌, [], length};
ghost use Rattle.zeus_base.specs.Tables.{below};
ghost use Rattle.zeus_model.specs.Membership.{greatest, is_greatest, leaves, letters_of, repeat_leave};
ghost use Rattle.zeus_model.specs.Ownership.{exceeds};
ghost use Rattle.zeus_model.specs.State.{entry};
ghost use Rattle.node_state.specs.Done.{Adds};

use node_state::{Effect, NodeState};
use zeus_base::{NodeId, NodeSet, ObjId};
use zeus_packet::Want;

/// Asks to leave the replicas of each object of which the node leaves. Where there is no degree, it leaves none.
pub(crate) fn repeat_leaves(node: &NodeState, out: &mut Effect)
    requires { length out.old.sent ≤ 64 }
    ensures { Adds (letters_of (repeat_leave node.now) (below (length node.now.entries))) [] out.old out.new }
{
    if node.degree().is_none() {
        return;
    }
    for obj in 0..node.object_count() {
        repeat_leave(node, ObjId(obj), out);
    }
}

/// Asks to leave the replicas of the object, where the node leaves.
fn repeat_leave(node: &NodeState, obj: ObjId, out: &mut Effect)
    requires { obj < length node.now.entries }
    ensures { Adds (repeat_leave node.now obj) [] out.old out.new }
{
    if !out.sent.is_full() && leaves(node, obj) {
        node.request(obj, Want::Leave, out);
    }
}

/// Whether the node leaves the object's replicas: it is the greatest of the member replicas but the owner, more than the
/// degree of them are there, it holds no proposal for the object, and none of its current transactions names it.
#[tactic(auto, unfolding(zeus_model::specs::Membership::leaves))]
fn leaves(node: &NodeState, obj: ObjId) -> bool
    requires { obj < length node.now.entries }
    ensures { result ≡ leaves node.now obj (entry node.now obj).place }
{
    let known = node.entry(obj);
    let replicas = known.place.replicas.meet(node.members());
    is_greatest(node.me(), replicas.without(known.place.owner))
        && exceeds(node.degree(), replicas.count())
        && known.proposal.is_none()
        && !node.is_wanted(obj)
}

/// Whether the node is in the set, and no greater one is.
#[tactic(auto, unfolding(zeus_model::specs::Membership::is_greatest))]
fn is_greatest(node: NodeId, nodes: NodeSet) -> bool
    ensures { result ≡ is_greatest (greatest nodes) node }
{
    match greatest(nodes) {
        None => false,
        Some(last) => last == node,
    }
}

/// The node with the greatest number, where there is one.
fn greatest(nodes: NodeSet) -> Option<NodeId>
    ensures { result ≡ greatest nodes }
{
    let mut last = None;
    for node in nodes {
        last = Some(node);
    }
    last
}

/// Whether more are there than the degree, where one is given.
#[tactic(auto, unfolding(zeus_model::specs::Ownership::exceeds))]
fn exceeds(degree: Option<u8>, count: u8) -> bool
    ensures { result ≡ exceeds degree count }
{
    match degree {
        None => false,
        Some(degree) => degree < count,
    }
}
