//! The tick: all that a node says again, in order.
ghost use Rattle.std.specs.Prelude.{◌≡◌, ◌<◌, ◌≤◌, [], length};
ghost use Rattle.zeus_base.specs.Tables.{below};
ghost use Rattle.zeus_model.specs.Membership.{letters_of, others, repeat_done, repeat_report, repeat_requests, repeats, tick};
ghost use Rattle.zeus_model.specs.State.{slot as slot_of};
ghost use Rattle.node_state.specs.Done.{Adds, IsDone};
ghost use Rattle.node_state.specs.Effect.{IsCleared};

use crate::entries::{repeat_own, repeat_stored};
use crate::leaves::repeat_leaves;
use crate::proposals::repeat_proposals;
use node_state::{Effect, NodeState};
use zeus_base::{NodeSet, SlotId, Stream};
use zeus_model::Ticked;
use zeus_packet::Body;

/// The node's timer fires. A stopped node does nothing. A running one says again what may have been lost on its way, in
/// this order: that it has reported; its pending entries, and the stored ones of nodes that are no members; what its
/// current transactions ask for; the proposals that it holds; how many entries of its own streams have passed; and that
/// it leaves replicas which are too many. The first 64 letters are sent. Nothing of the node changes.
pub fn tick(node: &NodeState, out: &mut Effect) -> Ticked
    requires { IsCleared out.old }
    ensures { IsDone (tick node.now) result node.now out.old out.new }
{
    if node.is_stopped() {
        return Ticked::Stopped;
    }
    repeat(node, out);
    Ticked::Ticked
}

fn repeat(node: &NodeState, out: &mut Effect)
    requires { length out.old.sent ≤ 64 }
    ensures { Adds (repeats node.now) [] out.old out.new }
{
    repeat_report(node, out);
    repeat_own(node, out);
    repeat_stored(node, out);
    repeat_requests(node, out);
    repeat_proposals(node, out);
    repeat_done(node, out);
    repeat_leaves(node, out);
}

/// The members other than the node.
fn others(node: &NodeState) -> NodeSet
    ensures { result ≡ others node.now }
{
    node.members().without(node.me())
}

/// In a later epoch than the first, a node that has reported says so again.
fn repeat_report(node: &NodeState, out: &mut Effect)
    requires { length out.old.sent ≤ 64 }
    ensures { Adds (repeat_report node.now) [] out.old out.new }
{
    if node.epoch() > 1 && node.has_reported(node.me()) {
        node.send_each(others(node), &Body::Recovered, out);
    }
}

/// Each slot's current transaction asks again for what it needs.
fn repeat_requests(node: &NodeState, out: &mut Effect)
    requires { length out.old.sent ≤ 64 }
    ensures { Adds (letters_of (λ s. repeat_requests node.now (slot_of node.now s).current) (below (length node.now.slots))) [] out.old out.new }
{
    for slot in 0..node.slot_count() {
        repeat_request(node, SlotId(slot), out);
    }
}

/// A write transaction asks for what the node does not own; where there is a degree, a read asks for copies.
fn repeat_request(node: &NodeState, slot: SlotId, out: &mut Effect)
    requires { slot < length node.now.slots }
    ensures { Adds (repeat_requests node.now (slot_of node.now slot).current) [] out.old out.new }
{
    if out.sent.is_full() {
        return;
    }
    let Some(current) = node.current(slot) else {
        return;
    };
    if current.tx.is_write() {
        node.ask_to_own(slot, out);
    } else if node.degree().is_some() {
        node.ask_for_copies(slot, out);
    }
}

/// How many entries of each own stream have passed is told again.
fn repeat_done(node: &NodeState, out: &mut Effect)
    requires { length out.old.sent ≤ 64 }
    ensures { Adds (letters_of (repeat_done node.now) (below (length node.now.slots))) [] out.old out.new }
{
    for slot in 0..node.slot_count() {
        tell_done(node, SlotId(slot), out);
    }
}

/// How many entries of the slot have passed is told to the other members, where some have.
fn tell_done(node: &NodeState, slot: SlotId, out: &mut Effect)
    requires { slot < length node.now.slots }
    ensures { Adds (repeat_done node.now slot) [] out.old out.new }
{
    if out.sent.is_full() {
        return;
    }
    let done = node.slot(slot).done();
    if done > 0 {
        let stream = Stream {
            node: node.me(),
            slot,
        };
        node.send_each(others(node), &Body::RVal(stream, done), out);
    }
}
