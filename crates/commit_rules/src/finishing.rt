//! How a node finishes: entries that are acknowledged pass, and the node reports what it has replayed.
ghost use Rattle.std.specs.Prelude.{◌≡◌, ◌+◌, ◌<◌, ◌≤◌, [], true, length};
ghost use Rattle.zeus_model.specs.Act.{in_turn};
ghost use Rattle.zeus_model.specs.Commit.{advance_kept, advance_own, finish, outside, report_recovered, streams_of};
ghost use Rattle.zeus_model.specs.Tables.{below};
ghost use Rattle.node_ranges.specs.Ranges.{limits_of};
ghost use Rattle.node_state.specs.Done.{IsActed};

use node_state::{Effect, NodeState};
use zeus_base::{NodeId, SlotId, Stream};
use zeus_packet::Body;

/// Own streams advance in the order of slots, then the streams of the nodes that are no members in the order of node
/// and slot. Then the node reports, if it has not done so in this epoch and stores no entry of such a stream.
pub fn finish(node: &mut NodeState, out: &mut Effect)
    requires room { length out.old.sent ≤ 64 }
    requires passes { out.old.passed ≡ [] }
    ensures { IsActed (finish node.old) node.new out.old out.new }
{
    advance_own_streams(node, out);
    advance_streams_outside(node, out);
    report(node, out);
}

/// Each own stream advances.
fn advance_own_streams(node: &mut NodeState, out: &mut Effect)
    requires room { length out.old.sent ≤ 64 }
    requires passes { out.old.passed ≡ [] }
    ensures acted { IsActed (in_turn advance_own node.old (below (length node.old.slots))) node.new out.old out.new }
    ensures few { length out.new.passed ≤ 8 }
{
    for slot in 0..node.slot_count() {
        node.pass_own(SlotId(slot), out);
    }
}

/// Each stream of a node that is no member advances.
fn advance_streams_outside(node: &mut NodeState, out: &mut Effect)
    requires room { length out.old.sent ≤ 64 }
    requires passes { length out.old.passed ≤ 8 }
    ensures { IsActed (in_turn advance_kept node.old (outside node.old)) node.new out.old out.new }
{
    let members = node.members();
    for number in 0..node.node_count() {
        let other = NodeId(number);
        if !members.has(other) {
            advance_streams_of(node, other, out);
        }
    }
}

/// Each stream of the node advances.
fn advance_streams_of(node: &mut NodeState, other: NodeId, out: &mut Effect)
    requires node { other < length node.old.logs }
    requires room { length out.old.sent ≤ 64 }
    requires passes { length out.old.passed ≤ 64 }
    ensures acted { IsActed (in_turn advance_kept node.old (streams_of other (below (length node.old.slots)))) node.new out.old out.new }
    ensures few { length out.new.passed ≤ length out.old.passed + 8 }
    ensures limits { limits_of node.new ≡ limits_of node.old }
{
    for slot in 0..node.slot_count() {
        let stream = &Stream {
            node: other,
            slot: SlotId(slot),
        };
        node.pass_kept(stream, out);
    }
}

/// The node reports to the other members, if it has not done so in this epoch and has nothing to replay.
fn report(node: &mut NodeState, out: &mut Effect)
    requires { length out.old.sent ≤ 64 }
    ensures { IsActed (report_recovered node.old) node.new out.old out.new }
{
    if !node.is_recovered() {
        return;
    }
    let me = node.me();
    if node.report(me) {
        node.send_each(node.members().without(me), &Body::Recovered, out);
    }
}
