//! Entries that are sent again: those of own slots, and the stored ones of nodes that are no members.
ghost use Rattle.std.specs.Prelude.{true, ◌≡◌, ◌<◌, ◌≤◌, [], length};
ghost use Rattle.zeus_base.specs.Nodes.{meet, without};
ghost use Rattle.zeus_base.specs.Tables.{below};
ghost use Rattle.zeus_packet.specs.Fits.{stream_fits};
ghost use Rattle.zeus_packet.specs.declared.letter.Body.TheVariants.{RInv as Invalidation};
ghost use Rattle.zeus_model.specs.Act.{to_each};
ghost use Rattle.zeus_model.specs.Commit.{outside, streams_of};
ghost use Rattle.zeus_model.specs.Membership.{apart, letters_of, repeat_kept, repeat_own};
ghost use Rattle.node_ranges.specs.Ranges.{limits_of};
ghost use Rattle.node_state.specs.Done.{Adds};

use node_state::{Effect, NodeState};
use zeus_base::{NodeId, NodeSet, SlotId, Stream};
use zeus_packet::{Body, RInv, Writes};

/// Where an entry stands: its stream, its number there, and how many entries of the stream have passed.
#[derive(Clone, Copy)]
struct Place {
    stream: Stream,
    number: u32,
    done: u32,
}

/// Sends the pending entries of each own slot again.
pub(crate) fn repeat_own(node: &NodeState, out: &mut Effect)
    requires { length out.old.sent ≤ 64 }
    ensures { Adds (letters_of (repeat_own node.now) (below (length node.now.slots))) [] out.old out.new }
{
    for slot in 0..node.slot_count() {
        repeat_slot(node, SlotId(slot), out);
    }
}

/// Sends the stored entries of the nodes that are no members again.
pub(crate) fn repeat_stored(node: &NodeState, out: &mut Effect)
    requires { length out.old.sent ≤ 64 }
    ensures { Adds (letters_of (repeat_kept node.now) (outside node.now)) [] out.old out.new }
{
    for other in 0..node.node_count() {
        let other = NodeId(other);
        if !node.members().has(other) {
            repeat_streams(node, other, out);
        }
    }
}

/// Sends the stored entries of the other node's streams again.
fn repeat_streams(node: &NodeState, other: NodeId, out: &mut Effect)
    requires other { other < length node.now.logs }
    requires room { length out.old.sent ≤ 64 }
    ensures { Adds (letters_of (repeat_kept node.now) (streams_of other (below (length node.now.slots)))) [] out.old out.new }
{
    for slot in 0..node.slot_count() {
        let stream = Stream {
            node: other,
            slot: SlotId(slot),
        };
        repeat_stream(node, &stream, out);
    }
}

/// Sends the pending entries of the slot again.
fn repeat_slot(node: &NodeState, slot: SlotId, out: &mut Effect)
    requires slot { slot < length node.now.slots }
    requires room { length out.old.sent ≤ 64 }
    ensures { Adds (repeat_own node.now slot) [] out.old out.new }
{
    let own = node.slot(slot);
    let stream = &Stream {
        node: node.me(),
        slot,
    };
    let done = own.done();
    let mut place = 0;
    while let Some(entry) = own.pending(place) {
        let at = Place {
            stream: *stream,
            number: done + place,
            done,
        };
        repeat_entry(node, &at, entry.followers, entry.acks, &entry.writes, out);
        place += 1;
    }
}

/// Sends the stored entries of the stream again.
fn repeat_stream(node: &NodeState, stream: &Stream, out: &mut Effect)
    requires stream { stream_fits (limits_of node.now) stream.now ≡ true }
    requires room { length out.old.sent ≤ 64 }
    ensures { Adds (repeat_kept node.now stream.now) [] out.old out.new }
{
    let done = node.stored_done(*stream);
    let mut place = 0;
    while let Some(entry) = node.stored(*stream, place) {
        let at = Place {
            stream: *stream,
            number: done + place,
            done,
        };
        repeat_entry(node, &at, entry.followers, entry.acks, &entry.writes, out);
        place += 1;
    }
}

/// Sends an entry again to each other member that follows it and has not acknowledged it.
fn repeat_entry(
    node: &NodeState,
    at: &Place,
    followers: NodeSet,
    acks: NodeSet,
    writes: &Writes,
    out: &mut Effect,
)
    requires { length out.old.sent ≤ 64 }
    ensures { Adds
        (to_each node.now (apart (without node.now.me (meet followers node.now.members)) acks) (Invalidation (record {
          stream = at.now.stream;
          number = at.now.number;
          done = at.now.done;
          followers = followers;
          writes = writes.now;
        })))
        [] out.old out.new }
{
    for receiver in followers.meet(node.members()).without(node.me()) {
        if out.sent.is_full() {
            return;
        }
        if !acks.has(receiver) {
            let entry = RInv {
                stream: at.stream,
                number: at.number,
                done: at.done,
                followers,
                writes: writes.duplicate(),
            };
            node.send(receiver, Body::RInv(entry), out);
        }
    }
}
