//! Which foreign streams are to be replayed.
ghost use Rattle.std.specs.Prelude.{◌≡◌, ℕ, ◌<◌, ◌≤◌, ◌&&◌};
ghost use Rattle.zeus_model.specs.Commit.{none_stored, outside, streams_of};
ghost use Rattle.zeus_model.specs.State.{Node};
ghost use Rattle.zeus_model.specs.Tables.{below};
ghost use Rattle.follower_log.specs.Streams.{IsStreamOf};
ghost use Rattle.crash_replay.specs.Replay.{HasStreams, IsNodeWith, is_after, is_stored, next_in, next_stored};

use follower_log::Stored;
use zeus_base::{NodeId, NodeSet, SlotId, Stream};

/// Whether no stream of a non-member has a stored entry: then there is nothing to replay.
///
/// The log has the streams of `nodes` nodes with `slots` slots each. The clause speaks of every node with these streams,
/// members and slots. Takes no memory.
pub fn is_recovered(log: &Stored, nodes: u8, slots: u8, members: NodeSet) -> bool
    requires nodes { nodes ≤ 8 }
    requires slots { slots ≤ 8 }
    requires streams { HasStreams nodes slots log.now }
    ensures { (n : Node) → IsNodeWith n log.now members slots → result ≡ none_stored n (outside n) }
{
    next_replay(log, nodes, slots, members, None).is_none()
}

/// The first stream in the order of node and slot, behind `after` if that is given, whose node is no member and which has
/// stored entries; `None` if there is no such stream.
///
/// The log has the streams of `nodes` nodes with `slots` slots each. The clause speaks of every node with these streams,
/// members and slots. Takes no memory.
pub fn next_replay(
    log: &Stored,
    nodes: u8,
    slots: u8,
    members: NodeSet,
    after: Option<Stream>,
) -> Option<Stream>
    requires nodes { nodes ≤ 8 }
    requires slots { slots ≤ 8 }
    requires streams { HasStreams nodes slots log.now }
    ensures { (n : Node) → IsNodeWith n log.now members slots → result ≡ next_stored n after }
{
    for node in 0..nodes {
        let node = NodeId(node);
        if !members.has(node) {
            if let Some(stream) = next_of(log, slots, node, &after) {
                return Some(stream);
            }
        }
    }
    None
}

/// The first stream of the node after the given one of which entries are stored.
fn next_of(log: &Stored, slots: u8, node: NodeId, after: &Option<Stream>) -> Option<Stream>
    requires slots { slots ≤ 8 }
    requires streams { (slot : ℕ) → slot < slots → IsStreamOf log.now (record { node = node; slot = slot }) }
    ensures { result ≡ next_in log.now after.now (streams_of node (below slots)) }
{
    for slot in 0..slots {
        let stream = &Stream {
            node,
            slot: SlotId(slot),
        };
        if is_next(log, after, stream) {
            return Some(*stream);
        }
    }
    None
}

/// Whether the stream comes after the given one and entries of it are stored.
#[tactic(auto, unfolding(crate::specs::Replay::is_stored))]
fn is_next(log: &Stored, after: &Option<Stream>, stream: &Stream) -> bool
    requires { IsStreamOf log.now stream.now }
    ensures { result ≡ (is_after after.now stream.now && is_stored log.now stream.now) }
{
    is_after(after, stream) && log.len(*stream) > 0
}

/// Whether the stream comes after the other, where one is given.
#[tactic(auto, unfolding(crate::specs::Replay::is_after))]
fn is_after(after: &Option<Stream>, stream: &Stream) -> bool
    ensures { result ≡ is_after after.now stream.now }
{
    match after {
        None => true,
        Some(after) => after.is_before(*stream),
    }
}
