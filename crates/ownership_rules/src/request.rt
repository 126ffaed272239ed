//! Requests at a directory node.
ghost use Rattle.std.specs.Prelude.{◌≡◌, ◌<◌, ◌≤◌, None, length, true, if◌then◌else◌};
ghost use Rattle.zeus_packet.specs.Fits.{proposal_fits};
ghost use Rattle.zeus_model.specs.Ownership.{drive, driven, is_source, on_oreq, request_cause, source_cause};
ghost use Rattle.zeus_model.specs.State.{entry};
ghost use Rattle.directory.specs.Driving.{answered};
ghost use Rattle.node_ranges.specs.Ranges.{KeepsRanges, limits_of};
ghost use Rattle.node_state.specs.Done.{IsDone};

use node_state::{Drive, Effect, NodeState};
use zeus_base::{NodeId, ObjId};
use zeus_model::Outcome;
use zeus_packet::{Body, Cause, Proposal, Want};

/// A request of the node `from` for the object: it is driven by a new proposal, which the node holds, sends to the other
/// arbiters of the settled placement and acknowledges to the requester; or it is refused with the first cause against
/// it, which is told to the requester.
pub fn on_oreq(
    node: &mut NodeState,
    from: NodeId,
    obj: ObjId,
    want: Want,
    out: &mut Effect,
) -> Outcome
    requires object { obj < length node.old.entries }
    requires from { from < length node.old.logs }
    requires room { length out.old.sent ≤ 64 }
    ensures { IsDone (on_oreq node.old from obj want) result node.new out.old out.new }
{
    match &may_drive(node, obj, from, want) {
        Drive::Yes(p) => drive(node, from, obj, p, out),
        Drive::No(cause) => {
            let stamp = node.entry(obj).stamp;
            node.send(from, Body::ONack(obj, stamp, *cause), out);
            Outcome::Refused(*cause)
        }
    }
}

/// The proposal by which the node drives the request, or the first cause against it, those of a source last.
fn may_drive(node: &NodeState, obj: ObjId, requester: NodeId, want: Want) -> Drive
    requires { obj < length node.now.entries }
    ensures answer { result ≡ answered (request_cause node.now obj requester want) (driven node.now obj requester want) }
    ensures ranges { KeepsRanges (limits_of node.now) node.now }
{
    let drive = node.may_drive(obj, requester, want);
    match drive {
        Drive::No(_) => drive,
        Drive::Yes(_) => match settled_source_cause(node, obj, requester) {
            None => drive,
            Some(cause) => Drive::No(cause),
        },
    }
}

/// The first cause of the source against the requester, if the node is the source of the settled placement.
fn settled_source_cause(node: &NodeState, obj: ObjId, requester: NodeId) -> Option<Cause>
    requires { obj < length node.now.entries }
    ensures { result ≡ (if is_source node.now (entry node.now obj).place then source_cause node.now obj requester else None) }
{
    if node.is_source(&node.entry(obj).place) {
        node.source_cause(obj, requester)
    } else {
        None
    }
}

/// Holds the proposal and sends it to the other arbiters, and the own acknowledgement to the requester.
fn drive(
    node: &mut NodeState,
    requester: NodeId,
    obj: ObjId,
    p: &Proposal,
    out: &mut Effect,
) -> Outcome
    requires object { obj < length node.old.entries }
    requires proposal { proposal_fits (limits_of node.old) p.now ≡ true }
    requires room { length out.old.sent ≤ 64 }
    ensures { IsDone (drive node.old requester obj p.now) result node.new out.old out.new }
{
    node.send_invalidations(obj, p, out);
    node.acknowledge(requester, obj, p, out);
    node.hold(obj, p);
    Outcome::Taken
}
