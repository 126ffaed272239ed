//! Proposals at an arbiter, and decided placements.
ghost use Rattle.std.specs.Prelude.{◌≡◌, ◌<◌, ◌≤◌, None, false, true, length};
ghost use Rattle.zeus_packet.specs.Fits.{place_fits, proposal_fits, stamp_fits};
ghost use Rattle.zeus_model.specs.Ownership.{accept_cause, greater_cause, hold_cause, hold_or_refuse, is_held, on_oinv, on_oval, rebased};
ghost use Rattle.zeus_model.specs.Tables.{where_true};
ghost use Rattle.node_ranges.specs.Ranges.{limits_of};
ghost use Rattle.node_state.specs.Done.{IsDone, IsQuiet};

use crate::tell::{answer_settled, refuse};
use node_state::{Effect, NodeState};
use zeus_base::{NodeId, ObjId, Stamp};
use zeus_model::Outcome;
use zeus_packet::{Cause, Place, Proposal};

/// A proposal for the object, sent by the node `from`. If its stamp is not above the settled one, the settled placement
/// is the answer. Else its base is settled if that is above. Then the proposal is held in place of a lesser one and
/// acknowledged, or it is refused with the first cause against it, which is told to the requester if that is a member. A
/// base that was settled stays settled.
pub fn on_oinv(
    node: &mut NodeState,
    from: NodeId,
    obj: ObjId,
    p: &Proposal,
    out: &mut Effect,
) -> Outcome
    requires object { obj < length node.old.entries }
    requires proposal { proposal_fits (limits_of node.old) p.now ≡ true }
    requires room { length out.old.sent ≤ 64 }
    ensures { IsDone (on_oinv node.old from obj p.now) result node.new out.old out.new }
{
    if !node.entry(obj).stamp.is_below(p.stamp) {
        return answer_settled(node, from, obj, out);
    }
    if !settle_base(node, obj, p) {
        return refuse(node, obj, p, Cause::OwnPlace, out);
    }
    match hold_cause(node, obj, p) {
        Some(cause) => refuse(node, obj, p, cause, out),
        None => hold(node, from, obj, p, out),
    }
}

/// Settles the base of the proposal if it is above the settled stamp. If the base would make the node the owner, nothing
/// changes, and the answer is false.
pub(crate) fn settle_base(node: &mut NodeState, obj: ObjId, p: &Proposal) -> bool
    requires object { obj < length node.old.entries }
    requires proposal { proposal_fits (limits_of node.old) p.now ≡ true }
    ensures answer { rebased node.old obj p.now ≡ where_true result node.new }
    ensures refused { result ≡ false → node.new ≡ node.old }
    ensures limits { limits_of node.new ≡ limits_of node.old }
{
    if !node.entry(obj).stamp.is_below(p.base) {
        return true;
    }
    if node.takes_over(obj, &p.base_place) {
        return false;
    }
    node.settle(obj, p.base, p.base_place);
    true
}

/// Why the node does not hold the proposal: it is no arbiter, a greater proposal is held, or it is the source and does
/// not give the object up.
fn hold_cause(node: &NodeState, obj: ObjId, p: &Proposal) -> Option<Cause>
    requires { obj < length node.now.entries }
    ensures { result ≡ hold_cause node.now obj p.now }
{
    let greater = greater_cause(p.stamp, &node.entry(obj).proposal);
    if node.is_source(&p.base_place) {
        return match greater {
            None => accept_cause(node, obj, p),
            Some(cause) => Some(cause),
        };
    }
    if node.directory().has(node.me()) {
        greater
    } else {
        Some(Cause::NotArbiter)
    }
}

/// A held proposal with a greater stamp stands against this stamp.
#[tactic(auto, unfolding(zeus_model::specs::Ownership::greater_cause, zeus_model::specs::Tables::where_true))]
fn greater_cause(stamp: Stamp, held: &Option<Proposal>) -> Option<Cause>
    ensures { result ≡ greater_cause stamp held.now }
{
    match held {
        None => None,
        Some(held) => {
            if stamp.is_below(held.stamp) {
                Some(Cause::Proposed(held.stamp))
            } else {
                None
            }
        }
    }
}

/// Why a source does not give the object up. That it keeps the object counts only if the proposal is not held yet.
fn accept_cause(node: &NodeState, obj: ObjId, p: &Proposal) -> Option<Cause>
    requires { obj < length node.now.entries }
    ensures { result ≡ accept_cause node.now obj p.now }
{
    if is_held(p, &node.entry(obj).proposal) {
        node.unready_cause(obj)
    } else {
        node.source_cause(obj, p.requester)
    }
}

/// Whether this proposal is held.
#[tactic(auto, unfolding(zeus_model::specs::Ownership::is_held))]
fn is_held(p: &Proposal, held: &Option<Proposal>) -> bool
    ensures { result ≡ is_held p.now held.now }
{
    match held {
        None => false,
        Some(held) => p == held,
    }
}

/// Holds the proposal, and acknowledges it to the collector.
fn hold(node: &mut NodeState, from: NodeId, obj: ObjId, p: &Proposal, out: &mut Effect) -> Outcome
    requires object { obj < length node.old.entries }
    requires proposal { proposal_fits (limits_of node.old) p.now ≡ true }
    ensures { IsDone (hold_or_refuse node.old from obj p.now None) result node.new out.old out.new }
{
    let to = node.collector(p, from);
    node.acknowledge(to, obj, p, out);
    if node.hold(obj, p) {
        Outcome::Taken
    } else {
        Outcome::Again
    }
}

/// A decided placement of the object: it is settled if its stamp is above the settled one, and refused if it would make
/// the node the owner. Nothing is sent.
pub fn on_oval(node: &mut NodeState, obj: ObjId, stamp: Stamp, place: Place) -> Outcome
    requires object { obj < length node.old.entries }
    requires stamp { stamp_fits (limits_of node.old) stamp ≡ true }
    requires place { place_fits (limits_of node.old) place ≡ true }
    ensures { IsQuiet (on_oval node.old obj stamp place) result node.new }
{
    let (stamp, place) = (&stamp, &place);
    if !node.entry(obj).stamp.is_below(*stamp) {
        return Outcome::Again;
    }
    if node.takes_over(obj, place) {
        return Outcome::Refused(Cause::OwnPlace);
    }
    node.settle(obj, *stamp, *place);
    Outcome::Taken
}
