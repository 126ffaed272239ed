//! What a node tells of a proposal and of what is settled.
ghost use Rattle.std.specs.Prelude.{◌≡◌, ◌<◌, ◌≤◌, [], length};
ghost use Rattle.zeus_model.specs.Ownership.{advice, answer_settled, refusal, refuse_proposal};
ghost use Rattle.node_state.specs.Done.{Adds, IsDone};

use node_state::{Effect, NodeState};
use zeus_base::{NodeId, ObjId};
use zeus_model::Outcome;
use zeus_packet::{Body, Cause, Proposal};

/// Refuses the proposal, and tells the requester why if that is a member.
pub(crate) fn refuse(
    node: &NodeState,
    obj: ObjId,
    p: &Proposal,
    cause: Cause,
    out: &mut Effect,
) -> Outcome
    requires { length out.old.sent ≤ 64 }
    ensures { IsDone (refuse_proposal node.now obj p.now cause) result node.now out.old out.new }
{
    let cause = &cause;
    send_advice(node, obj, p, cause, out);
    refusal(cause)
}

#[tactic(auto, unfolding(zeus_model::specs::Ownership::advice))]
fn send_advice(node: &NodeState, obj: ObjId, p: &Proposal, cause: &Cause, out: &mut Effect)
    requires { length out.old.sent ≤ 64 }
    ensures { Adds (advice node.now obj p.now cause.now) [] out.old out.new }
{
    if node.members().has(p.requester) {
        node.send(p.requester, Body::ONack(obj, p.stamp, *cause), out);
    }
}

/// A greater proposal makes a letter's one older; any other cause refuses it.
#[tactic(auto, unfolding(zeus_model::specs::Ownership::refusal))]
fn refusal(cause: &Cause) -> Outcome
    ensures { result ≡ refusal cause.now }
{
    match cause {
        Cause::Proposed(stamp) => Outcome::Older(*stamp),
        cause => Outcome::Refused(*cause),
    }
}

/// Answers a proposal that is not above the settled stamp by the settled placement.
pub(crate) fn answer_settled(
    node: &NodeState,
    from: NodeId,
    obj: ObjId,
    out: &mut Effect,
) -> Outcome
    requires { obj < length node.now.entries }
    ensures { IsDone (answer_settled node.now from obj) result node.now out.old out.new }
{
    let entry = node.entry(obj);
    node.send(from, Body::OVal(obj, entry.stamp, entry.place), out);
    Outcome::Settled(entry.stamp)
}
