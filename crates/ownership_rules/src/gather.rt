//! Acknowledgements of proposals at the collector.
ghost use Rattle.std.specs.Prelude.{◌≡◌, ◌<◌, ◌≤◌, true, length};
ghost use Rattle.zeus_packet.specs.Fits.{proposal_fits};
ghost use Rattle.zeus_model.specs.Ownership.{collect_cause, gather_or_older, greater_gather, on_oack};
ghost use Rattle.zeus_model.specs.State.{gather as gather_of};
ghost use Rattle.node_ranges.specs.Ranges.{limits_of};
ghost use Rattle.node_state.specs.Done.{IsDone};

use crate::decide::decide;
use crate::propose::settle_base;
use crate::tell::answer_settled;
use node_state::{Ack, Effect, NodeState};
use zeus_base::{NodeId, ObjId};
use zeus_model::Outcome;
use zeus_packet::{Cause, Content, Proposal, new_place};

/// An acknowledgement of a proposal for the object by the node `from`, with the content if that is the source. If the
/// proposal's stamp is not above the settled one, the settled placement is the answer. Else its base is settled if that
/// is above; then the sender and the content are noted, and the node decides if it can. It is refused if the requester
/// is a member and another node, or if a placement would make the node the owner without its own request.
pub fn on_oack(
    node: &mut NodeState,
    from: NodeId,
    obj: ObjId,
    p: &Proposal,
    content: Option<Content>,
    out: &mut Effect,
) -> Outcome
    requires object { obj < length node.old.entries }
    requires proposal { proposal_fits (limits_of node.old) p.now ≡ true }
    requires room { length out.old.sent ≤ 64 }
    ensures { IsDone (on_oack node.old from obj p.now content) result node.new out.old out.new }
{
    let content = &content;
    if !node.entry(obj).stamp.is_below(p.stamp) {
        return answer_settled(node, from, obj, out);
    }
    if !settle_base(node, obj, p) {
        return Outcome::Refused(Cause::OwnPlace);
    }
    match collect_cause(node, obj, p) {
        Some(cause) => Outcome::Refused(cause),
        None => gather(node, from, obj, p, content, out),
    }
}

/// Why the node does not collect acknowledgements of the proposal.
#[tactic(auto, unfolding(zeus_model::specs::Ownership::collect_cause, zeus_model::specs::Tables::or_else, zeus_model::specs::Tables::where_true))]
fn collect_cause(node: &NodeState, obj: ObjId, p: &Proposal) -> Option<Cause>
    requires { obj < length node.now.entries }
    ensures { result ≡ collect_cause node.now obj p.now }
{
    let is_mine = p.requester == node.me();
    if node.members().has(p.requester) && !is_mine {
        return Some(Cause::NotCollector);
    }
    if node.takes_over(obj, &new_place(p)) && !is_mine {
        return Some(Cause::OwnPlace);
    }
    None
}

/// Notes the sender and the content if no greater proposal is gathered, and decides if it can.
fn gather(
    node: &mut NodeState,
    from: NodeId,
    obj: ObjId,
    p: &Proposal,
    content: &Option<Content>,
    out: &mut Effect,
) -> Outcome
    requires object { obj < length node.old.entries }
    requires proposal { proposal_fits (limits_of node.old) p.now ≡ true }
    requires room { length out.old.sent ≤ 64 }
    ensures { IsDone (gather_or_older node.old from obj p.now content.now (greater_gather p.now.stamp (gather_of node.old obj)))
        result node.new out.old out.new }
{
    match node.take_ack(obj, from, p, *content) {
        Ack::Older(stamp) => Outcome::Older(stamp),
        Ack::New => {
            decide(node, obj, out);
            Outcome::Taken
        }
        Ack::Again => {
            decide(node, obj, out);
            Outcome::Again
        }
    }
}
