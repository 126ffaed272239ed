//! What the source of a placement gives up.
ghost use Rattle.std.specs.Prelude.{◌≡◌, None, nat_lt, if◌then◌else◌};
ghost use Rattle.zeus_model.specs.Ownership.{content_of, held_cause, keeper as keeper_of, kept_by, missing_cause};
ghost use Rattle.zeus_model.specs.Ownership.{not_valid, source_cause, state_cause, state_refused, unready_cause};
ghost use Rattle.zeus_model.specs.State.{Node, copy};
ghost use Rattle.zeus_model.specs.Tables.{or_else};
ghost use Rattle.arbitration.specs.Giving.{IsSourceWith, content_without, give_up_cause, given_content, told_cause};

use object_table::Copies;
use zeus_base::{NodeId, ObjId, SlotId};
use zeus_model::Copy;
use zeus_packet::{Cause, Content, State};

/// What a source answers when it is to give an object up.
#[derive(Clone, Copy, Debug, PartialEq, Eq)]
pub enum GiveUp {
    /// The content of its copy.
    Given(Content),
    /// It gives nothing: the first cause that stands against it.
    No(Cause),
}

/// What the source `me` answers when it is to give the object up to the requester: the content of its copy, or the
/// first of these causes: it has no copy, a slot holds the object, the copy is not valid, or it keeps the object for
/// the slot `keeper` and the requester has a greater number. Each clause speaks of every node with this number whose
/// copy and holder of the object are the table's. `keeper` is the least slot whose current write transaction names the
/// object, or none where the source does not keep the object from this requester. Takes no memory.
pub fn give_up(
    copies: &Copies,
    obj: ObjId,
    me: NodeId,
    requester: NodeId,
    keeper: Option<SlotId>,
) -> GiveUp
    ensures cause { (n : Node) → IsSourceWith n obj copies.now me → told_cause result ≡ give_up_cause n obj requester keeper }
    ensures content { (n : Node) → IsSourceWith n obj copies.now me
        → given_content result ≡ content_without (told_cause result) (content_of (copy n obj)) }
    ensures kept { (n : Node) → IsSourceWith n obj copies.now me → keeper ≡ keeper_of n obj → told_cause result ≡ source_cause n obj requester }
    ensures unkept { (n : Node) → IsSourceWith n obj copies.now me → keeper ≡ None → told_cause result ≡ unready_cause n obj }
{
    let copy = copies.copy(obj);
    let kept = kept_from(me, requester, keeper);
    answer(&copy, copies.holder(obj), kept)
}

/// The slot that the source keeps the object for, where it keeps it from this requester.
fn kept_from(me: NodeId, requester: NodeId, keeper: Option<SlotId>) -> Option<SlotId>
    ensures { result ≡ (if nat_lt me requester then keeper else None) }
{
    if me < requester { keeper } else { None }
}

/// The content of the copy, or the first cause that stands against it.
#[tactic(auto, unfolding(crate::specs::Giving::told_cause, crate::specs::Giving::given_content, crate::specs::Giving::content_without, zeus_model::specs::Ownership::content_of, zeus_model::specs::Ownership::missing_cause, zeus_model::specs::Ownership::state_cause, zeus_model::specs::Tables::or_else))]
fn answer(copy: &Option<Copy>, holder: Option<SlotId>, kept: Option<SlotId>) -> GiveUp
    ensures cause { told_cause result ≡ or_else (missing_cause copy.now) (or_else (held_cause holder) (or_else (state_cause copy.now) (kept_by kept))) }
    ensures content { given_content result ≡ content_without (told_cause result) (content_of copy.now) }
{
    match copy {
        None => GiveUp::No(Cause::NoCopy),
        Some(copy) => match cause_against(copy.state, holder, kept) {
            Some(cause) => GiveUp::No(cause),
            None => GiveUp::Given(Content {
                ver: copy.ver,
                value: copy.value,
            }),
        },
    }
}

/// The first cause against a copy in this state: a slot holds the object, it is not valid, or it is kept for a slot.
#[tactic(auto, unfolding(zeus_model::specs::Ownership::held_cause, zeus_model::specs::Ownership::state_refused, zeus_model::specs::Ownership::not_valid, zeus_model::specs::Ownership::kept_by, zeus_model::specs::Tables::or_else))]
fn cause_against(state: State, holder: Option<SlotId>, kept: Option<SlotId>) -> Option<Cause>
    ensures { result ≡ or_else (held_cause holder) (or_else (state_refused (not_valid state)) (kept_by kept)) }
{
    if let Some(slot) = holder {
        return Some(Cause::Held(slot));
    }
    match state {
        State::Invalid | State::Write => Some(Cause::NotValid(state)),
        State::Valid => match kept {
            Some(slot) => Some(Cause::Kept(slot)),
            None => None,
        },
    }
}
