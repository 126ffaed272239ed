//! What follows from a try to write.
ghost use Rattle.std.specs.Prelude.{◌≡◌, ◌<◌, ◌≤◌, [], length};
ghost use Rattle.zeus_model.specs.Local.{write_cause, write_row};
ghost use Rattle.zeus_model.specs.State.{Node};
ghost use Rattle.node_state.specs.Done.{Adds, IsDone};
ghost use Rattle.node_state.specs.SlotTries.{IsWriteTried};
ghost use Rattle.local_rules.specs.Entries.{newest_letters};

use node_state::{Effect, NodeState, WriteTry};
use zeus_base::{SlotId, TxId};
use zeus_model::Tried;
use zeus_packet::Body;

/// A committed transaction goes to its followers, and the slot's stream advances; one that does not own all it names
/// asks for it.
pub(crate) fn write(
    node: &mut NodeState,
    slot: SlotId,
    id: TxId,
    tried: WriteTry,
    out: &mut Effect,
) -> Tried
    requires slot { slot < length node.old.slots }
    requires sent { length out.old.sent ≤ 64 }
    requires passed { length out.old.passed < 72 }
    ensures { (n : Node) (h : IsWriteTried n slot id tried node.old)
        → IsDone (write_row n slot (record { id = id; tx = h.tx }) (write_cause n slot h.tx)) result node.new out.old out.new }
{
    match tried {
        WriteTry::PipeFull => Tried::PipeFull,
        WriteTry::NotOwner(object) => {
            node.ask_to_own(slot, out);
            Tried::NotOwner(object)
        }
        WriteTry::Held(object, holder) => Tried::Held(object, holder),
        WriteTry::WornOut => Tried::WornOut,
        WriteTry::Committed(number, reply) => {
            send_newest(node, slot, out);
            node.pass_own(slot, out);
            Tried::Committed(id, number, reply)
        }
    }
}

/// Sends the slot's newest entry to the members among its followers.
fn send_newest(node: &NodeState, slot: SlotId, out: &mut Effect)
    requires slot { slot < length node.now.slots }
    requires sent { length out.old.sent ≤ 64 }
    ensures { Adds (newest_letters node.now slot) [] out.old out.new }
{
    if let Some(entry) = node.newest(slot) {
        let receivers = entry.followers.meet(node.members());
        node.send_each(receivers, &Body::RInv(entry), out);
    }
}
