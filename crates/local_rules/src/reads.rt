//! What follows from a try to read.
ghost use Rattle.std.specs.Prelude.{◌≡◌, ◌<◌, ◌≤◌, List, Some, length};
ghost use Rattle.zeus_model.specs.Local.{hindrance, read_missing, read_row};
ghost use Rattle.zeus_model.specs.State.{Node, slot as slot_of};
ghost use Rattle.zeus_txn.specs.declared.ops.Op.{Op};
ghost use Rattle.node_state.specs.Done.{IsDone};
ghost use Rattle.node_state.specs.SlotTries.{IsReadTried};

use node_state::{Effect, NodeState, ReadTry};
use zeus_base::{ObjId, SlotId, TxId};
use zeus_model::Tried;

/// A transaction that has read frees its slot; one that is hindered stays, unless it is refused for good.
pub(crate) fn read(
    node: &mut NodeState,
    slot: SlotId,
    id: TxId,
    tried: ReadTry,
    out: &mut Effect,
) -> Tried
    requires slot { slot < length node.old.slots }
    requires sent { length out.old.sent ≤ 64 }
    ensures { (n : Node) (h : IsReadTried n slot id tried node.old)
        → IsDone (read_row n slot (record { id = id; tx = h.tx }) (hindrance n h.tx)) result node.new out.old out.new }
{
    match tried {
        ReadTry::NoCopy(object) => read_missing(node, slot, id, object, out),
        ReadTry::NotValid(object, state) => Tried::NotValid(object, state),
        ReadTry::Read(reply) => {
            node.set_current(slot, None);
            Tried::Read(id, reply)
        }
    }
}

/// A read of an object of which the node has no copy: with a degree it asks for copies, and else it is refused for good.
fn read_missing(
    node: &mut NodeState,
    slot: SlotId,
    id: TxId,
    object: ObjId,
    out: &mut Effect,
) -> Tried
    requires slot { slot < length node.old.slots }
    requires sent { length out.old.sent ≤ 64 }
    ensures { (tx : List Op) → (slot_of node.old slot).current ≡ Some (record { id = id; tx = tx })
        → IsDone (read_missing node.old slot (record { id = id; tx = tx }) object node.old.degree) result node.new out.old out.new }
{
    match node.degree() {
        None => node.set_current(slot, None),
        Some(_) => node.ask_for_copies(slot, out),
    }
    Tried::NoCopy(id, object)
}
