//! A slot's current transaction is tried.
ghost use Rattle.std.specs.Prelude.{◌≡◌, ◌<◌, ◌≤◌, length};
ghost use Rattle.zeus_model.specs.Local.{try_slot};
ghost use Rattle.node_state.specs.Done.{IsDone};

use crate::reads::read;
use crate::writes::write;
use node_state::{Effect, NodeState, SlotTry};
use zeus_base::SlotId;
use zeus_model::Tried;

/// Tries the current transaction of the slot. A stopped node answers so, and so does a slot that has none.
///
/// A read-only transaction replies where the node has a valid copy of each object that it names, and then the slot is
/// free. Where the first object that hinders it has no copy it is refused for good, or with a degree asks for the copies
/// that are missing and stays. Where that copy is not valid it stays.
///
/// A write transaction is committed where nothing stands against it: its entry goes to the followers, the slot is free,
/// and the slot's stream advances. Else it stays, and asks for ownership where that is what it lacks. Takes no memory.
pub fn try_slot(node: &mut NodeState, slot: SlotId, out: &mut Effect) -> Tried
    requires slot { slot < length node.old.slots }
    requires sent { length out.old.sent ≤ 64 }
    requires passed { length out.old.passed < 72 }
    ensures { IsDone (try_slot node.old slot) result node.new out.old out.new }
{
    if node.is_stopped() {
        return Tried::Stopped;
    }
    match node.try_current(slot) {
        SlotTry::Nothing => Tried::Nothing,
        SlotTry::Read(id, tried) => read(node, slot, id, tried, out),
        SlotTry::Write(id, tried) => write(node, slot, id, tried, out),
    }
}
