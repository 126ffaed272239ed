//! The transactions of a node's slots: set, tried, and looked through.
ghost use Rattle.std.specs.Prelude.{◌≡◌, ◌<◌, length};
ghost use Rattle.zeus_model.specs.Local.{with_current};
ghost use Rattle.std.specs.List.{list_any};
ghost use Rattle.zeus_model.specs.Membership.{is_wanted, names_it};
ghost use Rattle.node_ranges.specs.Ranges.{FitsCurrent, limits_of};
ghost use Rattle.zeus_model.specs.State.{own_stream, slot as slot_of};
ghost use Rattle.node_state.specs.SlotTries.{IsTried, newest_of};

use crate::attempt::SlotTry;
use crate::slot::Slot;
use crate::state::NodeState;
use zeus_base::{ObjId, SlotId, Stream};
use zeus_model::Current;
use zeus_packet::RInv;

impl NodeState {
    /// The slot has this current transaction, or none.
    pub fn set_current(&mut self, slot: SlotId, current: Option<Current>)
        requires slot { slot < length self.old.slots }
        requires fits { FitsCurrent (limits_of self.old) current }
        ensures { self.new ≡ with_current self.old slot current }
    {
        let own = &mut self.slots[slot.place()];
        own.set_current(current);
    }

    /// Tries the slot's current transaction on what the node has. A read leaves all as it was. A write transaction that
    /// nothing stands against is committed: its writes stand in the copies, its entry at the end of the slot's pipe, and
    /// the slot is free. Takes no memory.
    pub fn try_current(&mut self, slot: SlotId) -> SlotTry
        requires { slot < length self.old.slots }
        ensures { IsTried self.old slot result self.new }
    {
        let own = &mut self.slots[slot.place()];
        own.try_current(&mut self.copies, &self.dir, self.me, slot)
    }

    /// The last pending entry of the slot, as its stream sends it; none where nothing is pending.
    pub fn newest(&self, slot: SlotId) -> Option<RInv>
        requires { slot < length self.now.slots }
        ensures { result ≡ newest_of (own_stream self.now slot) (slot_of self.now slot) }
    {
        let stream = Stream {
            node: self.me,
            slot,
        };
        let own = &self.slots[slot.place()];
        own.newest(&stream)
    }

    /// Whether a current transaction of the node names the object.
    pub fn is_wanted(&self, obj: ObjId) -> bool
        ensures { result ≡ is_wanted self.now obj }
    {
        is_wanted_by(&self.slots, obj)
    }
}

/// Whether the current transaction of one of the slots names the object.
fn is_wanted_by(slots: &[Slot], obj: ObjId) -> bool
    ensures { result ≡ list_any (λ l. names_it obj l.current) slots.now }
{
    slots.iter().any(|slot| slot.wants(obj))
}
