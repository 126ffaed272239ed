//! What a node reads of its slots and streams to say it again.
ghost use Rattle.std.specs.Prelude.{true, ◌≡◌, ◌<◌, ◌≤◌, ◌+◌, ◌^◌, length, option_copied, slice_get};
ghost use Rattle.zeus_packet.specs.Fits.{stream_fits};
ghost use Rattle.zeus_model.specs.State.{log, slot as slot_of};
ghost use Rattle.node_ranges.specs.Ranges.{KeepsRanges, limits_of};

use crate::slot::Slot;
use crate::state::NodeState;
use zeus_base::{SlotId, Stream};
use zeus_model::{Kept, Pending};

impl Slot {
    /// How many of the slot's entries have passed, which is the number of the lowest pending one.
    pub fn done(&self) -> u32
        ensures { result ≡ self.now.done }
    {
        self.pipe.done()
    }

    /// The pending entry at this place from 0, the lowest; none exactly past the end.
    pub fn pending(&self, place: u32) -> Option<&Pending>
        ensures { option_copied result ≡ slice_get self.now.pending place }
    {
        self.pipe.pending(place)
    }
}

impl NodeState {
    /// How many objects there are: at most 256.
    pub fn object_count(&self) -> u16
        ensures count { result ≡ length self.now.entries }
        ensures most { result ≤ 256 }
    {
        self.dir.object_count() as u16
    }

    /// The own slot of this number. What stands in it keeps the ranges of the node.
    pub fn slot(&self, slot: SlotId) -> &Slot
        requires { slot < length self.now.slots }
        ensures value { result.now ≡ slot_of self.now slot }
        ensures ranges { KeepsRanges (limits_of self.now) self.now }
    {
        &self.slots[slot.place()]
    }

    /// How many entries of the foreign stream have passed, as far as the node knows; the lowest stored one has this
    /// number.
    pub fn stored_done(&self, s: Stream) -> u32
        requires { stream_fits (limits_of self.now) s ≡ true }
        ensures passed { result ≡ (log self.now s).done }
        ensures numbered { result + length (log self.now s).kept < 2 ^ 32 }
    {
        self.logs.done(s)
    }

    /// The stored entry of the foreign stream at this place from 0, the lowest; none exactly past the end.
    pub fn stored(&self, s: Stream, place: u32) -> Option<&Kept>
        requires { stream_fits (limits_of self.now) s ≡ true }
        ensures { option_copied result ≡ slice_get (log self.now s).kept place }
    {
        self.logs.kept(s, place)
    }
}
