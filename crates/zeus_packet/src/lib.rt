//! Views, placements, proposals, letters and packets: what nodes send to each other.
#![tactic(auto)]

mod letter;
mod place;
mod ranges;
mod window;
mod write;

pub use letter::{Body, Cause, Letter, Packet, RInv, State};
pub use place::{Place, Proposal, View, Want, arbiters, new_place, source};
pub use ranges::fits;
pub use window::{NewWindow, PlainWindow, RingWindow, WINDOW_DEPTH, Window};
pub use write::{Content, Write, Writes};
pub use zeus_base::{Limits, NoMemory, NodeId, NodeSet, ObjId, SlotId, Stamp, Stream, Value};
