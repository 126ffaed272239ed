//! Packets as bytes, and back.
#![tactic(auto)]

mod fault;
mod laws;
mod reading;
mod writing;

pub use fault::WireFault;
pub use laws::{what_is_read_is_spelled_so, what_was_written_is_read_again};
pub use reading::{decode, decode_front};
pub use writing::{encode, encode_into, encode_letter_into, largest, longest};
pub use zeus_base::{NoMemory, Text};
pub use zeus_packet::{
    Body, Content, Letter, Limits, NodeId, NodeSet, ObjId, Packet, Place, Proposal, SlotId, Stamp,
    Stream, Want, Write, Writes,
};
