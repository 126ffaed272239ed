//! The acknowledgements of proposals: what a node has gathered of each, when it can decide, and what a source gives.
#![tactic(auto)]

mod gathers;
mod source;

pub use gathers::{Ack, Decision, Gathers};
pub use object_table::Copies;
pub use source::{GiveUp, give_up};
pub use zeus_base::{Config, NoMemory, NodeId, NodeSet, ObjId, SlotId, Stamp};
pub use zeus_model::Gather;
pub use zeus_packet::{Cause, Content, Proposal};
