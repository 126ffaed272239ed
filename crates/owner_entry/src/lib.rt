//! What a node knows of the placement of each object: an entry owned, settled, or given a proposal to hold.
#![tactic(auto)]

mod dir;
mod entry;

pub use dir::Dir;
pub use entry::{Accept, OwnerEntry};
pub use zeus_base::{Config, NoMemory, NodeId, NodeSet, ObjId, Stamp};
pub use zeus_model::Entry;
pub use zeus_packet::{Place, Proposal};
