//! Whether a node may drive a request for an object, and the proposal that it then makes of the request.
#![tactic(auto)]

mod drive;

pub use drive::{Drive, Drives};
pub use owner_entry::Dir;
pub use zeus_base::{NodeId, NodeSet, ObjId};
pub use zeus_packet::{Cause, Proposal, Want};
