//! The rules of ownership at a node: requests, proposals, their acknowledgements, and decided placements.
#![tactic(auto)]

mod decide;
mod gather;
mod propose;
mod request;
mod tell;

pub use gather::on_oack;
pub use node_state::{Effect, NodeState};
pub use propose::{on_oinv, on_oval};
pub use request::on_oreq;
pub use zeus_base::{NodeId, ObjId, Stamp};
pub use zeus_model::Outcome;
pub use zeus_packet::{Content, Place, Proposal, Want};
