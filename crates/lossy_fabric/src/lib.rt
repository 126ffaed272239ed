//! The links between nodes: every packet that was ever sent, kept as the bytes that a network would carry.
#![tactic(auto)]

mod link;
mod links;

pub use links::Links;
pub use zeus_base::{NoMemory, NodeId};
pub use zeus_packet::{Letter, Packet};
