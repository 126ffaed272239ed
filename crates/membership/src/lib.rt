//! The membership service, which makes the views, and the barrier that a node waits at in each of them.
#![tactic(auto)]

mod barrier;
mod service;

pub use barrier::Barrier;
pub use service::Service;
pub use zeus_base::{NoMemory, NodeId, NodeSet};
pub use zeus_model::Made;
pub use zeus_packet::View;
