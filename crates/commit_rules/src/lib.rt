//! The rules of commit and replication at a node: what it does with the letters of streams, and how it finishes.
#![tactic(auto)]

mod finishing;
mod follow;

pub use finishing::finish;
pub use follow::{on_rack, on_recovered, on_rinv, on_rval};
pub use node_state::{Effect, NodeState};
pub use zeus_base::{NodeId, Stream};
pub use zeus_model::Outcome;
pub use zeus_packet::RInv;
