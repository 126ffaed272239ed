//! What a node says again when its timer fires, since every letter may have been lost on its way.
#![tactic(auto)]

mod entries;
mod leaves;
mod proposals;
mod timer;

pub use node_state::{Effect, NodeState};
pub use timer::tick;
pub use zeus_model::Ticked;
