//! Commit and replication at a node: entries are stored and taken in order, acknowledged, and passed.
#![tactic(auto)]

mod advance;
mod follow;
mod writes;

pub use advance::{Advance, advance_kept, advance_own};
pub use commit_pipeline::Pipe;
pub use follow::{RInvAnswer, RValAnswer, on_rinv, on_rval};
pub use follower_log::Stored;
pub use object_table::Copies;
pub use zeus_base::{NodeId, NodeSet, Stream};
pub use zeus_packet::{Cause, RInv};
