//! The replay of the streams of nodes that are no members: which stream is next, and whether one is left.
#![tactic(auto)]

mod replay;

pub use follower_log::Stored;
pub use replay::{is_recovered, next_replay};
pub use zeus_base::{NodeSet, Stream};
