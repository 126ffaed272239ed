//! The commits of an own slot that wait for acknowledgements, numbered in order, and what is still to be acknowledged.
#![tactic(auto)]

mod due;
mod pipe;

pub use due::Due;
pub use pipe::{Full, Pipe, PipeOver, PlainPipe};
pub use zeus_base::{NoMemory, NodeId, NodeSet};
pub use zeus_model::Pending;
pub use zeus_packet::Window;
