//! What a node keeps of each object: its copy, and which slot holds it how often.
#![tactic(auto)]

mod copies;
mod hold;

pub use copies::Copies;
pub use hold::Hold;
pub use zeus_base::{Config, NoMemory, NodeId, ObjId, SlotId, Value};
pub use zeus_model::Copy;
pub use zeus_packet::{Content, Write};
