//! What a node stores of the streams of other nodes: the entries of each, in order, until they have passed.
#![tactic(auto)]

mod log;
mod stored;

pub use stored::{Store, Stored, StoredOver};
pub use zeus_base::{Config, NoMemory, NodeId, NodeSet, Stream};
pub use zeus_model::Kept;
pub use zeus_packet::{RInv, Window};
