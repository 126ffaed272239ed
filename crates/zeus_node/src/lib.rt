//! A node of the cluster: what it does with a transaction, a try, a letter, a timer, a view and a stop.
#![tactic(auto)]

mod node;
mod receiving;

pub use node::Node;
pub use node_state::{Effect, Letters, NodeState, PassedList};
pub use zeus_base::{Config, NoMemory, NodeId, NodeSet, ObjId, SlotId, TxId};
pub use zeus_model::{Begin, Copy, Entry, Install, Outcome, Stop, Ticked, Tried};
pub use zeus_packet::{Letter, View};
pub use zeus_txn::Tx;
