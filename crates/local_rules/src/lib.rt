//! The transactions of a node's slots: begun, and tried until they are read, refused or committed.
#![tactic(auto)]

mod begins;
mod reads;
mod tries;
mod writes;

pub use begins::begin;
pub use node_state::{Effect, NodeState};
pub use tries::try_slot;
pub use zeus_base::{SlotId, TxId};
pub use zeus_model::{Begin, Tried};
pub use zeus_txn::Tx;
