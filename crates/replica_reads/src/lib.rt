//! Reads of the copies of one node.
#![tactic(auto)]

mod reads;
mod run;

pub use object_table::Copies;
pub use reads::{ReadTry, try_read};
pub use run::run_on;
pub use zeus_base::ObjId;
pub use zeus_packet::State;
pub use zeus_txn::{Ran, Reply, Tx};
