//! Transactions: their operations, what they reply and write, and the store that one thread runs them on.
#![tactic(auto)]

mod lists;
mod map;
mod ops;
mod reply;
mod run;
mod tx;

pub use lists::{Named, NewValues, Values};
pub use map::{Map, Versioned};
pub use ops::Op;
pub use reply::{Ran, Reply};
pub use run::run_ops;
pub use tx::{Tx, TxDecl, TxFault, TxList};
pub use zeus_base::{Config, NoMemory, NodeId, ObjId, SlotId, TxId, Value};
