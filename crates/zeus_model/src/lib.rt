//! The protocol machine: the data of a node's state, the answers, and in `specs/` the definitions of every rule.
#![tactic(auto)]

mod answer;
mod fault;
mod script;
mod state;

pub use answer::{Answer, Begin, Install, Made, Outcome, Stop, Ticked, Tried, TxState};
pub use fault::{Kind, ScriptFault};
pub use script::{Name, Names, Script};
pub use state::{Copy, Current, Entry, Gather, Kept, Pending};
pub use zeus_base::{Config, NodeId, NodeSet, ObjId, SlotId, Stamp, Steps, TxId, Value};
pub use zeus_packet::{Cause, Content, Place, Proposal, State, Writes};
pub use zeus_txn::{Named, Reply, Tx, TxList};
