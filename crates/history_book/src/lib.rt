//! The log of a run: when each transaction was begun, had its point and was acknowledged, and with which reply.
#![tactic(auto)]

mod book;
mod entries;
mod passes;
mod readers;
mod record;
mod tries;
mod tx_ids;

pub use book::Book;
pub use tx_ids::TxIds;
pub use zeus_base::{Config, NoMemory, NodeId, Passed, SlotId, Stream, TxId};
pub use zeus_model::{Begin, Tried, TxState};
pub use zeus_txn::Reply;
