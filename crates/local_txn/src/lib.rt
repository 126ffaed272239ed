//! Write transactions at the node that owns what they name: why one is not committed, and the commit.
#![tactic(auto)]

mod attempt;
mod causes;
mod commit;

pub use attempt::{WriteTry, try_write};
pub use commit_pipeline::Pipe;
pub use object_table::Copies;
pub use owner_entry::Dir;
pub use zeus_base::{NodeId, ObjId, SlotId, TxId};
pub use zeus_txn::{Reply, Tx};
