//! The state of a node, seen as the node of the rules, and each small change of it as one call.
#![tactic(auto)]

mod attempt;
mod commit;
mod effect;
mod local;
mod ownership;
mod passes;
mod proposals;
mod requests;
mod slot;
mod state;
mod tick;

pub use arbitration::{Ack, Decision, Gathers};
pub use attempt::SlotTry;
pub use commit_pipeline::Pipe;
pub use directory::Drive;
pub use effect::{Effect, Letters, PassedList};
pub use follower_log::Stored;
pub use local_txn::WriteTry;
pub use membership::Barrier;
pub use object_table::Copies;
pub use owner_entry::Dir;
pub use reliable_commit::{Advance, RInvAnswer, RValAnswer};
pub use replica_reads::ReadTry;
pub use slot::Slot;
pub use state::NodeState;
pub use zeus_base::{
    Config, NoMemory, NodeId, NodeSet, ObjId, Passed, SlotId, Stamp, Stream, TxId,
};
pub use zeus_model::{Copy, Current, Entry, Kept, Pending};
pub use zeus_packet::{Body, Cause, Content, Letter, Place, Proposal, RInv, View, Want};
