//! A run of the machine: its nodes, the letters on its links, its views, and its book of transactions.
#![tactic(auto)]

mod acts;
mod alone;
mod event;
mod order;
mod posting;
mod readers;
mod report;
mod serial;
mod steps;
mod world;

pub use event::{Sent, StepEvent};
pub use history_book::{Book, TxIds};
pub use lossy_fabric::Links;
pub use membership::Service;
pub use report::{Packets, Report};
pub use world::World;
pub use zeus_base::{Config, NoMemory, NodeId, ObjId, Step, TxId};
pub use zeus_model::{Answer, Copy, TxState};
pub use zeus_node::{Effect, Node};
pub use zeus_packet::{Letter, Packet, Place};
pub use zeus_txn::{Map, Reply, TxList};
