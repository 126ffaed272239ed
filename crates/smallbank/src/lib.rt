//! A bank after Smallbank, on four nodes: its accounts are objects of the store, its transactions come at random, and its run
//! is a random schedule.
#![tactic(auto)]

mod command;
mod lists;
mod orders;
mod run;
mod script;
mod top;

pub use bank_ledger::BankTx;
pub use bank_report::BankNumbers;
pub use command::answer_command;
pub use orders::Order;
pub use run::{BankRun, bank_run};
pub use top::bank_top;
pub use zeus_base::{NoMemory, NodeId, SlotId};
pub use zeus_io::{Sink, Status};
