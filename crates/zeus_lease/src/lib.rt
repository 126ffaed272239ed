//! Leases by clocks: why the membership service may leave a node out. A script of leases is read, with the first fault of
//! what is none, and each of its steps is answered.
#![tactic(auto)]

mod answer;
mod draft;
mod fault_law;
mod head;
mod keywords;
mod law;
mod leases;
mod print;
mod reader;
mod script;
mod state;
mod step;
mod steps;

pub use answer::LeaseAnswer;
pub use fault_law::other_bytes_have_one_fault;
pub use law::a_node_left_out_never_acts;
pub use leases::Leases;
pub use print::lease_text;
pub use reader::read_leases;
pub use script::{LeaseScript, LeaseSteps};
pub use script_lang::ReadScript;
pub use step::{LeaseStep, Ticks};
pub use zeus_base::{NoMemory, NodeId, NodeSet};
pub use zeus_model::{Kind, Made, ScriptFault};
