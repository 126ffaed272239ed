//! Scripts as text: reading them, with the first fault of what is no script, and printing them.
#![tactic(auto)]

mod builder;
mod draft;
mod fault_law;
mod head;
mod keywords;
mod names;
mod objects;
mod parts;
mod print;
mod reader;
mod reading;
mod stage;
mod steps;
mod transactions;
mod words;

pub use fault_law::other_bytes_have_one_fault;
pub use parts::Parts;
pub use print::print_script;
pub use reader::{MOST_BYTES, is_last, read_script, unended};
pub use reading::ReadScript;
pub use stage::Failure;
pub use words::NodeRule;
pub use zeus_base::NoMemory;
pub use zeus_model::{Kind, Name, Names, Script, ScriptFault};
