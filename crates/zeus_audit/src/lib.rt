//! Auditing a report: whether its lines can be true of a script, told without running the machine.
#![tactic(auto)]

mod auditing;
mod events;
mod expected;
mod failure;
mod input;
mod law;
mod lines;
mod objects;
mod progress;
mod replies;
mod shapes;
mod stage;
mod steps;
mod verdict;

pub use auditing::audit;
pub use input::audit_input;
pub use law::a_sound_report_is_a_serial_history;
pub use script_lang::ReadScript;
pub use verdict::{Rule, Verdict, verdict_line};
pub use zeus_base::NoMemory;
pub use zeus_model::Script;
