//! The program `zeus`, from the arguments that the machine gives it to its exit status, over any source and sink.
#![tactic(auto)]

mod answer;
mod audits;
mod command;
mod fault;
mod input;
mod leases;
mod program;
mod runs;
mod storms;
mod top;

pub use program::answer_command;
pub use top::zeus_top;
pub use zeus_io::{Sink, Source, Status};
