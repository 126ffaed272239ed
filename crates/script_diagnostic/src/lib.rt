//! The one line that says what is wrong with a script: where its first fault is, the text of that
//! line, which word is wrong and how, and what may stand there.
#![tactic(auto)]

mod fitting;
mod forms;
mod lines;
mod message;
mod program;
mod shown;

pub use message::explain;
pub use program::explain_input;
pub use zeus_base::NoMemory;
pub use zeus_io::{Sink, Source, Status};
