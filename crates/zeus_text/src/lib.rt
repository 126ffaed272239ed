//! The words that scripts and reports are written with, each written at the end of a buffer.
#![tactic(auto)]

mod replies;
mod steps;
mod words;

pub use replies::write_reply;
pub use steps::{write_members, write_step};
pub use words::{
    append, append_byte, write_behind, write_counted, write_decimal, write_line_end, write_number,
    write_object, write_value, write_word,
};
pub use zeus_base::{NoMemory, NodeSet, ObjId, Step, Value};
pub use zeus_model::Name;
