//! Bytes in and bytes out: the traits of sources and sinks, what reads one to its end and writes
//! to the other, and the sources and sinks in memory and over standard input and output.
//!
//! A source or a sink counts its own faults, so that no caller can blame the outside for what it
//! gave up itself: who answers that reading or writing failed says by a clause that the count rose.
#![tactic(auto)]

mod memory;
mod planned;
mod sink;
mod source;
mod standard;
mod status;
mod transfer;

pub use memory::{SafeSink, SafeSource};
pub use planned::{MemSink, MemSource};
pub use sink::Sink;
pub use source::{Failed, Source};
pub use standard::{StdSink, StdSource};
pub use status::Status;
pub use transfer::{ReadEnd, WriteFault, read_all, write_all};
