//! `zeus_bank`: runs a bank on the store, and prints what became of its money.
#![tactic(auto)]

use smallbank::answer_command;
use std::env;
use std::process::ExitCode;
use zeus_io::StdSink;

fn main(rt: HostRuntime) -> ExitCode {
    let mut sink = StdSink::new(rt.stdout());
    ExitCode::from(answer_command(rt.alloc(), env::args(&rt), &mut sink))
}
