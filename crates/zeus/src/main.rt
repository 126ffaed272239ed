//! `zeus`: runs scripts of the protocol and storms, answers scripts of leases, and audits reports.
#![tactic(auto)]

use std::env;
use std::process::ExitCode;
use zeus_cli::answer_command;
use zeus_io::{StdSink, StdSource};

fn main(rt: HostRuntime) -> ExitCode {
    let mut source = StdSource::new(rt.stdin());
    let mut sink = StdSink::new(rt.stdout());
    ExitCode::from(answer_command(rt.alloc(), env::args(&rt), &mut source, &mut sink))
}
