//! `zeus_explain`: reads a script and writes, in one line, what is wrong with it; nothing, if it has no fault.
#![tactic(auto)]

use script_diagnostic::explain_input;
use std::process::ExitCode;
use zeus_io::{StdSink, StdSource};

fn main(rt: HostRuntime) -> ExitCode {
    let mut source = StdSource::new(rt.stdin());
    let mut sink = StdSink::new(rt.stdout());
    ExitCode::from(explain_input(rt.alloc(), &mut source, &mut sink).number())
}
