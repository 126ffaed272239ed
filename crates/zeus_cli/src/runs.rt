//! The answer to `run`.
ghost use Rattle.std.specs.Prelude.{◌≡◌, ◌<◌, ◌≤◌, ℕ, List, Option, IfOk, IsErrOf};
ghost use Rattle.zeus_io.specs.Faults.{Rose};
ghost use Rattle.zeus_cli.specs.Inputs.{TakesAll};
ghost use Rattle.zeus_cli.specs.Runs.{IsRunAnswer};

use crate::answer::{Answer, refuse, refuse_size};
use crate::input::{Halt, Input, read};
use script_lang::{MOST_BYTES, ReadScript, read_script};
use std::alloc::Global;
use zeus_base::NoMemory;
use zeus_io::{Source, Status};
use zeus_report::report;

/// The report of the script that these bytes spell, or the line for bytes that spell none.
fn report_of(alloc: Global, bytes: &[u8]) -> Result<Answer, NoMemory>
    ensures { IfOk result (λ a. (before after : Option (List ℕ)) → TakesAll before after bytes.now → IsRunAnswer before after a.status a.text.items) }
{
    match read_script(alloc, bytes, false) {
        Ok(script) => {
            let (text, _world) = report(alloc, &script)?;
            Ok(Answer {
                status: Status::Done,
                text,
            })
        }
        Err(ReadScript::Fault(fault)) => refuse(alloc, &fault),
        Err(ReadScript::NoMemory) => Err(NoMemory),
    }
}

/// The report of the script that the source gives, or the line for bytes that are none.
pub(crate) fn run_script<S: Source>(alloc: Global, source: &mut S) -> Result<Answer, Halt>
    ensures answer { IfOk result (λ a. IsRunAnswer (S.left source.old) (S.left source.new) a.status a.text.items) }
    ensures fault { IsErrOf result Halt.ReadFault → Rose (S.faults source.old) (S.faults source.new) }
    ensures told { S.faults source.old < S.faults source.new → IsErrOf result Halt.ReadFault }
    ensures later { S.faults source.old ≤ S.faults source.new }
{
    match read(alloc, source, MOST_BYTES)? {
        Input::Whole(bytes) => Ok(report_of(alloc, &bytes)?),
        Input::TooLong => Ok(refuse_size(alloc)?),
    }
}
