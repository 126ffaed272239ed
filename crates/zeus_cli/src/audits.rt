//! The answer to `audit`.
ghost use Rattle.std.specs.Prelude.{◌≡◌, ◌<◌, ◌≤◌, ℕ, List, Option, IfOk, IsErrOf};
ghost use Rattle.zeus_io.specs.Faults.{Rose};
ghost use Rattle.zeus_cli.specs.Audits.{IsAuditAnswer, verdict_status};
ghost use Rattle.zeus_cli.specs.Inputs.{TakesAll};

use crate::answer::{Answer, refuse, refuse_size};
use crate::input::{Halt, Input, read};
use std::alloc::Global;
use zeus_audit::{
    ReadScript, Verdict, a_sound_report_is_a_serial_history, audit_input, verdict_line,
};
use zeus_base::NoMemory;
use zeus_io::{Source, Status};

/// The most bytes of a script with its report.
const LONGEST: usize = 2_147_483_647;

fn verdict_status(verdict: &Verdict) -> Status
    ensures { result ≡ verdict_status verdict.now }
{
    match verdict {
        Verdict::Sound => Status::Done,
        Verdict::Fails(_, _) => Status::Unsound,
    }
}

/// What an audit of a script with its report finds, or the line for bytes that are none.
fn verdict_of(alloc: Global, bytes: &[u8]) -> Result<Answer, NoMemory>
    ensures { IfOk result (λ a. (before after : Option (List ℕ)) → TakesAll before after bytes.now → IsAuditAnswer before after a.status a.text.items) }
{
    // The law over every report. The call does nothing.
    a_sound_report_is_a_serial_history();
    match audit_input(alloc, bytes) {
        Ok(verdict) => Ok(Answer {
            status: verdict_status(&verdict),
            text: verdict_line(alloc, &verdict)?,
        }),
        Err(ReadScript::Fault(fault)) => refuse(alloc, &fault),
        Err(ReadScript::NoMemory) => Err(NoMemory),
    }
}

/// What an audit of the script with its report that the source gives finds, or the line for bytes that are none.
pub(crate) fn run_audit<S: Source>(alloc: Global, source: &mut S) -> Result<Answer, Halt>
    ensures answer { IfOk result (λ a. IsAuditAnswer (S.left source.old) (S.left source.new) a.status a.text.items) }
    ensures fault { IsErrOf result Halt.ReadFault → Rose (S.faults source.old) (S.faults source.new) }
    ensures told { S.faults source.old < S.faults source.new → IsErrOf result Halt.ReadFault }
    ensures later { S.faults source.old ≤ S.faults source.new }
{
    match read(alloc, source, LONGEST)? {
        Input::Whole(bytes) => Ok(verdict_of(alloc, &bytes)?),
        Input::TooLong => Ok(refuse_size(alloc)?),
    }
}
