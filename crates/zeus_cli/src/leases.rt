//! The answer to `lease`.
ghost use Rattle.std.specs.Prelude.{◌≡◌, ◌<◌, ◌≤◌, ℕ, List, Option, IfOk, IsErrOf};
ghost use Rattle.zeus_io.specs.Faults.{Rose};
ghost use Rattle.zeus_cli.specs.Inputs.{TakesAll};
ghost use Rattle.zeus_cli.specs.Leases.{IsLeaseAnswer};

use crate::answer::{Answer, refuse, refuse_size};
use crate::input::{Halt, Input, read};
use script_lang::{MOST_BYTES, ReadScript};
use std::alloc::Global;
use zeus_base::NoMemory;
use zeus_io::{Source, Status};
use zeus_lease::{a_node_left_out_never_acts, lease_text, read_leases};

/// The answers of the script of leases that these bytes spell, or the line for bytes that spell none.
fn answers_of(alloc: Global, bytes: &[u8]) -> Result<Answer, NoMemory>
    ensures { IfOk result (λ a. (before after : Option (List ℕ)) → TakesAll before after bytes.now → IsLeaseAnswer before after a.status a.text.items) }
{
    // The law over every list of steps. The call does nothing.
    a_node_left_out_never_acts();
    match read_leases(alloc, bytes) {
        Ok(script) => Ok(Answer {
            status: Status::Done,
            text: lease_text(alloc, &script)?,
        }),
        Err(ReadScript::Fault(fault)) => refuse(alloc, &fault),
        Err(ReadScript::NoMemory) => Err(NoMemory),
    }
}

/// The answers of the script of leases that the source gives, or the line for bytes that are none.
pub(crate) fn run_leases<S: Source>(alloc: Global, source: &mut S) -> Result<Answer, Halt>
    ensures answer { IfOk result (λ a. IsLeaseAnswer (S.left source.old) (S.left source.new) a.status a.text.items) }
    ensures fault { IsErrOf result Halt.ReadFault → Rose (S.faults source.old) (S.faults source.new) }
    ensures told { S.faults source.old < S.faults source.new → IsErrOf result Halt.ReadFault }
    ensures later { S.faults source.old ≤ S.faults source.new }
{
    match read(alloc, source, MOST_BYTES)? {
        Input::Whole(bytes) => Ok(answers_of(alloc, &bytes)?),
        Input::TooLong => Ok(refuse_size(alloc)?),
    }
}
