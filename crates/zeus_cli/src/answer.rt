//! Answers, the refusal of bytes that are no input, and the writing of an answer.
ghost use Rattle.std.specs.Prelude.{◌≡◌, IfOk};
ghost use Rattle.script_lang.specs.Reading.{fault_at};
ghost use Rattle.zeus_model.specs.declared.fault.Kind.TheVariants.{Size};
ghost use Rattle.zeus_cli.specs.Ends.{IsWritten};
ghost use Rattle.zeus_cli.specs.Refusal.{fault_line};

use crate::fault::fault_line;
use std::alloc::Global;
use zeus_base::NoMemory;
use zeus_io::{Sink, Status, WriteFault, write_all};
use zeus_model::{Kind, ScriptFault};

/// An answer: what is to be written, and the status that goes with it.
#[derive(Debug, Drop)]
pub(crate) struct Answer {
    pub(crate) status: Status,
    pub(crate) text: Vec<u8>,
}

/// The answer to bytes that have this fault.
pub(crate) fn refuse(alloc: Global, fault: &ScriptFault) -> Result<Answer, NoMemory>
    ensures status { IfOk result (λ a. a.status ≡ Status.Script) }
    ensures line { IfOk result (λ a. a.text.items ≡ fault_line fault.now) }
{
    Ok(Answer {
        status: Status::Script,
        text: fault_line(alloc, fault)?,
    })
}

/// The answer to more bytes than the command can take.
pub(crate) fn refuse_size(alloc: Global) -> Result<Answer, NoMemory>
    ensures status { IfOk result (λ a. a.status ≡ Status.Script) }
    ensures line { IfOk result (λ a. a.text.items ≡ fault_line (fault_at 0 Size)) }
{
    let size = ScriptFault {
        line: 0,
        kind: Kind::Size,
    };
    refuse(alloc, &size)
}

/// Writes the text of an answer. Gives the status of the answer, or that the sink failed.
pub(crate) fn write<K: Sink>(sink: &mut K, text: &[u8], status: Status) -> Status
    ensures { IsWritten (K.held sink.old) (K.held sink.new) (K.faults sink.old) (K.faults sink.new) text.now status result }
{
    match write_all(sink, text) {
        Ok(()) => status,
        Err(WriteFault) => Status::WriteFault,
    }
}
