//! The program that explains the first fault of its input.
ghost use Rattle.std.specs.Prelude.{◌≡◌, ◌<◌, ◌≤◌, ◌⊎◌, ℕ, List, false, IfOk, IsErrOf, length};
ghost use Rattle.zeus_io.specs.Faults.{Rose};
ghost use Rattle.script_lang.specs.Reading.{script_read};
ghost use Rattle.script_diagnostic.specs.Input.{IsExplained, Writes, WritesFront};
ghost use Rattle.script_diagnostic.specs.Text.{explained};

use crate::message::{explain, size_line};
use script_lang::MOST_BYTES;
use std::alloc::Global;
use zeus_base::NoMemory;
use zeus_io::{ReadEnd, Sink, Source, Status, WriteFault, read_all, write_all};

/// Why there is nothing to write.
#[derive(Clone, Copy)]
enum Halt {
    /// The source failed.
    ReadFault,
    /// Memory ran out.
    NoMemory,
}

impl From<NoMemory> for Halt {
    ghost use Rattle.script_diagnostic.specs.declared.program.Halt.TheVariants.{NoMemory as OutOfMemory};

    ghost from_gives = { λ _ e. e ≡ OutOfMemory };

    fn from(_: NoMemory) -> Self {
        Halt::NoMemory
    }
}

/// The line for more bytes than a script may have, whatever they are.
fn too_long(alloc: Global) -> Result<Vec<u8>, NoMemory>
    ensures { (bytes : List ℕ) → 4194304 < length bytes → IfOk result (λ text. text.items ≡ explained bytes (script_read false bytes)) }
{
    size_line(alloc)
}

/// The line for what the source gives.
fn explain_source<S: Source>(alloc: Global, source: &mut S) -> Result<Vec<u8>, Halt>
    ensures text { IfOk result (λ text. IsExplained (S.left source.old) (S.left source.new) text.items) }
    ensures fault { IsErrOf result Halt.ReadFault → Rose (S.faults source.old) (S.faults source.new) }
    ensures told { S.faults source.old < S.faults source.new → IsErrOf result Halt.ReadFault }
    ensures later { S.faults source.old ≤ S.faults source.new }
{
    match read_all(alloc, source, MOST_BYTES) {
        Ok(bytes) => Ok(explain(alloc, &bytes)?),
        Err(ReadEnd::TooLong) => Ok(too_long(alloc)?),
        Err(ReadEnd::ReadFault) => Err(Halt::ReadFault),
        Err(ReadEnd::NoMemory) => Err(Halt::NoMemory),
    }
}

/// The whole program: reads a script from the source, and writes the line that explains its first fault to the sink;
/// nothing, if it has none. The source is read to its end, or past 4,194,304 bytes.
///
/// It answers, in this order:
///
/// 1. `ReadFault` exactly if the source failed; nothing is written.
/// 2. `OutOfMemory` if memory ran out; nothing is written.
/// 3. `WriteFault` exactly if the sink failed; it then holds a front of the line more than before.
/// 4. `Done` else: the line is written, whole.
pub fn explain_input<S: Source, K: Sink>(alloc: Global, source: &mut S, sink: &mut K) -> Status
    ensures done { result ≡ Status.Done → Writes (K.held sink.old) (K.held sink.new) (IsExplained (S.left source.old) (S.left source.new)) }
    ensures read_fault { result ≡ Status.ReadFault → Rose (S.faults source.old) (S.faults source.new) × (sink.new ≡ sink.old) }
    ensures read_told { S.faults source.old < S.faults source.new → result ≡ Status.ReadFault }
    ensures write_fault { result ≡ Status.WriteFault → Rose (K.faults sink.old) (K.faults sink.new) }
    ensures front { result ≡ Status.WriteFault → WritesFront (K.held sink.old) (K.held sink.new) (IsExplained (S.left source.old) (S.left source.new)) }
    ensures write_told { K.faults sink.old < K.faults sink.new → result ≡ Status.WriteFault }
    ensures memory { result ≡ Status.OutOfMemory → sink.new ≡ sink.old }
    ensures others { (result ≡ Status.Done) ⊎ (result ≡ Status.ReadFault) ⊎ (result ≡ Status.WriteFault) ⊎ (result ≡ Status.OutOfMemory) }
{
    match explain_source(alloc, source) {
        Ok(line) => match write_all(sink, &line) {
            Ok(()) => Status::Done,
            Err(WriteFault) => Status::WriteFault,
        },
        Err(Halt::ReadFault) => Status::ReadFault,
        Err(Halt::NoMemory) => Status::OutOfMemory,
    }
}
