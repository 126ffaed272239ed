//! Reading a script of leases line by line.
ghost use Rattle.std.specs.Prelude.{◌≡◌, ◌≤◌, Ok, IfOk, IsErrOf, length};
ghost use Rattle.script_lang.specs.Cut.{cut};
ghost use Rattle.script_lang.specs.Following.{followed};
ghost use Rattle.zeus_model.specs.declared.fault.ScriptFault.{ScriptFault};
ghost use Rattle.zeus_lease.specs.declared.script.LeaseScript.{LeaseScript};
ghost use Rattle.zeus_lease.specs.Faults.{IsFaultOf};
ghost use Rattle.zeus_lease.specs.Reading.{ReadsScript, TakesAll, TakesNumbered, line_taken, script_of, script_read, state_of, taken};
ghost use Rattle.zeus_lease.specs.Scripts.{IsSpelled};

use crate::draft::Draft;
use crate::script::{LeaseScript, LeaseSteps};
use script_lang::{Failure, MOST_BYTES, Parts, ReadScript, is_last, unended};
use std::alloc::Global;
use zeus_model::{Kind, ScriptFault};

/// Takes the line of this number; whether it was the last one.
fn take_line(draft: &mut Draft, number: u32, line: &[u8]) -> Result<bool, ReadScript>
    ensures { TakesNumbered result draft.new number (line_taken (state_of draft.old) draft.old.stage (cut 32 line.now)) }
{
    match draft.take_line(&mut Parts::new(line, b' ')) {
        Ok(last) => Ok(last),
        Err(Failure::Kind(kind)) => Err(ReadScript::Fault(ScriptFault { line: number, kind })),
        Err(Failure::NoMemory) => Err(ReadScript::NoMemory),
    }
}

/// Takes all lines.
fn take_lines(draft: &mut Draft, bytes: &[u8]) -> Result<(), ReadScript>
    requires { length bytes.now ≤ 4194304 }
    ensures { TakesAll result draft.new (followed taken (state_of draft.old) 1 (cut 10 bytes.now)) }
{
    let mut lines = Parts::new(bytes, b'\n');
    let mut number: u32 = 1;
    while let Some(line) = lines.next_part() {
        if lines.is_done() {
            let kind = unended(line);
            return Err(ReadScript::Fault(ScriptFault { line: number, kind }));
        }
        if take_line(draft, number, line)? {
            if is_last(&mut lines) {
                return Ok(());
            }
            let kind = Kind::Extra;
            let line = number + 1;
            return Err(ReadScript::Fault(ScriptFault { line, kind }));
        }
        number += 1;
    }
    let kind = Kind::Missing;
    Err(ReadScript::Fault(ScriptFault { line: number, kind }))
}

/// The script that the lines say.
#[tactic(auto, unfolding(crate::specs::Reading::script_of))]
fn script_of(draft: Draft) -> LeaseScript
    ensures { result ≡ script_of (state_of draft) }
{
    LeaseScript {
        nodes: draft.nodes,
        length: draft.length,
        percent: draft.percent,
        steps: LeaseSteps::from_vec(draft.steps),
    }
}

/// The script that the bytes are, or the fault of their first faulty line; too many bytes have a fault at line 0.
#[tactic(auto, unfolding(crate::specs::Reading::script_read, crate::specs::Reading::scripted, crate::specs::Reading::start))]
fn script_of_bytes(alloc: Global, bytes: &[u8]) -> Result<LeaseScript, ReadScript>
    ensures { ReadsScript result (script_read bytes.now) }
{
    if bytes.len() > MOST_BYTES {
        let kind = Kind::Size;
        return Err(ReadScript::Fault(ScriptFault { line: 0, kind }));
    }
    let mut draft = Draft::new(alloc);
    take_lines(&mut draft, bytes)?;
    Ok(script_of(draft))
}

/// The script of leases that bytes are, or their first fault.
///
/// # Errors
/// `Fault` with the first faulty line, and what is wrong with the first of its words that does not fit; `NoMemory` where
/// memory was wanting.
#[tactic(auto, using(crate::proofs::FaultLaw::read_found, crate::proofs::FaultLaw::read_only))]
pub fn read_leases(alloc: Global, bytes: &[u8]) -> Result<LeaseScript, ReadScript>
    // What is read is spelled so.
    ensures found { IfOk result (λ s. IsSpelled bytes.now s) }
    // What is spelled so is read, unless memory ran out.
    ensures only { (s : LeaseScript) → IsSpelled bytes.now s → ReadsScript result (Ok s) }
    // A fault is that of the first line that reading line by line does not take.
    ensures read { ReadsScript result (script_read bytes.now) }
    // It is the one fault that the bytes have, without a word of how they are read.
    ensures fault { (f : ScriptFault) → IsErrOf result (ReadScript.Fault f) → IsFaultOf bytes.now f }
{
    script_of_bytes(alloc, bytes)
}
