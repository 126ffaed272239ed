//! Reading a script line by line.
ghost use Rattle.std.specs.Prelude.{◌≡◌, ◌≢◌, ◌≤◌, Ok, IfOk, IsErrOf, length};
ghost use Rattle.script_lang.specs.Cut.{cut};
ghost use Rattle.script_lang.specs.Drafts.{state_of, line_taken};
ghost use Rattle.zeus_model.specs.declared.fault.ScriptFault.{ScriptFault};
ghost use Rattle.zeus_model.specs.declared.script.Script.{Script};
ghost use Rattle.zeus_model.specs.Faults.{IsOfWord, IsWordFault};
ghost use Rattle.zeus_model.specs.FirstFault.{IsFirstFault, IsKindOfLine, TellsSize};
ghost use Rattle.zeus_model.specs.Scripts.{IsSpelled};
ghost use Rattle.script_lang.specs.Live.{FitsLive, opening};
ghost use Rattle.script_lang.specs.Reading.{ReadsScript, TakesAll, TakesNumbered, is_last, unended, lines_taken, script_of, script_read};

use crate::draft::Draft;
use crate::parts::Parts;
use crate::reading::ReadScript;
use crate::stage::Failure;
use std::alloc::{AllocError, Global};
use zeus_base::{Config, ObjectList, Steps};
use zeus_model::{Kind, Script, ScriptFault};
use zeus_txn::TxList;

/// The most bytes of a script.
pub const MOST_BYTES: usize = 4_194_304;

/// Takes the line of this number; whether it was the last one.
fn take_line(draft: &mut Draft, live: bool, number: u32, line: &[u8]) -> Result<bool, ReadScript>
    ensures { TakesNumbered result draft.new number (line_taken live (state_of draft.old) draft.old.stage (cut 32 line.now)) }
{
    match draft.take_line(live, &mut Parts::new(line, b' ')) {
        Ok(last) => Ok(last),
        Err(Failure::Kind(kind)) => Err(ReadScript::Fault(ScriptFault { line: number, kind })),
        Err(Failure::NoMemory) => Err(ReadScript::NoMemory),
    }
}

/// Whether nothing stands behind the last line.
#[tactic(auto, unfolding(crate::specs::Reading::is_last))]
pub fn is_last(rest: &mut Parts) -> bool
    ensures { result ≡ is_last rest.old }
{
    match rest.next_part() {
        Some(part) => part.is_empty() && rest.is_done(),
        None => false,
    }
}

/// What is wrong with a part that no byte 10 ends: there is none, or it is not ended.
#[tactic(auto, unfolding(crate::specs::Reading::unended))]
pub fn unended(part: &[u8]) -> Kind
    ensures { result ≡ unended part.now }
{
    if part.is_empty() {
        Kind::Missing
    } else {
        Kind::LineEnd
    }
}

/// Takes all lines.
fn take_lines(draft: &mut Draft, live: bool, bytes: &[u8]) -> Result<(), ReadScript>
    requires { length bytes.now ≤ 4194304 }
    ensures { TakesAll result draft.new (lines_taken live (state_of draft.old) 1 (cut 10 bytes.now)) }
{
    let mut lines = Parts::new(bytes, b'\n');
    let mut number: u32 = 1;
    while let Some(line) = lines.next_part() {
        if lines.is_done() {
            let kind = unended(line);
            return Err(ReadScript::Fault(ScriptFault { line: number, kind }));
        }
        if take_line(draft, live, number, line)? {
            if is_last(&mut lines) {
                return Ok(());
            }
            let kind = Kind::Extra;
            let line = number + 1;
            return Err(ReadScript::Fault(ScriptFault { line, kind }));
        }
        number += 1;
    }
    let kind = Kind::Missing;
    Err(ReadScript::Fault(ScriptFault { line: number, kind }))
}

/// The script that the lines say.
#[tactic(auto, unfolding(crate::specs::Reading::script_of))]
fn script_of(alloc: Global, draft: Draft) -> Result<Script, AllocError>
    ensures { IfOk result (λ s. s ≡ script_of (state_of draft)) }
{
    let names = draft.names.to_names(alloc)?;
    Ok(Script {
        config: Config {
            version: draft.head.version,
            nodes: draft.head.nodes,
            slots: draft.head.slots,
            directory: draft.head.directory,
            degree: draft.head.degree,
            objects: ObjectList::from_vec(draft.objects),
        },
        names,
        txs: TxList::from_vec(draft.txs),
        steps: Steps::from_vec(draft.steps),
    })
}

/// Reads line by line.
#[tactic(auto, unfolding(crate::specs::Reading::script_read, crate::specs::Reading::scripted, crate::specs::Reading::start))]
fn script_of_bytes(alloc: Global, bytes: &[u8], live: bool) -> Result<Script, ReadScript>
    ensures { ReadsScript result (script_read live bytes.now) }
{
    if bytes.len() > MOST_BYTES {
        let kind = Kind::Size;
        return Err(ReadScript::Fault(ScriptFault { line: 0, kind }));
    }
    let mut draft = Draft::new(alloc);
    take_lines(&mut draft, live, bytes)?;
    Ok(script_of(alloc, draft)?)
}

/// The script that bytes are, or their first fault.
///
/// Both versions are read, with the line of the degree and without it. With `live` a script has at most 1,000
/// transactions and no step.
///
/// # Errors
/// `Fault` with the first faulty line, and what is wrong with the first of its words that does not fit; `NoMemory` where
/// memory was wanting.
#[tactic(auto, using(crate::proofs::ReadSound::read_found, crate::proofs::ReadComplete::read_only))]
pub fn read_script(alloc: Global, bytes: &[u8], live: bool) -> Result<Script, ReadScript>
    // What is read is spelled so.
    ensures found { IfOk result (λ s. IsSpelled bytes.now s × FitsLive live s) }
    // What is spelled so is read, unless memory ran out.
    ensures only { (s : Script) → IsSpelled bytes.now s → FitsLive live s → ReadsScript result (Ok s) }
    // A fault is that of the first line that reading line by line does not take.
    ensures fault { ReadsScript result (script_read live bytes.now) }
    // Line 0 and the kind of the size each stand for too many bytes.
    ensures size { (f : ScriptFault) → IsErrOf result (ReadScript.Fault f) → TellsSize bytes.now f }
    // A faulty line is the first one up to which the lines begin no script.
    ensures first { (f : ScriptFault) → IsErrOf result (ReadScript.Fault f) → f.line ≢ 0 → IsFirstFault (FitsLive live) bytes.now f.line }
    // Its kind tells whether it is extra, missing or not ended.
    ensures kind { (f : ScriptFault) → IsErrOf result (ReadScript.Fault f) → f.line ≢ 0 → IsKindOfLine (FitsLive live) bytes.now f.line f.kind }
    // Any other kind is the first row that is met by the first word of the line that does not fit. The clauses so leave
    // one fault for each input (`one_fault`).
    ensures word { (f : ScriptFault) → IsErrOf result (ReadScript.Fault f) → IsOfWord f.kind → IsWordFault (opening live) bytes.now f.line f.kind }
{
    script_of_bytes(alloc, bytes, live)
}
