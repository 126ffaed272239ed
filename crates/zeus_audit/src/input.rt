//! An input of the audit: a script, and behind it a report.
ghost use Rattle.std.specs.Prelude.{◌≡◌, ◌≤◌, length};
ghost use Rattle.script_lang.specs.Cut.{cut};
ghost use Rattle.zeus_audit.specs.Inputs.{script_length, input_audited, AuditsInput};

use crate::auditing::audit;
use crate::verdict::Verdict;
use script_lang::{Parts, ReadScript, read_script};
use std::alloc::Global;
use zeus_base::NoMemory;
use zeus_model::{Kind, ScriptFault};

/// The most bytes of an input.
const MOST_BYTES: usize = 2_147_483_647;

/// How many bytes there are up to and with the first line `end`; all, if there is no such line.
fn script_length(bytes: &[u8]) -> usize
    requires { length bytes.now ≤ 2147483647 }
    ensures length { result ≡ script_length (cut 10 bytes.now) }
    ensures within { result ≤ length bytes.now }
{
    let mut lines = Parts::new(bytes, b'\n');
    let mut count = 0;
    while let Some(line) = lines.next_part() {
        count += line.len();
        if lines.is_done() {
            return count;
        }
        count += 1;
        if line == b"end".as_slice() {
            return count;
        }
    }
    count
}

/// What an audit of the input finds. Up to and with the first line `end` it is a script, which `read_script` reads; the rest
/// is the report.
///
/// # Errors
///
/// `Fault` if there are more than 2,147,483,647 bytes, at line 0, or if the bytes of the script are none; `NoMemory` if memory
/// ran out.
#[tactic(auto, unfolding(crate::specs::Inputs::input_audited, crate::specs::Inputs::behind_script))]
pub fn audit_input(alloc: Global, bytes: &[u8]) -> Result<Verdict, ReadScript>
    ensures { AuditsInput result (input_audited bytes.now) }
{
    if bytes.len() > MOST_BYTES {
        let kind = Kind::Size;
        return Err(ReadScript::Fault(ScriptFault { line: 0, kind }));
    }
    let end = script_length(bytes);
    let script = read_script(alloc, &bytes[..end], false)?;
    match audit(alloc, &script, &bytes[end..]) {
        Ok(verdict) => Ok(verdict),
        Err(NoMemory) => Err(ReadScript::NoMemory),
    }
}
