//! Auditing a report of a script, line by line.
ghost use Rattle.std.specs.Prelude.{◌≡◌, ◌≤◌, IfOk, length};
ghost use Rattle.zeus_model.specs.Scripts.{FitsScript};
ghost use Rattle.zeus_audit.specs.Auditing.{is_end, lines_taken, verdict_of, audited};
ghost use Rattle.zeus_audit.specs.Fitting.{Fits};
ghost use Rattle.zeus_audit.specs.Progress.{state_of};
ghost use Rattle.script_lang.specs.Cut.{cut};
ghost use Rattle.zeus_audit.specs.Serial.{IsSerialReport};

use crate::failure::Failure;
use crate::lines::take_line;
use crate::progress::Progress;
use crate::stage::Stage;
use crate::verdict::{Rule, Verdict};
use script_lang::Parts;
use std::alloc::Global;
use zeus_base::NoMemory;
use zeus_model::Script;

/// Whether the last line was told, and nothing stands behind it.
#[tactic(auto, unfolding(crate::specs::Auditing::is_end))]
fn is_end(stage: Stage, part: &[u8]) -> bool
    ensures { result ≡ is_end stage part.now }
{
    match stage {
        Stage::Ended => part.is_empty(),
        _ => false,
    }
}

/// The rule that a line broke, unless memory ran out.
fn rule_of(failure: Failure) -> Result<Rule, NoMemory>
    ensures { IfOk result (λ rule. failure ≡ Failure.Rule rule) }
{
    match failure {
        Failure::Rule(rule) => Ok(rule),
        Failure::NoMemory => Err(NoMemory),
    }
}

/// Takes the lines of a report from the first on, to the first that breaks a rule.
fn verdict_of(progress: &mut Progress, script: &Script, text: &[u8]) -> Result<Verdict, NoMemory>
    requires script { FitsScript script.now }
    requires fits { Fits script.now (state_of progress.old) }
    requires few { length text.now ≤ 2147483647 }
    ensures { IfOk result (λ verdict. verdict ≡ verdict_of (lines_taken script.now (state_of progress.old) 1 (cut 10 text.now))) }
{
    let mut lines = Parts::new(text, b'\n');
    let mut number: u64 = 1;
    while let Some(line) = lines.next_part() {
        if lines.is_done() {
            if is_end(progress.stage, line) {
                return Ok(Verdict::Sound);
            }
            return Ok(Verdict::Fails(number, Rule::Form));
        }
        match take_line(progress, script, line) {
            Ok(()) => number += 1,
            Err(failure) => return Ok(Verdict::Fails(number, rule_of(failure)?)),
        }
    }
    Ok(Verdict::Fails(number, Rule::Form))
}

/// What an audit of a report of the script finds: that each line keeps its rules, or the first line that breaks one,
/// counted from 1, with the first rule that it breaks. The protocol machine is not run: only the printed points are run, one
/// after another. The time is linear in the text, which has at most 2,147,483,647 bytes and is not copied.
///
/// # Errors
///
/// Memory ran out.
pub fn audit(alloc: Global, script: &Script, text: &[u8]) -> Result<Verdict, NoMemory>
    requires script { FitsScript script.now }
    requires few { length text.now ≤ 2147483647 }
    ensures verdict { IfOk result (λ verdict. verdict ≡ audited script.now text.now) }
    // What a yes implies.
    ensures serial { IfOk result (λ verdict. verdict ≡ Verdict.Sound → IsSerialReport script.now text.now) }
{
    let mut progress = Progress::new(alloc, script)?;
    let verdict = verdict_of(&mut progress, script, text)?;
    Ok(verdict)
}
