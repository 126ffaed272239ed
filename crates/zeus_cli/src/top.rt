//! From the words of the command line and the bytes of a source to the bytes of a sink.
ghost use Rattle.std.specs.Prelude.{◌≡◌, ◌<◌, ◌≤◌, ℕ, IfErr, IfOk, IsErrOf, Some, map, string_bytes, take};
ghost use Rattle.zeus_io.specs.Faults.{Rose};
ghost use Rattle.zeus_model.specs.ReportText.{start_of};
ghost use Rattle.zeus_model.specs.Sound.{Sound};
ghost use Rattle.zeus_model.specs.World.{run};
ghost use Rattle.zeus_model.specs.declared.script.Script.{Script as ScriptData};
ghost use Rattle.soundness.specs.Promise.{KeepsPromise};
ghost use Rattle.zeus_cli.specs.Command.{Asks, AsksInput, IsCommand, Reads};
ghost use Rattle.zeus_cli.specs.Ends.{EndsBy, HasInput, IsAnswer, IsComplete, IsHalt, status_of_halt};
ghost use Rattle.zeus_cli.specs.Runs.{TakesScript};
ghost use Rattle.zeus_cli.specs.declared.command.Command.{Command as CommandData};

use crate::answer::{Answer, write};
use crate::audits::run_audit;
use crate::command::{Command, command_of};
use crate::input::Halt;
use crate::leases::run_leases;
use crate::runs::run_script;
use crate::storms::run_storm;
use soundness::every_run_keeps_its_promise;
use std::alloc::Global;
use zeus_io::{Sink, Source, Status};

/// The line for words that the program does not know.
pub(crate) const USAGE: &[u8] = b"usage\n";

/// The answer to a command.
fn answer_to<S: Source>(alloc: Global, command: &Command, source: &mut S) -> Result<Answer, Halt>
    requires { IsCommand command.now }
    ensures answer { IfOk result (λ a. IsAnswer (Some command.now) (S.left source.old) (S.left source.new) a.status a.text.items) }
    ensures halt { IfErr result (λ h. IsHalt (Some command.now) (status_of_halt h)) }
    ensures no_input { ¬ Reads command.now → source.new ≡ source.old }
    ensures fault { IsErrOf result Halt.ReadFault → Rose (S.faults source.old) (S.faults source.new) }
    ensures told { S.faults source.old < S.faults source.new → IsErrOf result Halt.ReadFault }
    ensures later { S.faults source.old ≤ S.faults source.new }
{
    match command {
        Command::Run => run_script(alloc, source),
        Command::Lease => run_leases(alloc, source),
        Command::Audit => run_audit(alloc, source),
        Command::Storm(numbers) => Ok(run_storm(alloc, numbers)?),
    }
}

/// The program `zeus`. What it answers is made whole before it is written to the sink, and writing takes no memory.
///
/// - `run` reads a script, and writes the report of its run.
/// - `lease` reads a script of leases, and writes its answers.
/// - `audit` reads a script with a report behind it, and writes `audit ok`, or `audit LINE RULE` with the first line that
///   breaks a rule and the first rule that it breaks; the status is then `Unsound`.
/// - `storm NODES SLOTS OBJECTS TXS STEPS LOSS STOPS START` reads nothing, and writes the summary of a storm. The status is
///   `Unfinished` exactly if a transaction of it is not closed.
///
/// Bytes that are no input of their command give the line `script LINE KIND` of their fault, and the status `Script`. Other
/// words give the line `usage`, and the status `Usage`. The source is read to its end, or past 4,194,304 bytes, for `audit`
/// past 2,147,483,647; for `storm` and other words it is not called. If memory ran out nothing is written; nothing says when.
pub fn zeus_top<S: Source, K: Sink>(
    alloc: Global,
    words: &Vec<String>,
    source: &mut S,
    sink: &mut K,
) -> Status
    // What is answered and written, whatever the words.
    ensures whole { EndsBy (map string_bytes words.now.items) (S.left source.old) (S.left source.new) (K.held sink.old) (K.held sink.new) result }

    // The run of a script that was taken: its world is sound at the start, after each step, and at the end; and it keeps the
    // whole promise there.
    ensures sound { (s : ScriptData) → TakesScript (S.left source.old) (S.left source.new) s → (k : ℕ) → Sound (run (start_of s) (take k s.steps)) }
    ensures promise { (s : ScriptData) → TakesScript (S.left source.old) (S.left source.new) s → (k : ℕ) → KeepsPromise (start_of s) (take k s.steps) }

    // A fault is answered exactly if it rose in this call.
    ensures read_fault { result ≡ Status.ReadFault → Rose (S.faults source.old) (S.faults source.new) × (sink.new ≡ sink.old) }
    ensures read_told { S.faults source.old < S.faults source.new → result ≡ Status.ReadFault }
    ensures write_fault { result ≡ Status.WriteFault → Rose (K.faults sink.old) (K.faults sink.new) }
    ensures write_told { K.faults sink.old < K.faults sink.new → result ≡ Status.WriteFault }
    ensures memory { result ≡ Status.OutOfMemory → sink.new ≡ sink.old }

    // Words that ask for no input leave the source alone; an input of a command is answered.
    ensures no_input { ¬ AsksInput (map string_bytes words.now.items) → source.new ≡ source.old }
    ensures complete { (c : CommandData) → Asks (map string_bytes words.now.items) (Some c) → HasInput c (S.left source.old)
        → ¬ Rose (S.faults source.old) (S.faults source.new) → ¬ Rose (K.faults sink.old) (K.faults sink.new) → IsComplete c result }
{
    // The theorem over every run. The call does nothing.
    every_run_keeps_its_promise();
    let Some(command) = command_of(words) else {
        return write(sink, USAGE, Status::Usage);
    };
    match answer_to(alloc, &command, source) {
        Ok(answer) => write(sink, answer.text.as_slice(), answer.status),
        Err(halt) => halt.status(),
    }
}
