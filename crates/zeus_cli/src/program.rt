//! From the arguments that the machine gives to the exit status.
ghost use Rattle.std.specs.Prelude.{◌≡◌, ◌<◌, ◌⊎◌, ℕ, IfOk, Some, drop, take};
ghost use Rattle.std.specs.Vec.Iter.{into_iter_items};
ghost use Rattle.zeus_io.specs.Faults.{Rose};
ghost use Rattle.zeus_io.specs.Status.{exit_status};
ghost use Rattle.zeus_model.specs.ReportText.{start_of};
ghost use Rattle.zeus_model.specs.Sound.{Sound};
ghost use Rattle.zeus_model.specs.World.{run};
ghost use Rattle.zeus_model.specs.declared.script.Script.{Script as ScriptData};
ghost use Rattle.soundness.specs.Promise.{KeepsPromise};
ghost use Rattle.zeus_cli.specs.Command.{AsksBy, AsksInputBy};
ghost use Rattle.zeus_cli.specs.Ends.{EndsByArgs, HasInput, IsCompleteBy, IsStarved};
ghost use Rattle.zeus_cli.specs.Runs.{TakesScript};
ghost use Rattle.zeus_cli.specs.declared.command.Command.{Command as CommandData};

use crate::answer::write;
use crate::top::{USAGE, zeus_top};
use soundness::every_run_keeps_its_promise;
use std::alloc::{AllocError, Global};
use std::env::Args;
use std::io::{Error, ErrorKind};
use zeus_io::{Sink, Source, Status};

/// The words behind the program's own name.
fn words_of(alloc: Global, mut args: Args) -> Result<Vec<String>, AllocError>
    ensures { IfOk result (λ words. words.items ≡ drop 1 (into_iter_items args)) }
{
    let _own_name = args.next();
    args.collect(alloc)
}

/// The whole program `zeus`, from the arguments that the machine gives it to its exit status: `zeus_top` with the words
/// behind the program's own name, and the number of the status that it answers.
///
/// Two things can be wrong with the arguments. If one is no text, they are words that the program does not know. If
/// memory runs out for them, that is the status, and nothing is read or written.
pub fn answer_command<S: Source, K: Sink>(
    alloc: Global,
    args: Result<Args, Error>,
    source: &mut S,
    sink: &mut K,
) -> u8
    // What is answered and written, whatever the arguments.
    ensures whole { EndsByArgs args (S.left source.old) (S.left source.new) (K.held sink.old) (K.held sink.new) result
        ⊎ IsStarved (S.left source.old) (S.left source.new) (K.held sink.old) (K.held sink.new) result }

    // The run of a script that was taken: its world is sound at the start, after each step, and at the end; and it keeps the
    // whole promise there.
    ensures sound { (s : ScriptData) → TakesScript (S.left source.old) (S.left source.new) s → (k : ℕ) → Sound (run (start_of s) (take k s.steps)) }
    ensures promise { (s : ScriptData) → TakesScript (S.left source.old) (S.left source.new) s → (k : ℕ) → KeepsPromise (start_of s) (take k s.steps) }

    // A fault is answered exactly if it rose in this call.
    ensures read_fault { result ≡ exit_status Status.ReadFault → Rose (S.faults source.old) (S.faults source.new) × (sink.new ≡ sink.old) }
    ensures read_told { S.faults source.old < S.faults source.new → result ≡ exit_status Status.ReadFault }
    ensures write_fault { result ≡ exit_status Status.WriteFault → Rose (K.faults sink.old) (K.faults sink.new) }
    ensures write_told { K.faults sink.old < K.faults sink.new → result ≡ exit_status Status.WriteFault }
    ensures memory { result ≡ exit_status Status.OutOfMemory → sink.new ≡ sink.old }

    // Words that ask for no input leave the source alone; an input of a command is answered.
    ensures no_input { ¬ AsksInputBy args → source.new ≡ source.old }
    ensures complete { (c : CommandData) → AsksBy args (Some c) → HasInput c (S.left source.old)
        → ¬ Rose (S.faults source.old) (S.faults source.new) → ¬ Rose (K.faults sink.old) (K.faults sink.new) → IsCompleteBy c result }
{
    // The theorem over every run. The call does nothing.
    every_run_keeps_its_promise();
    let status = match args {
        Ok(args) => match words_of(alloc, args) {
            Ok(words) => zeus_top(alloc, &words, source, sink),
            Err(AllocError) => Status::OutOfMemory,
        },
        Err(error) => match error.kind() {
            ErrorKind::InvalidData => write(sink, USAGE, Status::Usage),
            _ => Status::OutOfMemory,
        },
    };
    status.number()
}
