//! From the arguments that the machine gives to the exit status.
ghost use Rattle.std.specs.Prelude.{◌≡◌, IfOk, drop};
ghost use Rattle.std.specs.Vec.Iter.{into_iter_items};
ghost use Rattle.smallbank.specs.Command.{AsksBankBy, EndsBy};
ghost use Rattle.smallbank.specs.Top.{IsAnswered, sinks};

use crate::top::{bank_top, refuse};
use std::alloc::{AllocError, Global};
use std::env::Args;
use std::io::{Error, ErrorKind};
use zeus_io::{Sink, Status};

/// The words behind the program's own name.
fn words_of(alloc: Global, mut args: Args) -> Result<Vec<String>, AllocError>
    ensures { IfOk result (λ words. words.items ≡ drop 1 (into_iter_items args)) }
{
    let _own_name = args.next();
    args.collect(alloc)
}

/// Answers the words behind the program's own name.
#[tactic(auto, unfolding(crate::specs::Top::IsAnswered))]
fn answer<K: Sink>(alloc: Global, args: Result<Args, Error>, sink: &mut K) -> Status
    ensures { IsAnswered (AsksBankBy args) (sinks (K.held sink.old) (K.held sink.new) (K.faults sink.old) (K.faults sink.new)) result }
{
    match args {
        Ok(args) => match words_of(alloc, args) {
            Ok(words) => bank_top(alloc, &words, sink),
            Err(AllocError) => Status::OutOfMemory,
        },
        Err(error) => match error.kind() {
            ErrorKind::InvalidData => refuse(sink),
            _ => Status::OutOfMemory,
        },
    }
}

/// The whole program `zeus_bank`, from the arguments that the machine gives it to its exit status: `bank_top` with the words
/// behind the program's own name, and the number of the status that it answers.
///
/// Two things can be wrong with the arguments. If one is no text, they are words that the program does not know. If memory
/// runs out for them, that is the status, and nothing is written.
pub fn answer_command<K: Sink>(alloc: Global, args: Result<Args, Error>, sink: &mut K) -> u8
    ensures { EndsBy (AsksBankBy args) (sinks (K.held sink.old) (K.held sink.new) (K.faults sink.old) (K.faults sink.new)) result }
{
    answer(alloc, args, sink).number()
}
