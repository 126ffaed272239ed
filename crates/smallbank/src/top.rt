//! The program of the bank, over its words and a sink.
ghost use Rattle.std.specs.Prelude.{◌≡◌};
ghost use Rattle.smallbank.specs.Top.{AsksBy, HasEnded, IsAnswered, sinks, status_of, usage_line};

use crate::run::bank_run;
use bank_report::BankNumbers;
use std::alloc::Global;
use zeus_base::NoMemory;
use zeus_io::{Sink, Status, WriteFault, write_all};

/// The line for other words.
const USAGE: &[u8] = b"usage\n";

/// Writes the text; the status is this one unless the sink fails.
fn write<K: Sink>(sink: &mut K, text: &[u8], status: Status) -> Status
    ensures { HasEnded (sinks (K.held sink.old) (K.held sink.new) (K.faults sink.old) (K.faults sink.new)) text.now status result }
{
    match write_all(sink, text) {
        Ok(()) => status,
        Err(WriteFault) => Status::WriteFault,
    }
}

/// The line for other words.
pub(crate) fn refuse<K: Sink>(sink: &mut K) -> Status
    ensures { HasEnded (sinks (K.held sink.old) (K.held sink.new) (K.faults sink.old) (K.faults sink.new)) usage_line Status.Usage result }
{
    write(sink, USAGE, Status::Usage)
}

/// The status of a run of which so many transactions are not closed.
#[tactic(auto, unfolding(crate::specs::Top::status_of))]
fn status_of(unclosed: u32) -> Status
    ensures { result ≡ status_of unclosed }
{
    match unclosed {
        0 => Status::Done,
        _ => Status::Unfinished,
    }
}

/// The program `zeus_bank`. With the words `bank ACCOUNTS TXS STEPS LOSS STOPS START` it runs that bank and writes the text that
/// tells of the run; other words give the line `usage`. The text is made whole before it is written.
///
/// `Done` if all transactions are closed, and `Unfinished` if one is not; `Usage` for other words; `WriteFault` if the sink
/// failed, which holds a front of the text then; `OutOfMemory` if memory ran out, and then nothing is written.
pub fn bank_top<K: Sink>(alloc: Global, words: &Vec<String>, sink: &mut K) -> Status
    ensures { IsAnswered (AsksBy words.now.items) (sinks (K.held sink.old) (K.held sink.new) (K.faults sink.old) (K.faults sink.new)) result }
{
    match BankNumbers::from_words(words) {
        None => refuse(sink),
        Some(numbers) => match bank_run(alloc, &numbers) {
            Err(NoMemory) => Status::OutOfMemory,
            Ok(run) => write(sink, run.text.as_slice(), status_of(run.unclosed)),
        },
    }
}
