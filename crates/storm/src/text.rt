//! The summary of a storm.
ghost use Rattle.std.specs.Prelude.{◌≡◌, ◌++◌, IfOk, OnOk};
ghost use Rattle.zeus_model.specs.ReportText.{line_end};
ghost use Rattle.zeus_model.specs.ReportWords.{number};
ghost use Rattle.storm.specs.Summary.{counts_line, numbers_line, objects_text, summary};

use crate::end::StormEnd;
use crate::numbers::StormNumbers;
use std::alloc::Global;
use zeus_base::NoMemory;
use zeus_text::{append, write_counted, write_line_end, write_number};

fn write_numbers(out: &mut Vec<u8>, numbers: &StormNumbers) -> Result<(), NoMemory>
    ensures { OnOk result (out.new.items ≡ out.old.items ++ numbers_line numbers.now) }
{
    write_counted(out, b"storm", u64::from(numbers.nodes))?;
    write_number(out, u64::from(numbers.slots))?;
    write_number(out, u64::from(numbers.objects))?;
    write_number(out, u64::from(numbers.txs))?;
    write_number(out, u64::from(numbers.steps))?;
    write_number(out, u64::from(numbers.loss))?;
    write_number(out, u64::from(numbers.stops))?;
    write_number(out, numbers.start)?;
    write_line_end(out)
}

fn write_counts(out: &mut Vec<u8>, end: &StormEnd) -> Result<(), NoMemory>
    ensures { OnOk result (out.new.items ≡ out.old.items ++ counts_line end.now) }
{
    write_counted(out, b"acked", u64::from(end.acked))?;
    write_counted(out, b" failed", u64::from(end.failed))?;
    write_counted(out, b" refused", u64::from(end.refused))?;
    write_counted(out, b" stopped", u64::from(end.stopped))?;
    write_counted(out, b" unfinished", u64::from(end.unfinished))?;
    write_line_end(out)
}

/// Writes a line of a text and a number.
fn write_line(out: &mut Vec<u8>, text: &[u8], n: u64) -> Result<(), NoMemory>
    ensures { OnOk result (out.new.items ≡ out.old.items ++ text.now ++ number n ++ line_end) }
{
    write_counted(out, text, n)?;
    write_line_end(out)
}

/// Writes how the objects stand, and the end.
fn write_objects(out: &mut Vec<u8>, end: &StormEnd) -> Result<(), NoMemory>
    ensures { OnOk result (out.new.items ≡ out.old.items ++ objects_text end.now) }
{
    write_counted(out, b"epoch", u64::from(end.epoch))?;
    write_line(out, b" lost", u64::from(end.lost))?;
    write_line(out, b"sum", end.sum)?;
    append(out, b"end\n")
}

/// The text of a storm's summary.
///
/// # Errors
/// `NoMemory` if memory ran out.
pub fn summary(alloc: Global, end: &StormEnd) -> Result<Vec<u8>, NoMemory>
    ensures { IfOk result (λ text. text.items ≡ summary end.now) }
{
    let mut out = Vec::new(alloc);
    write_numbers(&mut out, &end.numbers)?;
    write_line(&mut out, b"steps", u64::from(end.taken))?;
    write_counts(&mut out, end)?;
    write_objects(&mut out, end)?;
    Ok(out)
}
