//! How many words of a line fit.
ghost use Rattle.std.specs.Prelude.{◌≡◌, ◌++◌, ◌+◌, ◌≤◌, false, take, IfOk, OnOk, option_copied};
ghost use Rattle.script_lang.specs.Reading.{script_read};
ghost use Rattle.zeus_model.specs.Faults.{word_of};
ghost use Rattle.zeus_model.specs.Words.{cut};
ghost use Rattle.script_diagnostic.specs.Fitting.{ended, is_word, is_like, is_told, is_other, fits, widened, fitting};

use crate::lines::line_at;
use crate::shown::front;
use script_lang::{Kind, Parts, ReadScript, read_script};
use std::alloc::Global;
use zeus_base::NoMemory;
use zeus_text::{append, append_byte};

/// Word j of a line, counted from 0, where there is one.
pub(crate) fn word_at(line: &[u8], place: u32) -> Option<&[u8]>
    ensures { option_copied result ≡ word_of (cut 32 line.now) place }
{
    let mut words = Parts::new(line, b' ');
    for _turn in 0..place {
        words.next_part();
    }
    words.next_part()
}

/// Writes the first of the parts of bytes, each with the separator behind it.
fn write_parts(out: &mut Vec<u8>, bytes: &[u8], separator: u8, count: u32) -> Result<(), NoMemory>
    ensures { OnOk result (out.new.items ≡ out.old.items ++ ended separator (take count (cut separator bytes.now))) }
{
    let mut parts = Parts::new(bytes, separator);
    for _turn in 0..count {
        if let Some(part) = parts.next_part() {
            append(out, part)?;
            append_byte(out, separator)?;
        }
    }
    Ok(())
}

/// Whether a fault is that a word does not fit, or is missing.
#[tactic(auto, unfolding(crate::specs::Fitting::is_word))]
pub(crate) fn is_word(kind: Kind) -> bool
    ensures { result ≡ is_word kind }
{
    match kind {
        Kind::Word => true,
        _ => false,
    }
}

/// Whether both kinds are `word`, or neither is.
fn is_like(kind: Kind, other: Kind) -> bool
    ensures { result ≡ is_like kind other }
{
    if is_word(kind) {
        is_word(other)
    } else {
        !is_word(other)
    }
}

/// Whether reading bytes tells line n with a kind like this one.
#[tactic(auto, unfolding(crate::specs::Fitting::is_told))]
fn is_told(alloc: Global, bytes: &[u8], number: u32, kind: Kind) -> Result<bool, NoMemory>
    ensures { IfOk result (λ told. told ≡ is_told number kind (script_read false bytes.now)) }
{
    match read_script(alloc, bytes, false) {
        Ok(_) => Ok(false),
        Err(ReadScript::Fault(fault)) => Ok(fault.line == number && is_like(kind, fault.kind)),
        Err(ReadScript::NoMemory) => Err(NoMemory),
    }
}

/// Whether line n, ended so behind its first words, has another fault, or none.
#[tactic(auto, unfolding(crate::specs::Fitting::is_other))]
fn is_other(
    alloc: Global,
    bytes: &[u8],
    number: u32,
    kind: Kind,
    count: u32,
    tail: &[u8],
) -> Result<bool, NoMemory>
    ensures { IfOk result (λ other. other ≡ is_other bytes.now number kind count tail.now) }
{
    let mut lines = Vec::new(alloc);
    write_parts(&mut lines, bytes, b'\n', number.saturating_sub(1))?;
    write_parts(&mut lines, line_at(bytes, number), b' ', count)?;
    let mut text = Vec::new(alloc);
    append(&mut text, front(&lines, lines.len().saturating_sub(1)))?;
    append(&mut text, tail)?;
    Ok(!is_told(alloc, &text, number, kind)?)
}

/// Whether so many words of line n fit, which has a fault of this kind.
#[tactic(auto, unfolding(crate::specs::Fitting::fits))]
fn fits(alloc: Global, bytes: &[u8], number: u32, kind: Kind, count: u32) -> Result<bool, NoMemory>
    ensures { IfOk result (λ fit. fit ≡ fits bytes.now number kind count) }
{
    if word_at(line_at(bytes, number), count.saturating_sub(1)).is_none() {
        return Ok(false);
    }
    if is_other(alloc, bytes, number, kind, count, b"\n")? {
        return Ok(true);
    }
    if is_other(alloc, bytes, number, kind, count, b" ?\n")? {
        return Ok(true);
    }
    if is_other(alloc, bytes, number, kind, count, b" 1\n")? {
        return Ok(true);
    }
    is_other(alloc, bytes, number, kind, count, b" get ?\n")
}

/// So many words of line n that fit, and some more if they do.
fn widened(
    alloc: Global,
    bytes: &[u8],
    number: u32,
    kind: Kind,
    count: u32,
    more: u32,
) -> Result<u32, NoMemory>
    requires { count + more ≤ 128 }
    ensures value { IfOk result (λ all. all ≡ widened bytes.now number kind count more) }
    ensures most { IfOk result (λ all. all ≤ count + more) }
{
    if fits(alloc, bytes, number, kind, count + more)? {
        Ok(count + more)
    } else {
        Ok(count)
    }
}

/// How many words of line n fit, which has a fault of this kind.
#[tactic(auto, unfolding(crate::specs::Fitting::fitting))]
pub(crate) fn fitting(alloc: Global, bytes: &[u8], number: u32, kind: Kind) -> Result<u32, NoMemory>
    ensures value { IfOk result (λ count. count ≡ fitting bytes.now number kind) }
    ensures most { IfOk result (λ count. count ≤ 127) }
{
    let count = widened(alloc, bytes, number, kind, 0, 64)?;
    let count = widened(alloc, bytes, number, kind, count, 32)?;
    let count = widened(alloc, bytes, number, kind, count, 16)?;
    let count = widened(alloc, bytes, number, kind, count, 8)?;
    let count = widened(alloc, bytes, number, kind, count, 4)?;
    let count = widened(alloc, bytes, number, kind, count, 2)?;
    widened(alloc, bytes, number, kind, count, 1)
}
