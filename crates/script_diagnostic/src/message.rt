//! The line that explains the first fault of bytes.
ghost use Rattle.std.specs.Prelude.{◌≡◌, ◌++◌, ◌<◌, false, IfOk, OnOk, option_copied};
ghost use Rattle.script_lang.specs.Reading.{script_read};
ghost use Rattle.script_diagnostic.specs.Text.{cause_text, word_text, faulty_text, wanted, line_text, fault_text, return_hint, mark_hint, size_line, explanation, explained};

use crate::fitting::{fitting, is_word, word_at};
use crate::forms::line_form;
use crate::lines::{line_at, opening_word};
use crate::shown::write_quoted;
use script_lang::{Kind, MOST_BYTES, ReadScript, ScriptFault, read_script};
use std::alloc::Global;
use zeus_base::NoMemory;
use zeus_text::{append, write_decimal, write_line_end};

/// What is wrong with a word or a line.
#[tactic(auto, unfolding(crate::specs::Text::cause_text))]
fn cause_text(kind: Kind) -> &'static [u8]
    ensures { result.now ≡ cause_text kind }
{
    match kind {
        Kind::Missing => b"the input ends here",
        Kind::LineEnd => b"no line feed ends this line",
        Kind::Word => b"does not fit",
        Kind::Text => b"has no text of 1 to 32 bytes from ! to ~ behind its '",
        Kind::Number => b"is no number: digits without sign and leading zero, below 2^64",
        Kind::Range => b"is out of its range",
        Kind::Name => b"is no name: a letter and then letters, digits and _, at most 16 in all",
        Kind::Twice => b"comes a second time, or out of order",
        Kind::Unknown => b"is the name of no object that is declared above",
        Kind::Long => b"is more than there may be",
        Kind::Extra => b"nothing may follow the line 'end'",
        Kind::Live => b"begins a line that no live run has",
        Kind::Size => b"a script has at most 4,194,304 bytes",
    }
}

/// Writes what is wrong with a word, by how many stand before it; where there is none, one is missing.
#[tactic(auto, unfolding(crate::specs::Text::word_text))]
fn write_word(
    out: &mut Vec<u8>,
    word: Option<&[u8]>,
    before: u32,
    kind: Kind,
) -> Result<(), NoMemory>
    ensures { OnOk result (out.new.items ≡ out.old.items ++ word_text (option_copied word.entry) before kind) }
{
    let Some(word) = word else {
        return append(out, b"a word is missing at its end");
    };
    append(out, b"word ")?;
    write_decimal(out, u64::from(before) + 1)?;
    append(out, b", ")?;
    write_quoted(out, word)?;
    append(out, b", ")?;
    append(out, cause_text(kind))
}

/// Writes what is wrong with the first word of line n that does not fit.
#[tactic(auto, unfolding(crate::specs::Text::faulty_text))]
fn write_faulty(
    alloc: Global,
    out: &mut Vec<u8>,
    bytes: &[u8],
    number: u32,
    kind: Kind,
) -> Result<(), NoMemory>
    ensures { OnOk result (out.new.items ≡ out.old.items ++ faulty_text bytes.now number kind) }
{
    if is_word(kind) && bytes.len() > MOST_BYTES - 6 {
        return append(out, b"a word does not fit, or one is missing");
    }
    let before = fitting(alloc, bytes, number, kind)?;
    write_word(out, word_at(line_at(bytes, number), before), before, kind)
}

/// Writes what may stand in line n.
fn write_wanted(out: &mut Vec<u8>, bytes: &[u8], number: u32) -> Result<(), NoMemory>
    ensures { OnOk result (out.new.items ≡ out.old.items ++ wanted bytes.now number) }
{
    let word = opening_word(bytes, number);
    let before = opening_word(bytes, number.saturating_sub(1));
    append(out, b"; wanted: ")?;
    append(out, line_form(word, before))
}

/// Writes where a line stands, and its text.
#[tactic(auto, unfolding(crate::specs::Text::line_text))]
fn write_line(out: &mut Vec<u8>, number: u32, line: &[u8]) -> Result<(), NoMemory>
    ensures { OnOk result (out.new.items ≡ out.old.items ++ line_text number line.now) }
{
    append(out, b"line ")?;
    write_decimal(out, u64::from(number))?;
    append(out, b", ")?;
    write_quoted(out, line)?;
    append(out, b": ")
}

/// Writes what is wrong with a line, and what may stand there.
#[tactic(auto, unfolding(crate::specs::Text::fault_text))]
fn write_fault(
    alloc: Global,
    out: &mut Vec<u8>,
    bytes: &[u8],
    number: u32,
    kind: Kind,
) -> Result<(), NoMemory>
    ensures { OnOk result (out.new.items ≡ out.old.items ++ fault_text bytes.now number kind) }
{
    match kind {
        Kind::LineEnd | Kind::Extra => return append(out, cause_text(kind)),
        Kind::Missing => append(out, cause_text(kind))?,
        _ => write_faulty(alloc, out, bytes, number, kind)?,
    }
    write_wanted(out, bytes, number)
}

/// Writes a hint for a line that ends with CR and LF.
#[tactic(auto, unfolding(crate::specs::Text::return_hint))]
fn write_return_hint(out: &mut Vec<u8>, line: &[u8]) -> Result<(), NoMemory>
    ensures { OnOk result (out.new.items ≡ out.old.items ++ return_hint line.now) }
{
    if line.ends_with(b"\r") {
        append(out, b"; this line ends with CR and LF: write LF alone")
    } else {
        Ok(())
    }
}

/// Writes a hint for an input that begins with a byte order mark.
#[tactic(auto, unfolding(crate::specs::Text::mark_hint))]
fn write_mark_hint(out: &mut Vec<u8>, bytes: &[u8]) -> Result<(), NoMemory>
    ensures { OnOk result (out.new.items ≡ out.old.items ++ mark_hint bytes.now) }
{
    if bytes.starts_with(b"\xEF\xBB\xBF") {
        append(
            out,
            b"; the input begins with a byte order mark: leave it out",
        )
    } else {
        Ok(())
    }
}

/// The line for too many bytes.
pub(crate) fn size_line(alloc: Global) -> Result<Vec<u8>, NoMemory>
    ensures { IfOk result (λ text. text.items ≡ size_line) }
{
    let mut out = Vec::new(alloc);
    append(&mut out, cause_text(Kind::Size))?;
    write_line_end(&mut out)?;
    Ok(out)
}

/// The line that explains a fault of bytes.
#[tactic(auto, unfolding(crate::specs::Text::explanation))]
fn explanation(alloc: Global, bytes: &[u8], fault: &ScriptFault) -> Result<Vec<u8>, NoMemory>
    ensures { IfOk result (λ text. text.items ≡ explanation bytes.now fault.now) }
{
    if fault.line == 0 {
        return size_line(alloc);
    }
    let line = line_at(bytes, fault.line);
    let mut out = Vec::new(alloc);
    write_line(&mut out, fault.line, line)?;
    write_fault(alloc, &mut out, bytes, fault.line, fault.kind)?;
    write_return_hint(&mut out, line)?;
    write_mark_hint(&mut out, bytes)?;
    write_line_end(&mut out)?;
    Ok(out)
}

/// The line that explains the first fault of bytes as a script; nothing, if they are one.
///
/// # Errors
///
/// Memory ran out.
#[tactic(auto, unfolding(crate::specs::Text::explained))]
pub fn explain(alloc: Global, bytes: &[u8]) -> Result<Vec<u8>, NoMemory>
    ensures { IfOk result (λ text. text.items ≡ explained bytes.now (script_read false bytes.now)) }
{
    match read_script(alloc, bytes, false) {
        Ok(_) => Ok(Vec::new(alloc)),
        Err(ReadScript::Fault(fault)) => explanation(alloc, bytes, &fault),
        Err(ReadScript::NoMemory) => Err(NoMemory),
    }
}
