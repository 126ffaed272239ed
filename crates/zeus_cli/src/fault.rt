//! The line for bytes that are no script: where their first fault is, and what it is.
ghost use Rattle.std.specs.Prelude.{◌≡◌, IfOk};
ghost use Rattle.zeus_cli.specs.Refusal.{fault_line, kind_text};

use std::alloc::Global;
use zeus_base::NoMemory;
use zeus_model::{Kind, ScriptFault};
use zeus_text::{append, write_line_end, write_number, write_word};

/// The words for a kind of fault.
fn kind_text(kind: Kind) -> &'static [u8]
    ensures { result.now ≡ kind_text kind }
{
    match kind {
        Kind::Missing => b"missing",
        Kind::LineEnd => b"line end",
        Kind::Word => b"word",
        Kind::Text => b"text",
        Kind::Number => b"number",
        Kind::Range => b"range",
        Kind::Name => b"name",
        Kind::Twice => b"twice",
        Kind::Unknown => b"unknown",
        Kind::Long => b"long",
        Kind::Extra => b"extra",
        Kind::Live => b"live",
        Kind::Size => b"size",
    }
}

/// The line `script LINE KIND` of a fault.
pub(crate) fn fault_line(alloc: Global, fault: &ScriptFault) -> Result<Vec<u8>, NoMemory>
    ensures { IfOk result (λ line. line.items ≡ fault_line fault.now) }
{
    let mut line = Vec::new(alloc);
    append(&mut line, b"script")?;
    write_number(&mut line, u64::from(fault.line))?;
    write_word(&mut line, kind_text(fault.kind))?;
    write_line_end(&mut line)?;
    Ok(line)
}
