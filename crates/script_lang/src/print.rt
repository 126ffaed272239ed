//! Printing a script.
ghost use Rattle.std.specs.Prelude.{◌≡◌, List, ℕ, IfOk};
ghost use Rattle.zeus_model.specs.Scripts.{IsSpelled};
ghost use Rattle.zeus_model.specs.Spelling.{spelling};

mod head;
mod objects;
mod steps;
mod transactions;

use crate::print::head::write_head;
use crate::print::objects::write_objects;
use crate::print::steps::write_steps;
use crate::print::transactions::write_txs;
use std::alloc::Global;
use zeus_base::NoMemory;
use zeus_model::Script;
use zeus_text::append;

/// The text of a script, of either version, with or without a degree.
///
/// An operation on an object that has no name gets an empty word for it, and an object without a name gets no line.
///
/// # Errors
///
/// Memory ran out.
pub fn print_script(alloc: Global, script: &Script) -> Result<Vec<u8>, NoMemory>
    ensures text { IfOk result (λ text. text.items ≡ spelling script.now) }
    // What was read prints back as its bytes.
    ensures read { (bytes : List ℕ) → IsSpelled bytes script.now → IfOk result (λ text. text.items ≡ bytes) }
{
    let names = script.names.as_slice();
    let mut out = Vec::new(alloc);
    write_head(&mut out, &script.config)?;
    write_objects(&mut out, names, script.config.objects.as_slice())?;
    write_txs(&mut out, names, script.txs.as_slice())?;
    append(&mut out, b"run\n")?;
    write_steps(&mut out, script.steps.as_slice())?;
    append(&mut out, b"end\n")?;
    Ok(out)
}
