//! The lines of the steps.
ghost use Rattle.std.specs.Prelude.{◌≡◌, ◌++◌, map, OnOk};
ghost use Rattle.script_lang.specs.Lines.{step_line};
ghost use Rattle.zeus_model.specs.Spelling.{lines_text, step_words};

use zeus_base::{NoMemory, Step};
use zeus_text::{write_line_end, write_step};

fn write_step_line(out: &mut Vec<u8>, step: &Step) -> Result<(), NoMemory>
    ensures { OnOk result (out.new.items ≡ out.old.items ++ step_line step.now) }
{
    write_step(out, step)?;
    write_line_end(out)
}

/// Writes a line for each step.
pub(crate) fn write_steps(out: &mut Vec<u8>, steps: &[Step]) -> Result<(), NoMemory>
    ensures { OnOk result (out.new.items ≡ out.old.items ++ lines_text (map step_words steps.now)) }
{
    for step in steps {
        write_step_line(out, step)?;
    }
    Ok(())
}
