//! Worked runs of small answers.
ghost use Rattle.std.specs.Prelude.{◌≡◌};
ghost use Rattle.zeus_model.specs.ReportText.{report};
ghost use Rattle.zeus_model.specs.Spelling.{spelling};
ghost use Rattle.worked_runs.specs.BusySlot.{busy_slot_script, busy_slot_text, busy_slot_report};
ghost use Rattle.worked_runs.specs.NoCopyToRead.{no_copy_to_read_script, no_copy_to_read_text, no_copy_to_read_report};
ghost use Rattle.worked_runs.specs.RefusedSteps.{refused_steps_script, refused_steps_text, refused_steps_report};
ghost use Rattle.worked_runs.specs.TextsAsValues.{texts_as_values_script, texts_as_values_text, texts_as_values_report};

/// A transaction begins once, behind the one that it waits for, at a free slot.
pub fn busy_slot()
    ensures script { spelling busy_slot_script ≡ busy_slot_text }
    ensures printed { report busy_slot_script ≡ busy_slot_report }
{}

/// Without a degree a read without a copy is refused.
pub fn no_copy_to_read()
    ensures script { spelling no_copy_to_read_script ≡ no_copy_to_read_text }
    ensures printed { report no_copy_to_read_script ≡ no_copy_to_read_report }
{}

/// Steps that the world itself answers change nothing.
pub fn refused_steps()
    ensures script { spelling refused_steps_script ≡ refused_steps_text }
    ensures printed { report refused_steps_script ≡ refused_steps_report }
{}

/// In version 2 values are texts too: `same` compares them; an add to one fails, so the transaction is committed without
/// writes.
pub fn texts_as_values()
    ensures script { spelling texts_as_values_script ≡ texts_as_values_text }
    ensures printed { report texts_as_values_script ≡ texts_as_values_report }
{}
