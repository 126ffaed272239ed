//! The lines of a step.
ghost use Rattle.std.specs.Prelude.{◌≡◌, ◌++◌, OnOk};
ghost use Rattle.zeus_model.specs.ReportText.{acked_lines};
ghost use Rattle.zeus_report.specs.Lines.{acked_line};

use zeus_base::{NoMemory, TxId};
use zeus_text::{write_counted, write_line_end};

fn write_ack(out: &mut Vec<u8>, id: TxId) -> Result<(), NoMemory>
    ensures { OnOk result (out.new.items ≡ out.old.items ++ acked_line id) }
{
    write_counted(out, b"!", u64::from(id.0))?;
    write_line_end(out)
}

/// Writes a line for each transaction that a step acknowledges.
pub(crate) fn write_acked(out: &mut Vec<u8>, ids: &[TxId]) -> Result<(), NoMemory>
    ensures { OnOk result (out.new.items ≡ out.old.items ++ acked_lines ids.now) }
{
    for id in ids {
        write_ack(out, *id)?;
    }
    Ok(())
}
