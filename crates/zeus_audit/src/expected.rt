//! The text that a line is compared with.
ghost use Rattle.std.specs.Prelude.{◌≡◌, ◌++◌, OnOk, IfOk, map, decimal};
ghost use Rattle.std.specs.Str.{bytes_eq};
ghost use Rattle.zeus_model.specs.ReportWords.{number};
ghost use Rattle.zeus_model.specs.Spelling.{spaced};
ghost use Rattle.zeus_audit.specs.Texts.{head_text, step_head, point_text, history_text, behind, IsBehind};

use zeus_base::{NoMemory, Step, TxId};
use zeus_text::{append, write_counted, write_decimal, write_number, write_reply, write_step};
use zeus_txn::Reply;

/// Whether the line is `report` and the version.
pub(crate) fn is_head(expected: &mut Vec<u8>, line: &[u8], version: u8) -> Result<bool, NoMemory>
    ensures { IfOk result (λ same. same ≡ bytes_eq line.now (head_text version)) }
{
    expected.clear();
    write_counted(expected, b"report", u64::from(version))?;
    Ok(line == expected.as_slice())
}

/// Writes `I STEP = `.
fn write_step_head(out: &mut Vec<u8>, told: u64, step: &Step) -> Result<(), NoMemory>
    ensures { OnOk result (out.new.items ≡ out.old.items ++ step_head told step.now) }
{
    write_decimal(out, told)?;
    append(out, b" ")?;
    write_step(out, step)?;
    append(out, b" = ")
}

/// What stands behind `I STEP = ` in the line, if it begins so.
pub(crate) fn answer_of<'a>(
    expected: &mut Vec<u8>,
    line: &'a [u8],
    told: u64,
    step: &Step,
) -> Result<Option<&'a [u8]>, NoMemory>
    ensures { IfOk result (λ answer. IsBehind answer (behind (step_head told step.now) line.now)) }
{
    expected.clear();
    write_step_head(expected, told, step)?;
    Ok(line.strip_prefix(expected.as_slice()))
}

/// Whether the line is `* K REPLY` with this number and this reply.
pub(crate) fn is_point(
    expected: &mut Vec<u8>,
    line: &[u8],
    id: TxId,
    reply: &Reply,
) -> Result<bool, NoMemory>
    ensures { IfOk result (λ same. same ≡ bytes_eq line.now (point_text id reply.now)) }
{
    expected.clear();
    write_counted(expected, b"*", u64::from(id.0))?;
    append(expected, b" ")?;
    write_reply(expected, reply)?;
    Ok(line == expected.as_slice())
}

/// Writes a space and the number of the transaction.
fn write_id(out: &mut Vec<u8>, id: TxId) -> Result<(), NoMemory>
    ensures { OnOk result (out.new.items ≡ out.old.items ++ number id) }
{
    write_number(out, u64::from(id.0))
}

/// Writes the numbers of the transactions, each behind a space.
fn write_ids(out: &mut Vec<u8>, ids: &[TxId]) -> Result<(), NoMemory>
    ensures { OnOk result (out.new.items ≡ out.old.items ++ spaced (map decimal ids.now)) }
{
    for id in ids {
        write_id(out, *id)?;
    }
    Ok(())
}

/// Whether the line is `history` and these transactions.
pub(crate) fn is_history(
    expected: &mut Vec<u8>,
    line: &[u8],
    points: &[TxId],
) -> Result<bool, NoMemory>
    ensures { IfOk result (λ same. same ≡ bytes_eq line.now (history_text points.now)) }
{
    expected.clear();
    append(expected, b"history")?;
    write_ids(expected, points)?;
    Ok(line == expected.as_slice())
}
