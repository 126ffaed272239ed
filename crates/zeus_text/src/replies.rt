//! The reply of a transaction.
ghost use Rattle.std.specs.Prelude.{◌≡◌, ◌++◌, OnOk};
ghost use Rattle.zeus_model.specs.ReportWords.{values_text, reply_text};

use crate::words::{append, write_counted, write_value};
use zeus_base::{NoMemory, Value};
use zeus_txn::Reply;

// Writes the values, each behind a space.
fn write_values(out: &mut Vec<u8>, values: &[Value]) -> Result<(), NoMemory>
    ensures { OnOk result (out.new.items ≡ out.old.items ++ values_text values.now) }
{
    for value in values {
        write_value(out, value)?;
    }
    Ok(())
}

/// Writes `ok`, or `failed` and the place of the operation that failed, and then the values, each behind a space.
///
/// # Errors
///
/// Memory ran out.
#[tactic(auto, unfolding(zeus_model::specs::ReportWords::outcome_text))]
pub fn write_reply(out: &mut Vec<u8>, reply: &Reply) -> Result<(), NoMemory>
    ensures { OnOk result (out.new.items ≡ out.old.items ++ reply_text reply.now) }
{
    match reply.failed {
        None => append(out, b"ok")?,
        Some(place) => write_counted(out, b"failed", u64::from(place))?,
    }
    write_values(out, reply.values.as_slice())
}
