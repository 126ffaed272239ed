//! The lines of the transactions.
ghost use Rattle.std.specs.Prelude.{◌≡◌, ◌++◌, codes, map, OnOk};
ghost use Rattle.script_lang.specs.Lines.{op_text, more_op_text, tx_head, tx_line};
ghost use Rattle.zeus_model.specs.Spelling.{after_words, lines_text, more_op_words, spaced, tx_op_words, tx_words};

use zeus_base::{NoMemory, TxId};
use zeus_model::Name;
use zeus_text::{append, write_counted, write_line_end, write_number, write_object, write_value};
use zeus_txn::{Op, TxDecl};

// An operation, each of its words behind a space.
#[tactic(auto, unfolding(zeus_model::specs::Spelling::op_words, zeus_model::specs::Spelling::spaced))]
fn write_op(out: &mut Vec<u8>, names: &[Name], op: &Op) -> Result<(), NoMemory>
    ensures { OnOk result (out.new.items ≡ out.old.items ++ op_text names.now op.now) }
{
    match op {
        Op::Get(obj) => {
            append(out, b" get")?;
            write_object(out, names, *obj)
        }
        Op::Put(obj, value) => {
            append(out, b" put")?;
            write_object(out, names, *obj)?;
            write_value(out, value)
        }
        Op::Add(obj, n) => {
            append(out, b" add")?;
            write_object(out, names, *obj)?;
            write_number(out, *n)
        }
        Op::Need(obj, n) => {
            append(out, b" need")?;
            write_object(out, names, *obj)?;
            write_number(out, *n)
        }
        Op::Same(obj, value) => {
            append(out, b" same")?;
            write_object(out, names, *obj)?;
            write_value(out, value)
        }
    }
}

// A further operation behind its semicolon.
fn write_more_op(out: &mut Vec<u8>, names: &[Name], op: &Op) -> Result<(), NoMemory>
    ensures { OnOk result (out.new.items ≡ out.old.items ++ more_op_text names.now op.now) }
{
    append(out, b" ;")?;
    write_op(out, names, op)
}

fn write_more_ops(out: &mut Vec<u8>, names: &[Name], ops: &[Op]) -> Result<(), NoMemory>
    ensures { OnOk result (out.new.items ≡ out.old.items ++ spaced (more_op_words names.now ops.now)) }
{
    for op in ops {
        write_more_op(out, names, op)?;
    }
    Ok(())
}

fn write_ops(out: &mut Vec<u8>, names: &[Name], ops: &[Op]) -> Result<(), NoMemory>
    ensures { OnOk result (out.new.items ≡ out.old.items ++ spaced (tx_op_words names.now ops.now)) }
{
    match ops {
        [] => Ok(()),
        [first, others @ ..] => {
            write_op(out, names, first)?;
            write_more_ops(out, names, others)
        }
    }
}

#[tactic(auto, unfolding(zeus_model::specs::Spelling::after_words, zeus_model::specs::Spelling::spaced))]
fn write_after(out: &mut Vec<u8>, after: Option<TxId>) -> Result<(), NoMemory>
    ensures { OnOk result (out.new.items ≡ out.old.items ++ spaced (after_words after)) }
{
    match after {
        None => Ok(()),
        Some(id) => write_counted(out, b" after", u64::from(id.0)),
    }
}

fn write_tx_head(out: &mut Vec<u8>, decl: &TxDecl) -> Result<(), NoMemory>
    ensures { OnOk result (out.new.items ≡ out.old.items ++ tx_head decl.now) }
{
    write_counted(out, b"tx", u64::from(decl.node.0))?;
    write_number(out, u64::from(decl.slot.0))?;
    write_after(out, decl.after)
}

#[tactic(auto, using(crate::proofs::Printing::tx_parts))]
fn write_tx(out: &mut Vec<u8>, names: &[Name], decl: &TxDecl) -> Result<(), NoMemory>
    ensures { OnOk result (out.new.items ≡ out.old.items ++ tx_line names.now decl.now) }
{
    write_tx_head(out, decl)?;
    write_ops(out, names, decl.tx.ops())?;
    write_line_end(out)
}

/// Writes a line for each transaction.
pub(crate) fn write_txs(out: &mut Vec<u8>, names: &[Name], txs: &[TxDecl]) -> Result<(), NoMemory>
    ensures { OnOk result (out.new.items ≡ out.old.items ++ lines_text (map (tx_words names.now) txs.now)) }
{
    for decl in txs {
        write_tx(out, names, decl)?;
    }
    Ok(())
}
