//! How a world stands at the end: its history, its transactions, its objects and their copies.
ghost use Rattle.std.specs.Prelude.{◌≡◌, ◌<◌, ◌≤◌, ◌++◌, OnOk, Some, length};
ghost use Rattle.zeus_model.specs.ReportText.{points_text, history_line, tx_state_lines, copy_line, copy_lines};
ghost use Rattle.zeus_model.specs.ReportText.{holders_text, object_text, objects_text, final_text};
ghost use Rattle.zeus_model.specs.ReportWords.{number};
ghost use Rattle.zeus_model.specs.Readers.{live_among};
ghost use Rattle.zeus_model.specs.Tables.{below};
ghost use Rattle.zeus_report.specs.Lines.{tx_state_line, live_copy, point_at};

use crate::answers::tx_state_text;
use crate::words::{state_text, write_nodes, write_optional_node};
use history_book::Book;
use zeus_base::{NoMemory, NodeId, NodeSet, ObjId, TxId};
use zeus_model::{Copy, Name};
use zeus_text::{append, write_line_end, write_number, write_object, write_value, write_word};
use zeus_world::World;

fn write_point_id(out: &mut Vec<u8>, book: &Book, place: u32) -> Result<(), NoMemory>
    requires { place < length book.now.book.points }
    ensures { OnOk result (out.new.items ≡ out.old.items ++ number (point_at book.now.book.points place).id) }
{
    match book.point(place) {
        Some((id, _)) => write_number(out, u64::from(id.0)),
        None => Ok(()),
    }
}

fn write_point_ids(out: &mut Vec<u8>, book: &Book) -> Result<(), NoMemory>
    ensures { OnOk result (out.new.items ≡ out.old.items ++ points_text book.now.book.points) }
{
    for place in 0..book.len() {
        write_point_id(out, book, place)?;
    }
    Ok(())
}

fn write_history(out: &mut Vec<u8>, book: &Book) -> Result<(), NoMemory>
    ensures { OnOk result (out.new.items ≡ out.old.items ++ history_line book.now.book) }
{
    append(out, b"history")?;
    write_point_ids(out, book)?;
    write_line_end(out)
}

fn write_tx_state(out: &mut Vec<u8>, world: &World, id: TxId) -> Result<(), NoMemory>
    ensures { OnOk result (out.new.items ≡ out.old.items ++ tx_state_line world.now id) }
{
    append(out, b"tx")?;
    write_number(out, u64::from(id.0))?;
    write_word(out, tx_state_text(world.book().state(id)))?;
    write_line_end(out)
}

fn write_tx_states(out: &mut Vec<u8>, world: &World, count: u32) -> Result<(), NoMemory>
    ensures { OnOk result (out.new.items ≡ out.old.items ++ tx_state_lines world.now (below count)) }
{
    for k in 0..count {
        write_tx_state(out, world, TxId(k))?;
    }
    Ok(())
}

#[tactic(auto, unfolding(zeus_model::specs::ReportText::copy_line))]
fn write_copy(
    out: &mut Vec<u8>,
    names: &[Name],
    obj: ObjId,
    node: NodeId,
    copy: &Option<Copy>,
) -> Result<(), NoMemory>
    ensures { OnOk result (out.new.items ≡ out.old.items ++ copy_line names.now obj node copy.now) }
{
    let Some(copy) = copy else { return Ok(()) };
    append(out, b"copy")?;
    write_object(out, names, obj)?;
    write_number(out, u64::from(node.0))?;
    write_word(out, state_text(copy.state))?;
    write_number(out, copy.ver)?;
    write_value(out, &copy.value)?;
    write_line_end(out)
}

fn write_live_copy(
    out: &mut Vec<u8>,
    names: &[Name],
    world: &World,
    obj: ObjId,
    at: NodeId,
) -> Result<(), NoMemory>
    ensures { OnOk result (out.new.items ≡ out.old.items ++ live_copy names.now world.now obj at) }
{
    if world.is_live(at) {
        write_copy(out, names, obj, at, &world.copy(at, obj))
    } else {
        Ok(())
    }
}

// The copies at the live ones of the nodes.
#[tactic(auto, using(crate::proofs::Copies::live_copies_split), unfolding(zeus_model::specs::ReportText::copy_lines, zeus_model::specs::Readers::live_among))]
fn write_copies(
    out: &mut Vec<u8>,
    names: &[Name],
    world: &World,
    obj: ObjId,
    nodes: NodeSet,
) -> Result<(), NoMemory>
    ensures { OnOk result (out.new.items ≡ out.old.items ++ copy_lines names.now world.now obj (live_among world.now nodes)) }
{
    for node in nodes {
        write_live_copy(out, names, world, obj, node)?;
    }
    Ok(())
}

#[tactic(auto, unfolding(zeus_model::specs::ReportText::holders_text))]
fn write_holders(
    out: &mut Vec<u8>,
    names: &[Name],
    world: &World,
    obj: ObjId,
) -> Result<(), NoMemory>
    ensures { OnOk result (out.new.items ≡ out.old.items ++ holders_text names.now world.now obj) }
{
    if world.is_lost(obj) {
        append(out, b"lost")?;
        write_object(out, names, obj)?;
        write_line_end(out)
    } else {
        write_copies(out, names, world, obj, world.latest_place(obj).replicas)
    }
}

// The line of an object by its latest placement, then the lines of its live copies, or the line that it is lost.
fn write_standing(
    out: &mut Vec<u8>,
    names: &[Name],
    world: &World,
    obj: ObjId,
) -> Result<(), NoMemory>
    ensures { OnOk result (out.new.items ≡ out.old.items ++ object_text names.now world.now obj) }
{
    append(out, b"object")?;
    write_object(out, names, obj)?;
    write_optional_node(out, world.owner(obj))?;
    write_nodes(out, world.latest_place(obj).replicas)?;
    write_line_end(out)?;
    write_holders(out, names, world, obj)
}

fn write_objects(
    out: &mut Vec<u8>,
    names: &[Name],
    world: &World,
    count: u16,
) -> Result<(), NoMemory>
    requires { count ≤ 256 }
    ensures { OnOk result (out.new.items ≡ out.old.items ++ objects_text names.now world.now (below count)) }
{
    for x in 0..count {
        write_standing(out, names, world, ObjId(x))?;
    }
    Ok(())
}

/// Writes the last part of the report: the history, how far each of the `txs` transactions has come, each of the objects
/// with its live copies, and the line `end`.
pub(crate) fn write_final(
    out: &mut Vec<u8>,
    names: &[Name],
    world: &World,
    txs: u32,
    objects: u16,
) -> Result<(), NoMemory>
    requires txs { txs ≡ length world.now.txs }
    requires objects { objects ≡ length world.now.config.objects }
    requires few_objects { objects ≤ 256 }
    ensures { OnOk result (out.new.items ≡ out.old.items ++ final_text names.now world.now) }
{
    write_history(out, world.book())?;
    write_tx_states(out, world, txs)?;
    write_objects(out, names, world, objects)?;
    append(out, b"end\n")
}
