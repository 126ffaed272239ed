//! The report of a script.
ghost use Rattle.std.specs.Prelude.{◌≡◌, ◌++◌, ℕ, length, take, All, OnOk, IfOk, option_copied};
ghost use Rattle.zeus_model.specs.Book.{reply_or};
ghost use Rattle.zeus_model.specs.ReportText.{point_lines, event_text, steps_text, report_head, report, start_of};
ghost use Rattle.zeus_model.specs.Scripts.{FitsScript, FitsStep};
ghost use Rattle.zeus_model.specs.World.{happens, stepped, run};
ghost use Rattle.soundness.specs.Promise.{KeepsPromise};
ghost use Rattle.printed_history.specs.Printed.{PrintsHistory};
ghost use Rattle.zeus_report.specs.Lines.{point_line, step_answer};

use crate::answers::write_answer;
use crate::letters::write_packets;
use crate::standing::write_final;
use crate::steps::write_acked;
use printed_history::every_report_prints_its_history;
use soundness::every_run_keeps_its_promise;
use std::alloc::Global;
use zeus_base::{NoMemory, Step, TxId};
use zeus_model::{Answer, Name, Script};
use zeus_text::{
    append, append_byte, write_counted, write_decimal, write_line_end, write_reply, write_step,
};
use zeus_txn::Reply;
use zeus_world::{StepEvent, World};

fn write_answer_line(
    out: &mut Vec<u8>,
    names: &[Name],
    place: u64,
    step: &Step,
    answer: &Answer,
) -> Result<(), NoMemory>
    ensures { OnOk result (out.new.items ≡ out.old.items ++ step_answer names.now place step.now answer.now) }
{
    write_decimal(out, place)?;
    append_byte(out, b' ')?;
    write_step(out, step)?;
    append(out, b" = ")?;
    write_answer(out, names, answer)?;
    write_line_end(out)
}

// The line of a point: the transaction with its reply, or with a plain `ok` if there is none.
#[tactic(auto, unfolding(zeus_model::specs::Book::reply_or, zeus_model::specs::ReportWords::outcome_text, zeus_model::specs::ReportWords::values_text))]
fn write_point(out: &mut Vec<u8>, id: TxId, reply: Option<&Reply>) -> Result<(), NoMemory>
    ensures { OnOk result (out.new.items ≡ out.old.items ++ point_line id (reply_or (option_copied reply.entry))) }
{
    write_counted(out, b"*", u64::from(id.0))?;
    append(out, b" ")?;
    match reply {
        Some(reply) => write_reply(out, reply)?,
        None => append(out, b"ok")?,
    }
    write_line_end(out)
}

fn write_points(out: &mut Vec<u8>, world: &World, ids: &[TxId]) -> Result<(), NoMemory>
    ensures { OnOk result (out.new.items ≡ out.old.items ++ point_lines world.now.book ids.now) }
{
    for id in ids {
        write_point(out, *id, world.book().reply(*id))?;
    }
    Ok(())
}

// Takes a step, and writes its lines. What it does is noted in the event, whose room serves step after step.
fn write_event(
    out: &mut Vec<u8>,
    names: &[Name],
    place: u64,
    world: &mut World,
    event: &mut StepEvent,
    step: &Step,
) -> Result<(), NoMemory>
    requires { FitsStep world.old.config (length world.old.txs) step.now }
    ensures text { OnOk result (out.new.items ≡ out.old.items ++ event_text names.now place step.now (happens world.old step.now)) }
    ensures world { OnOk result (world.new ≡ stepped world.old step.now) }
{
    world.step_event(step, event)?;
    write_answer_line(out, names, place, step, &event.answer)?;
    write_points(out, world, event.points.as_slice())?;
    write_acked(out, event.acked.as_slice())?;
    write_packets(out, names, &event.sent)
}

fn write_events(
    out: &mut Vec<u8>,
    names: &[Name],
    world: &mut World,
    event: &mut StepEvent,
    steps: &[Step],
) -> Result<(), NoMemory>
    requires { All (FitsStep world.old.config (length world.old.txs)) steps.now }
    ensures text { OnOk result (out.new.items ≡ out.old.items ++ steps_text names.now world.old 0 steps.now) }
    ensures world { OnOk result (world.new ≡ run world.old steps.now) }
{
    for (place, step) in steps.iter().enumerate() {
        write_event(out, names, place as u64, world, event, step)?;
    }
    Ok(())
}

fn write_head(out: &mut Vec<u8>, version: u8) -> Result<(), NoMemory>
    ensures { OnOk result (out.new.items ≡ out.old.items ++ report_head version) }
{
    write_counted(out, b"report", u64::from(version))?;
    write_line_end(out)
}

// The report of a script, whose steps the world takes from the start on.
fn write_report(alloc: Global, script: &Script, world: &mut World) -> Result<Vec<u8>, NoMemory>
    requires start { world.old ≡ start_of script.now }
    requires fits { FitsScript script.now }
    ensures text { IfOk result (λ text. text.items ≡ report script.now) }
    ensures world { OnOk result (world.new ≡ run (start_of script.now) script.now.steps) }
{
    let names = script.names.as_slice();
    let mut event = StepEvent::new(alloc)?;
    let mut out = Vec::new(alloc);
    write_head(&mut out, script.config.version)?;
    write_events(&mut out, names, world, &mut event, script.steps.as_slice())?;
    let txs = script.txs.len() as u32;
    let objects = script.config.objects.len() as u16;
    write_final(&mut out, names, world, txs, objects)?;
    Ok(out)
}

/// Runs a script: the report of the run as bytes, and the world that its steps lead to. The bytes print the history of the
/// run: the lines that begin with `*` are its points, each with the reply that was answered, those that begin with `!` its
/// acknowledgements, each once, and the line `history` has its transactions. The run keeps the whole promise of the theorem
/// after each step: so this is one serial history.
///
/// # Errors
///
/// `NoMemory` if memory ran out.
pub fn report(alloc: Global, script: &Script) -> Result<(Vec<u8>, World), NoMemory>
    requires { FitsScript script.now }
    ensures text { IfOk result (λ run. run.0.items ≡ report script.now) }
    ensures printed { IfOk result (λ run. PrintsHistory script.now run.0.items) }
    ensures world { IfOk result (λ done. done.1 ≡ run (start_of script.now) script.now.steps) }
    ensures promise { (k : ℕ) → KeepsPromise (start_of script.now) (take k script.now.steps) }
{
    // The theorem over every run, and the law over every report. The calls do nothing.
    every_run_keeps_its_promise();
    every_report_prints_its_history();
    let mut world = World::start(alloc, &script.config, &script.txs)?;
    let text = write_report(alloc, script, &mut world)?;
    Ok((text, world))
}
