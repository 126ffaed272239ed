//! The run of a schedule.
ghost use Rattle.std.specs.Prelude.{◌≡◌, ◌≤◌, ℕ, All, IfOk, length, take};
ghost use Rattle.zeus_base.specs.Limits.{KeepsLimits};
ghost use Rattle.zeus_model.specs.Scripts.{FitsStep, FitsTxs};
ghost use Rattle.zeus_model.specs.World.{run, start};
ghost use Rattle.soundness.specs.Promise.{KeepsPromise};
ghost use Rattle.random_schedule.specs.Schedule.{schedule, words_left};

use crate::faults::Faults;
use crate::scheduler::Scheduler;
use crate::words::Words;
use soundness::every_run_keeps_its_promise;
use std::alloc::Global;
use zeus_base::{NoMemory, Steps};
use zeus_model::Script;
use zeus_world::World;

/// Runs a random schedule of the script's transactions from the start on, by the next words: up to so many steps, which
/// are at most 50,000, until all transactions are closed. The script's own steps are not looked at. Of a hundred
/// deliveries of fresh packets `loss` are lost on average, and at most `stops` nodes are stopped.
///
/// Gives the steps that were taken and the world that they lead to; the words are those behind the ones that chose the
/// steps. The run keeps the whole promise of the theorem after each prefix of its steps.
///
/// # Errors
/// `NoMemory` if memory ran out.
pub fn schedule_run<'a>(
    alloc: Global,
    script: &'a Script,
    steps: u32,
    loss: u8,
    stops: u8,
    words: &mut Words,
) -> Result<(Steps, World<'a>), NoMemory>
    requires limits { KeepsLimits script.now.config }
    requires txs { FitsTxs script.now.config script.now.txs }
    requires few { steps ≤ 50000 }
    ensures steps { IfOk result (λ done. done.0 ≡ (schedule script.now.config script.now.txs steps record { loss = loss; stops = stops } words.old).steps) }
    ensures world { IfOk result (λ done. done.1 ≡ (schedule script.now.config script.now.txs steps record { loss = loss; stops = stops } words.old).world) }
    ensures words { IfOk result (λ _. words.new ≡ words_left script.now.config script.now.txs steps record { loss = loss; stops = stops } words.old) }
    ensures run { IfOk result (λ done. done.1 ≡ run (start script.now.config script.now.txs) done.0) }
    ensures fits { IfOk result (λ done. All (FitsStep script.now.config (length script.now.txs)) done.0) }
    ensures few { IfOk result (λ done. length done.0 ≤ steps) }
    ensures promise { IfOk result (λ done. (k : ℕ) → KeepsPromise (start script.now.config script.now.txs) (take k done.0)) }
{
    every_run_keeps_its_promise();
    let faults = Faults { loss, stops };
    let mut scheduler = Scheduler::start(alloc, script)?;
    scheduler.take_turns(alloc, steps, &faults, words)?;
    Ok((Steps::from_vec(scheduler.steps), scheduler.world))
}
