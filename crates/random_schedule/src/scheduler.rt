//! A schedule under way.
ghost use Rattle.std.specs.Prelude.{◌≡◌, IfOk};
ghost use Rattle.zeus_base.specs.Limits.{KeepsLimits};
ghost use Rattle.zeus_model.specs.Readers.{all_closed};
ghost use Rattle.zeus_model.specs.Scripts.{FitsTxs};
ghost use Rattle.random_schedule.specs.Keeping.{IsOfSame, IsUnderWay, schedule_of};
ghost use Rattle.random_schedule.specs.Schedule.{schedule_start, scheduled, turned};
ghost use Rattle.random_schedule.specs.Words.{next_word};

use crate::chooser::Chooser;
use crate::closing::all_closed;
use crate::faults::Faults;
use crate::lists::push;
use crate::words::Words;
use reached_worlds::every_reached_world_is_ranged;
use std::alloc::Global;
use zeus_base::{NoMemory, Step};
use zeus_model::Script;
use zeus_world::{StepEvent, World};

/// A schedule: the world that it has come to, its steps so far, and what it keeps.
#[derive(Drop)]
pub(crate) struct Scheduler<'a> {
    pub(crate) world: World<'a>,
    pub(crate) steps: Vec<Step>,
    pub(crate) chooser: Chooser,
    /// How many transactions are known to be settled, from the first on.
    pub(crate) settled: u32,
    /// What the last step did.
    pub(crate) event: StepEvent,
}

impl<'a> Scheduler<'a> {
    /// A schedule of the script's transactions at its start.
    ///
    /// # Errors
    /// `NoMemory` if the memory for it is not there.
    pub(crate) fn start(alloc: Global, script: &'a Script) -> Result<Scheduler<'a>, NoMemory>
        requires limits { KeepsLimits script.now.config }
        requires txs { FitsTxs script.now.config script.now.txs }
        ensures start { IfOk result (λ s. schedule_of s ≡ schedule_start script.now.config script.now.txs) }
        ensures under_way { IfOk result IsUnderWay }
    {
        let world = World::start(alloc, &script.config, &script.txs)?;
        Ok(Scheduler {
            world,
            steps: Vec::new(alloc),
            chooser: Chooser::new(alloc, &script.config, &script.txs)?,
            settled: 0,
            event: StepEvent::new(alloc)?,
        })
    }

    /// Whether all transactions are closed.
    fn is_over(&mut self) -> bool
        requires { IsUnderWay self.old }
        ensures over { result ≡ all_closed self.old.world }
        ensures same { schedule_of self.new ≡ schedule_of self.old }
        ensures under_way { IsUnderWay self.new }
    {
        all_closed(&self.world, &mut self.settled)
    }

    /// Takes the step that the next word chooses.
    ///
    /// # Errors
    /// `NoMemory` if the memory for the step is not there.
    #[tactic(auto, using(crate::proofs::Turning::is_reached))]
    fn turn(&mut self, alloc: Global, faults: &Faults, words: &mut Words) -> Result<(), NoMemory>
        requires { IsUnderWay self.old }
        ensures turn { IfOk result (λ _. schedule_of self.new ≡ turned faults.now (schedule_of self.old) (next_word words.old).0) }
        ensures words { words.new ≡ (next_word words.old).1 }
        ensures under_way { IfOk result (λ _. IsUnderWay self.new) }
        ensures of { IfOk result (λ _. IsOfSame self.old self.new) }
    {
        every_reached_world_is_ranged();
        let step = self
            .chooser
            .choose(alloc, &self.world, faults, words.word())?;
        push(&mut self.steps, step)?;
        self.world.step_event(&step, &mut self.event)?;
        Ok(())
    }

    /// Takes up to so many steps, until all transactions are closed.
    ///
    /// # Errors
    /// `NoMemory` if the memory for a step is not there.
    #[tactic(auto, using(crate::proofs::Turning::over, crate::proofs::Turning::turn_on, crate::proofs::Turning::no_turn))]
    pub(crate) fn take_turns(
        &mut self,
        alloc: Global,
        count: u32,
        faults: &Faults,
        words: &mut Words,
    ) -> Result<(), NoMemory>
        requires { IsUnderWay self.old }
        ensures end { IfOk result (λ _. (schedule_of self.new, words.new) ≡ scheduled faults.now count (schedule_of self.old) words.old) }
        ensures under_way { IfOk result (λ _. IsUnderWay self.new) }
        ensures of { IfOk result (λ _. IsOfSame self.old self.new) }
    {
        for _turn in 0..count {
            if self.is_over() {
                return Ok(());
            }
            self.turn(alloc, faults, words)?;
        }
        Ok(())
    }
}
