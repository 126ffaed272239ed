//! What each step does to a world.
ghost use Rattle.std.specs.Prelude.{◌≡◌, IfOk, OnErr, length};
ghost use Rattle.zeus_model.specs.Scripts.{FitsStep};
ghost use Rattle.zeus_model.specs.Sound.{Sound};
ghost use Rattle.zeus_model.specs.World.{happens, stepped};
ghost use Rattle.soundness.specs.Promise.{HasPromise, IsNoRefusal};
ghost use Rattle.zeus_world.specs.Reports.{Reports, SaysSame, Tells, TellsSame};

use crate::event::StepEvent;
use crate::report::Report;
use crate::world::World;
use soundness::{every_run_keeps_its_promise, never_refused_so};
use zeus_base::{NoMemory, Step};

impl<'a> World<'a> {
    /// Takes a step, and fills the event with what the step does: as [`step`](World::step) has it, for an event that is
    /// kept from step to step, so that its room is taken once and no letter is copied.
    ///
    /// # Errors
    /// As at [`step`](World::step); the event tells then what it told before.
    pub fn step_event(&mut self, step: &Step, event: &mut StepEvent) -> Result<(), NoMemory>
        requires { FitsStep self.old.config (length self.old.txs) step.now }
        ensures tells { IfOk result (λ _. Tells event.new (happens self.old step.now)) }
        ensures after { IfOk result (λ _. self.new ≡ stepped self.old step.now) }
        ensures err { OnErr result (self.new ≡ self.old) }
        ensures same { OnErr result (TellsSame event.old event.new) }
        ensures sound { Sound self.new }
        ensures promise { HasPromise self.new }
        ensures never { IsNoRefusal (happens self.old step.now).answer }
    {
        every_run_keeps_its_promise();
        never_refused_so();
        if self.book.steps() == u64::MAX {
            return Err(NoMemory);
        }
        match step {
            Step::Begin(id) => Ok(self.begin(*id, event)),
            Step::Try(at, slot) => self.try_slot(*at, *slot, event),
            Step::Deliver(from, to, number) => self.deliver(*from, *to, *number, event),
            Step::Tick(at) => self.tick(*at, event),
            Step::Stop(at) => Ok(self.stop(*at, event)),
            Step::View(members) => self.view(*members, event),
            Step::Install(at, epoch) => self.install(*at, *epoch, event),
        }
    }

    /// Takes a step, and fills the report with what the step does: as [`step`](World::step) has it, for a report that is
    /// kept from step to step.
    ///
    /// # Errors
    /// As at [`step`](World::step); the report says then what it said before.
    pub fn step_into(&mut self, step: &Step, report: &mut Report) -> Result<(), NoMemory>
        requires { FitsStep self.old.config (length self.old.txs) step.now }
        ensures tells { IfOk result (λ _. Reports report.new (happens self.old step.now)) }
        ensures after { IfOk result (λ _. self.new ≡ stepped self.old step.now) }
        ensures err { OnErr result (self.new ≡ self.old) }
        ensures same { OnErr result (SaysSame report.old report.new) }
        ensures sound { Sound self.new }
        ensures promise { HasPromise self.new }
        ensures never { IsNoRefusal (happens self.old step.now).answer }
    {
        every_run_keeps_its_promise();
        never_refused_so();
        let mut event = StepEvent::new(*self.nodes.allocator())?;
        report.reserve()?;
        self.step_event(step, &mut event)?;
        report.fill(event);
        Ok(())
    }
}
