//! The steps in which a node sends letters and lets entries pass: tries, deliveries, ticks and installs.
ghost use Rattle.std.specs.Prelude.{◌≡◌, ◌<◌, ◌≤◌, ◌+◌, ◌^◌, IfOk, OnErr, length};
ghost use Rattle.zeus_base.specs.declared.step.Step.TheVariants.{Deliver as DeliverStep, Install as InstallStep, Tick as TickStep, Try as TryStep};
ghost use Rattle.zeus_model.specs.Scripts.{FitsStep};
ghost use Rattle.zeus_model.specs.World.{happens};
ghost use Rattle.zeus_world.specs.Reports.{TellsSame};
ghost use Rattle.zeus_world.specs.Taken.{IsTaken};

use crate::alone::answer_alone;
use crate::event::StepEvent;
use crate::posting::settle;
use crate::world::World;
use zeus_base::{NoMemory, NodeId, SlotId, Stream};
use zeus_model::Answer;

impl<'a> World<'a> {
    /// A slot tries its current transaction.
    ///
    /// # Errors
    /// `NoMemory` if the room for what a step makes is not there; nothing has changed then.
    pub(crate) fn try_slot(
        &mut self,
        at: NodeId,
        slot: SlotId,
        event: &mut StepEvent,
    ) -> Result<(), NoMemory>
        requires fits { FitsStep self.old.config (length self.old.txs) (TryStep at slot) }
        requires counted { self.old.book.steps + 1 < 2 ^ 64 }
        ensures ok { IfOk result (λ _. IsTaken event.new self.new (happens self.old (TryStep at slot))) }
        ensures err { OnErr result (self.new ≡ self.old) }
        ensures same { OnErr result (TellsSame event.old event.new) }
    {
        event.reserve(self.book.txs() as usize)?;
        self.links.reserve(at)?;
        event.clear();
        self.effect.clear();
        let stream = Stream { node: at, slot };
        let node = &mut self.nodes[at.place()];
        let tried = node.try_slot(slot, &mut self.effect);
        self.book.note_tried(
            stream,
            self.config.degree,
            &tried,
            &mut event.points,
            &mut event.acked,
        );
        event.answer = Answer::Try(tried);
        settle(
            at,
            &mut self.effect,
            &mut self.passes,
            &mut self.book,
            &mut self.links,
            event,
        );
        Ok(())
    }

    /// The letter of this number on a link arrives.
    ///
    /// # Errors
    /// `NoMemory` if the room for what a step makes is not there; nothing has changed then.
    pub(crate) fn deliver(
        &mut self,
        from: NodeId,
        to: NodeId,
        number: u32,
        event: &mut StepEvent,
    ) -> Result<(), NoMemory>
        requires fits { FitsStep self.old.config (length self.old.txs) (DeliverStep from to number) }
        requires counted { self.old.book.steps + 1 < 2 ^ 64 }
        ensures ok { IfOk result (λ _. IsTaken event.new self.new (happens self.old (DeliverStep from to number))) }
        ensures err { OnErr result (self.new ≡ self.old) }
        ensures same { OnErr result (TellsSame event.old event.new) }
    {
        event.reserve(self.book.txs() as usize)?;
        self.links.reserve(to)?;
        let Some(packet) = self.links.get(from, to, number) else {
            let count = self.links.count(from, to);
            answer_alone(&mut self.book, Answer::NoPacket(count), event);
            return Ok(());
        };
        event.clear();
        self.effect.clear();
        let node = &mut self.nodes[to.place()];
        event.answer = Answer::Receive(node.receive(&packet.letter, &mut self.effect));
        settle(
            to,
            &mut self.effect,
            &mut self.passes,
            &mut self.book,
            &mut self.links,
            event,
        );
        Ok(())
    }

    /// A node's timer fires.
    ///
    /// # Errors
    /// `NoMemory` if the room for what a step makes is not there; nothing has changed then.
    pub(crate) fn tick(&mut self, at: NodeId, event: &mut StepEvent) -> Result<(), NoMemory>
        requires fits { FitsStep self.old.config (length self.old.txs) (TickStep at) }
        requires counted { self.old.book.steps + 1 < 2 ^ 64 }
        ensures ok { IfOk result (λ _. IsTaken event.new self.new (happens self.old (TickStep at))) }
        ensures err { OnErr result (self.new ≡ self.old) }
        ensures same { OnErr result (TellsSame event.old event.new) }
    {
        event.reserve(self.book.txs() as usize)?;
        self.links.reserve(at)?;
        event.clear();
        self.effect.clear();
        let node = &mut self.nodes[at.place()];
        event.answer = Answer::Tick(node.tick(&mut self.effect));
        settle(
            at,
            &mut self.effect,
            &mut self.passes,
            &mut self.book,
            &mut self.links,
            event,
        );
        Ok(())
    }

    /// A node installs the view of an epoch.
    ///
    /// # Errors
    /// `NoMemory` if the room for what a step makes is not there; nothing has changed then.
    pub(crate) fn install(
        &mut self,
        at: NodeId,
        epoch: u32,
        event: &mut StepEvent,
    ) -> Result<(), NoMemory>
        requires fits { FitsStep self.old.config (length self.old.txs) (InstallStep at epoch) }
        requires counted { self.old.book.steps + 1 < 2 ^ 64 }
        ensures ok { IfOk result (λ _. IsTaken event.new self.new (happens self.old (InstallStep at epoch))) }
        ensures err { OnErr result (self.new ≡ self.old) }
        ensures same { OnErr result (TellsSame event.old event.new) }
    {
        let Some(view) = self.views.get(epoch) else {
            let count = self.views.count();
            answer_alone(&mut self.book, Answer::NoView(count), event);
            return Ok(());
        };
        event.reserve(self.book.txs() as usize)?;
        self.links.reserve(at)?;
        event.clear();
        self.effect.clear();
        let node = &mut self.nodes[at.place()];
        event.answer = Answer::Install(node.install(&view, &mut self.effect));
        settle(
            at,
            &mut self.effect,
            &mut self.passes,
            &mut self.book,
            &mut self.links,
            event,
        );
        Ok(())
    }
}
