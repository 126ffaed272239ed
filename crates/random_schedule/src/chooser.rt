//! The step that a word chooses.
ghost use Rattle.std.specs.Prelude.{◌≡◌, IfOk, length, replicate};
ghost use Rattle.zeus_base.specs.Limits.{KeepsLimits};
ghost use Rattle.zeus_model.specs.Scripts.{FitsStep, FitsTxs};
ghost use Rattle.zeus_model.specs.World.{start};
ghost use Rattle.reached_worlds.specs.Ranged.{IsRanged};
ghost use Rattle.random_schedule.specs.Keeping.{KeepsUp, progress_of};
ghost use Rattle.random_schedule.specs.Schedule.{fresh_of, progress_by, progress_start, step_by, step_of, stops_of};

use crate::begins::begin_step;
use crate::deliveries::{fresh_step, repeat_step};
use crate::faults::Faults;
use crate::fresh::FreshPacket;
use crate::members::member_step;
use crate::nodes::tick_of;
use crate::queues::{Queue, queues_of};
use crate::slots::try_step;
use crate::tables::{all_links, all_slots};
use std::alloc::Global;
use zeus_base::{Config, NoMemory, Step, Stream};
use zeus_txn::TxList;
use zeus_world::World;

/// What a schedule keeps beside the world, so that a word finds what it chooses from.
#[derive(Drop)]
pub(crate) struct Chooser {
    /// Each slot of each node.
    pub(crate) slots: Vec<Stream>,
    /// By slot, its transactions.
    pub(crate) queues: Vec<Queue>,
    /// By slot, how many of its transactions are known to be begun, from the first on.
    pub(crate) begun: Vec<usize>,
    /// By link, its next fresh packet.
    pub(crate) fresh: Vec<FreshPacket>,
    /// How many nodes the schedule has stopped.
    pub(crate) stops: u8,
}

impl Chooser {
    /// What is kept at the start of a run.
    ///
    /// # Errors
    /// `NoMemory` if the memory for it is not there.
    pub(crate) fn new(alloc: Global, config: &Config, txs: &TxList) -> Result<Chooser, NoMemory>
        requires limits { KeepsLimits config.now }
        requires txs { FitsTxs config.now txs.now }
        ensures progress { IfOk result (λ c. progress_of c ≡ progress_start config.now) }
        ensures keeps { IfOk result (KeepsUp (start config.now txs.now)) }
    {
        let slots = all_slots(alloc, config.nodes, config.slots)?;
        let queues = queues_of(alloc, slots.as_slice(), txs)?;
        let begun = none_begun(alloc, queues.len())?;
        let fresh = all_links(alloc, config.nodes)?;
        Ok(Chooser {
            slots,
            queues,
            begun,
            fresh,
            stops: 0,
        })
    }

    /// The step of a kind that `u` chooses; what is kept is as after it.
    ///
    /// # Errors
    /// `NoMemory` if the memory for a list is not there.
    #[tactic(auto, unfolding(crate::specs::Schedule::step_of, crate::specs::Schedule::fresh_of, crate::specs::Schedule::stops_of))]
    fn step_of(
        &mut self,
        alloc: Global,
        world: &World,
        faults: &Faults,
        kind: u32,
        u: u32,
    ) -> Result<Step, NoMemory>
        requires ranged { IsRanged world.now }
        requires keeps { KeepsUp world.now self.old }
        ensures step { IfOk result (λ step. step ≡ step_of faults.now world.now (progress_of self.old) kind u) }
        ensures fresh { IfOk result (λ _. self.new.fresh.items ≡ fresh_of world.now (progress_of self.old) kind u) }
        ensures stops { IfOk result (λ _. self.new.stops ≡ stops_of faults.now world.now (progress_of self.old) kind u) }
        ensures fits { IfOk result (FitsStep world.now.config (length world.now.txs)) }
        ensures keeps { KeepsUp world.now self.new }
    {
        if kind < 2 {
            let queues = self.queues.as_slice();
            begin_step(alloc, world, queues, self.begun.as_mut_slice(), u)
        } else if kind < 5 {
            try_step(alloc, world, self.slots.as_slice(), u)
        } else if kind < 12 {
            fresh_step(alloc, world, self.fresh.as_mut_slice(), faults.loss, u)
        } else if kind < 13 {
            repeat_step(alloc, world, self.fresh.as_slice(), u)
        } else if kind < 15 {
            Ok(tick_of(world, u))
        } else {
            Ok(member_step(world, faults.stops, &mut self.stops, u))
        }
    }

    /// The step that a word chooses; what is kept is as after it.
    ///
    /// # Errors
    /// `NoMemory` if the memory for a list is not there.
    pub(crate) fn choose(
        &mut self,
        alloc: Global,
        world: &World,
        faults: &Faults,
        word: u32,
    ) -> Result<Step, NoMemory>
        requires ranged { IsRanged world.now }
        requires keeps { KeepsUp world.now self.old }
        ensures step { IfOk result (λ step. step ≡ step_by faults.now world.now (progress_of self.old) word) }
        ensures progress { IfOk result (λ _. progress_of self.new ≡ progress_by faults.now world.now (progress_of self.old) word) }
        ensures fits { IfOk result (FitsStep world.now.config (length world.now.txs)) }
        ensures keeps { KeepsUp world.now self.new }
    {
        self.step_of(alloc, world, faults, word % 16, word / 16)
    }
}

/// Of so many queues no transaction is begun.
fn none_begun(alloc: Global, count: usize) -> Result<Vec<usize>, NoMemory>
    ensures { IfOk result (λ v. v.items ≡ replicate count 0) }
{
    vec![in alloc; 0; count].map_err(|_| NoMemory)
}
