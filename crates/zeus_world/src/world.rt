//! A run of the machine, step by step.
ghost use Rattle.std.specs.Prelude.{◌≡◌, IfOk, OnErr, length, map};
ghost use Rattle.zeus_base.specs.Limits.{KeepsLimits};
ghost use Rattle.zeus_model.specs.Scripts.{FitsStep, FitsTxs};
ghost use Rattle.zeus_model.specs.Sound.{Sound};
ghost use Rattle.zeus_model.specs.Tables.{below};
ghost use Rattle.zeus_model.specs.World.{happens, start, start_node, stepped};
ghost use Rattle.soundness.specs.Promise.{HasPromise, IsNoRefusal};
ghost use Rattle.zeus_world.specs.Reports.{Reports};

use crate::order::Passes;
use crate::report::Report;
use history_book::Book;
use lossy_fabric::Links;
use membership::Service;
use soundness::every_run_keeps_its_promise;
use std::alloc::Global;
use std::marker::Model;
use zeus_base::{Config, NoMemory, NodeId, Step};
use zeus_node::{Effect, Node};
use zeus_txn::TxList;

/// The world of a run: what the steps so far have led to, seen as the world of the machine. It is sound at every moment.
#[derive(Drop)]
pub struct World<'a> {
    pub(crate) config: &'a Config,
    pub(crate) txs: &'a TxList,
    pub(crate) nodes: Vec<Node>,
    pub(crate) links: Links,
    pub(crate) views: Service,
    pub(crate) book: Book,
    /// What the last call of a node sent and passed.
    pub(crate) effect: Effect,
    /// The same passes in the order of their streams.
    pub(crate) passes: Passes,
}

impl<'a> Model for World<'a> {
    ghost use Rattle.zeus_model.specs.World.{World};

    ghost Value = { World };

    ghost use Rattle.zeus_world.specs.Shown.{IsKept, shown};

    ghost view = { shown };

    ghost invariant = { λ w. IsKept (shown w) w.book };
}

impl<'a> World<'a> {
    /// The world at the start of a run: nothing was sent, begun or stopped, and epoch 1 has all nodes.
    ///
    /// # Errors
    /// `NoMemory` if the memory for it is not there.
    pub fn start(alloc: Global, config: &'a Config, txs: &'a TxList) -> Result<World<'a>, NoMemory>
        requires limits { KeepsLimits config.now }
        requires txs { FitsTxs config.now txs.now }
        ensures start { IfOk result (λ w. w ≡ start config.now txs.now) }
        ensures sound { IfOk result (λ w. Sound w) }
        ensures promise { IfOk result (λ w. HasPromise w) }
    {
        every_run_keeps_its_promise();
        Ok(World {
            config,
            txs,
            nodes: start_nodes(alloc, config)?,
            links: Links::new(alloc, config.nodes)?,
            views: Service::new(alloc, config.nodes)?,
            book: Book::new(alloc, config, txs.len() as u32)?,
            effect: Effect::new(alloc)?,
            passes: Passes::new(alloc)?,
        })
    }

    /// Takes a step, and tells what the step does. The world is sound after it, whatever the step, and keeps the whole
    /// promise of the theorem; and the step answers none of the refusals that never come.
    ///
    /// # Errors
    /// `NoMemory` if the room for what the step makes is not there, or if no more steps, views or letters of a link can
    /// be counted; nothing has changed then.
    pub fn step(&mut self, step: &Step) -> Result<Report, NoMemory>
        requires { FitsStep self.old.config (length self.old.txs) step.now }
        ensures tells { IfOk result (λ r. Reports r (happens self.old step.now)) }
        ensures after { IfOk result (λ r. self.new ≡ stepped self.old step.now) }
        ensures err { OnErr result (self.new ≡ self.old) }
        ensures sound { Sound self.new }
        ensures promise { HasPromise self.new }
        ensures never { IsNoRefusal (happens self.old step.now).answer }
    {
        let mut report = Report::new(*self.nodes.allocator());
        self.step_into(step, &mut report)?;
        Ok(report)
    }
}

#[tactic(auto, unfolding(zeus_model::specs::Tables::numbers_from))]
fn start_nodes(alloc: Global, config: &Config) -> Result<Vec<Node>, NoMemory>
    requires { KeepsLimits config.now }
    ensures { IfOk result (λ v. v.items ≡ map (start_node config.now) (below config.now.nodes)) }
{
    let mut nodes = Vec::with_capacity(alloc, config.nodes as usize).map_err(|_| NoMemory)?;
    for node in 0..config.nodes {
        nodes.push_reserved(Node::new(alloc, config, NodeId(node))?);
    }
    Ok(nodes)
}
