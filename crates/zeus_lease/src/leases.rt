//! Leases step by step.
ghost use Rattle.std.specs.Prelude.{◌≡◌, ◌↔◌, ◌<◌, ℕ, false, IsTrue, IfOk, OnErr, length};
ghost use Rattle.zeus_lease.specs.Law.{IsLeftOut, NeverActs};
ghost use Rattle.zeus_lease.specs.Machine.{happens, may_act, start, stepped};
ghost use Rattle.zeus_lease.specs.Scripts.{FitsNumbers, FitsStep};
ghost use Rattle.zeus_lease.specs.declared.answer.LeaseAnswer.TheVariants.{Acted};
ghost use Rattle.zeus_lease.specs.declared.step.LeaseStep.TheVariants.{Act};

use crate::answer::LeaseAnswer;
use crate::state::State;
use crate::step::LeaseStep;
use std::alloc::Global;
use std::marker::Model;
use zeus_base::{NoMemory, NodeId};

/// Nodes that act under leases, and the service that grants them and makes the views. From the view that leaves a node out
/// on, the node never acts.
#[derive(Drop)]
pub struct Leases {
    state: State,
}

impl Model for Leases {
    ghost use Rattle.zeus_lease.specs.Machine.{Machine};

    ghost Value = { Machine };

    ghost use Rattle.zeus_lease.specs.Kept.{IsKept, shown};

    ghost view = { λ l. shown l.state };

    ghost invariant = { λ l. IsKept (shown l.state) };
}

impl Leases {
    /// So many nodes, 1 to 8, with all clocks at 0: `term` is the length of a lease by its node's clock, and `percent` by how
    /// much one clock may go faster than another.
    ///
    /// # Errors
    /// `NoMemory` if the memory for it is not there.
    pub fn new(alloc: Global, nodes: u8, term: u64, percent: u64) -> Result<Leases, NoMemory>
        requires { FitsNumbers nodes term percent }
        ensures start { IfOk result (λ l. l ≡ start nodes term percent) }
        // It has so many nodes, and no step was taken.
        ensures ready { IfOk result (λ l. (length l.nodes ≡ nodes) × (l.steps ≡ 0)) }
    {
        Ok(Leases {
            state: State::new(alloc, nodes, term, percent)?,
        })
    }

    /// Takes a step, and answers it. At most 50,000 steps are taken.
    ///
    /// # Errors
    /// `NoMemory` if the memory for an ask, a grant or a view is not there; nothing has changed then.
    pub fn step(&mut self, step: &LeaseStep) -> Result<LeaseAnswer, NoMemory>
        requires few { self.old.steps < 50000 }
        requires fits { FitsStep (length self.old.nodes) step.now }
        ensures answer { IfOk result (λ a. a ≡ (happens self.old step.now).answer) }
        ensures after { IfOk result (λ a. self.new ≡ stepped self.old step.now) }
        ensures err { OnErr result (self.new ≡ self.old) }
        // The number of nodes stays.
        ensures nodes { IfOk result (λ a. length self.new.nodes ≡ length self.old.nodes) }
        // A node that the last view leaves out stays left out, and never acts.
        ensures left_out { (n : ℕ) → IsLeftOut self.old n → IsLeftOut self.new n × NeverActs self.new n }
        // A node that the view of this step leaves out never acts.
        ensures never { (n : ℕ) → IsLeftOut self.new n → NeverActs self.new n }
    {
        self.state.step(step)
    }

    /// Whether the node may act now: whether an act of it would be acted.
    pub fn may_act(&self, node: NodeId) -> bool
        requires { node < length self.now.nodes }
        ensures value { result ≡ may_act self.now node }
        ensures act { IsTrue result ↔ ((happens self.now (Act node)).answer ≡ Acted) }
        ensures left_out { IsLeftOut self.now node → result ≡ false }
    {
        self.state.may_act(node)
    }
}
