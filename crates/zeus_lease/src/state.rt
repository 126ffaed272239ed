//! Leases while they run.
ghost use Rattle.std.specs.Prelude.{◌≡◌, ◌<◌, ◌≤◌, ◌+◌, ◌*◌, ◌^◌};
ghost use Rattle.std.specs.Prelude.{ℕ, suc, All, IfOk, OnErr, Some, None, nat_le, length, slice_get};
ghost use Rattle.zeus_base.specs.Nodes.{has};
ghost use Rattle.zeus_base.specs.declared.step.Step.TheVariants.{View as ViewStep};
ghost use Rattle.zeus_model.specs.Tables.{nth};
ghost use Rattle.zeus_model.specs.World.{happens as world_does, last_view};
ghost use Rattle.zeus_lease.specs.Kept.{IsKept, shown};
ghost use Rattle.zeus_lease.specs.Machine.{act, act_by, ask, happens, hear, is_below_end, is_skewed, later, may_act, no_node, node};
ghost use Rattle.zeus_lease.specs.Machine.{pass_or_not, seen, skew, skewed_beside, start, stepped, take, take_by, view, wait, went_on};
ghost use Rattle.zeus_lease.specs.Scripts.{FitsNumbers, FitsStep};
ghost use Rattle.zeus_lease.specs.declared.answer.LeaseAnswer.TheVariants.{Skewed};

use crate::answer::LeaseAnswer;
use crate::step::LeaseStep;
use membership::Service;
use std::alloc::Global;
use zeus_base::{NoMemory, NodeId, NodeSet};
use zeus_model::Made;

/// A node: its clock, the end of its lease by that clock, and the end that the service keeps for it by its own.
#[derive(Clone, Copy, Debug)]
pub(crate) struct Node {
    pub clock: u64,
    pub end: Option<u64>,
    pub expiry: u64,
}

/// An ask for a lease: who asked, and at which time by its own clock.
#[derive(Clone, Copy, Debug)]
pub(crate) struct Ask {
    pub node: NodeId,
    pub clock: u64,
}

/// What the steps so far have led to.
#[derive(Drop)]
pub(crate) struct State {
    pub length: u64,
    pub percent: u64,
    pub steps: u32,
    pub nodes: Vec<Node>,
    pub service: u64,
    pub ended: NodeSet,
    pub asks: Vec<Ask>,
    pub grants: Vec<u32>,
    pub views: Service,
}

/// Whether a clock goes too fast beside another.
#[tactic(auto, unfolding(crate::specs::Machine::is_skewed))]
fn is_skewed(percent: u64, fast: u64, slow: u64) -> bool
    requires percent { percent ≤ 100 }
    requires fast { fast < 2 ^ 32 }
    requires slow { slow < 2 ^ 32 }
    ensures { result ≡ is_skewed percent fast slow }
{
    100 * fast > (100 + percent) * slow
}

/// The first clock beside which this one goes too fast.
#[tactic(auto, unfolding(crate::specs::Machine::skewed_beside))]
fn skewed_beside(percent: u64, ticks: &[u64], fast: u8) -> Option<LeaseAnswer>
    requires percent { percent ≤ 100 }
    requires few { length ticks.now ≤ 9 }
    requires fast { fast < length ticks.now }
    requires ticks { All (λ t. t < 2 ^ 32) ticks.now }
    ensures { result ≡ skewed_beside percent ticks.now (length ticks.now) fast }
{
    for slow in 0..ticks.len() as u8 {
        if is_skewed(percent, ticks[usize::from(fast)], ticks[usize::from(slow)]) {
            return Some(LeaseAnswer::Skewed(fast, slow));
        }
    }
    None
}

/// The first clock that goes too fast beside another.
#[tactic(auto, unfolding(crate::specs::Machine::skew))]
fn skew(percent: u64, ticks: &[u64]) -> Option<LeaseAnswer>
    requires percent { percent ≤ 100 }
    requires few { length ticks.now ≤ 9 }
    requires ticks { All (λ t. t < 2 ^ 32) ticks.now }
    ensures { result ≡ skew percent ticks.now (length ticks.now) }
{
    for fast in 0..ticks.len() as u8 {
        let skewed = skewed_beside(percent, ticks, fast);
        if skewed.is_some() {
            return skewed;
        }
    }
    None
}

/// Lets each node's clock go on by its number.
fn go_on(nodes: &mut [Node], ticks: &[u64])
    requires few { length nodes.old ≤ length ticks.now }
    requires ticks { All (λ t. t < 2 ^ 32) ticks.now }
    requires clocks { (k : ℕ) → (nth no_node nodes.old k).clock < 2 ^ 63 }
    ensures { nodes.new ≡ went_on nodes.old ticks.now }
{
    for place in 0..nodes.len() {
        nodes[place].clock += ticks[place];
    }
}

/// The later of an end, if there is one, and another.
#[tactic(auto, unfolding(crate::specs::Machine::later))]
fn later(end: Option<u64>, other: u64) -> u64
    ensures { result ≡ later end other }
{
    match end {
        None => other,
        Some(end) => end.max(other),
    }
}

/// Whether a clock is below an end, if there is one.
#[tactic(auto, unfolding(crate::specs::Machine::is_below_end))]
fn is_below_end(clock: u64, end: Option<u64>) -> bool
    ensures { result ≡ is_below_end clock end }
{
    match end {
        None => false,
        Some(end) => clock < end,
    }
}

impl State {
    /// So many nodes, with all clocks at 0.
    #[tactic(auto, unfolding(crate::specs::Machine::start))]
    pub(crate) fn new(
        alloc: Global,
        nodes: u8,
        length: u64,
        percent: u64,
    ) -> Result<State, NoMemory>
        requires { FitsNumbers nodes length percent }
        ensures { IfOk result (λ s. shown s ≡ start nodes length percent) }
    {
        let node = Node {
            clock: 0,
            end: None,
            expiry: 0,
        };
        Ok(State {
            length,
            percent,
            steps: 0,
            nodes: Vec::from_elem(alloc, node, usize::from(nodes)).map_err(|_| NoMemory)?,
            service: 0,
            ended: NodeSet::empty(),
            asks: Vec::new(alloc),
            grants: Vec::new(alloc),
            views: Service::new(alloc, nodes)?,
        })
    }

    /// Time passes, unless a clock goes too fast.
    #[tactic(auto, unfolding(crate::specs::Machine::pass_or_not))]
    fn pass(&mut self, ticks: &[u64]) -> LeaseAnswer
        requires kept { IsKept (shown self.old) }
        requires few { self.old.steps < 50000 }
        requires count { length ticks.now ≡ suc (length self.old.nodes.items) }
        requires ticks { All (λ t. t < 2 ^ 32) ticks.now }
        ensures { record { machine = shown self.new; answer = result }
            ≡ pass_or_not (shown self.old) ticks.now (skew self.old.percent ticks.now (suc (length self.old.nodes.items))) }
    {
        if let Some(skewed) = skew(self.percent, ticks) {
            return skewed;
        }
        self.service += ticks[self.nodes.len()];
        go_on(self.nodes.as_mut_slice(), ticks);
        LeaseAnswer::Passed
    }

    /// The node asks for a lease.
    #[tactic(auto, unfolding(crate::specs::Machine::ask))]
    fn ask(&mut self, node: NodeId) -> Result<LeaseAnswer, NoMemory>
        requires kept { IsKept (shown self.old) }
        requires node { node < length self.old.nodes.items }
        ensures did { IfOk result (λ a. record { machine = shown self.new; answer = a } ≡ ask (shown self.old) node) }
        ensures err { OnErr result (shown self.new ≡ shown self.old) }
    {
        if self.ended.has(node) {
            return Ok(LeaseAnswer::Ended);
        }
        let number = self.asks.len() as u32;
        let clock = self.nodes[node.place()].clock;
        self.asks.push(Ask { node, clock }).map_err(|_| NoMemory)?;
        Ok(LeaseAnswer::Asked(number))
    }

    /// How long the service waits for a lease by its own clock.
    fn wait(&self) -> u64
        requires { FitsNumbers (length self.now.nodes.items) self.now.length self.now.percent }
        ensures { result ≡ wait (shown self.now) }
    {
        (self.length * (100 + self.percent) + 99) / 100
    }

    /// Whether the node is a member of the last view.
    fn is_member(&self, node: NodeId) -> bool
        ensures { result ≡ has node (last_view self.now.views) }
    {
        match self.views.get(self.views.count()) {
            Some(view) => view.members.has(node),
            None => false,
        }
    }

    /// The ask of this number, where there is one.
    fn ask_at(&self, number: u32) -> Option<Ask>
        ensures { result ≡ slice_get self.now.asks.items number }
    {
        self.asks.get(number as usize).copied()
    }

    /// The number of the ask that the grant of this number answers, where there is one.
    fn grant_at(&self, number: u32) -> Option<u32>
        ensures { result ≡ slice_get self.now.grants.items number }
    {
        self.grants.get(number as usize).copied()
    }

    /// The service hears the ask of this number.
    #[tactic(auto, unfolding(crate::specs::Machine::hear))]
    fn hear(&mut self, number: u32) -> Result<LeaseAnswer, NoMemory>
        requires kept { IsKept (shown self.old) }
        requires few { self.old.steps < 50000 }
        ensures did { IfOk result (λ a. record { machine = shown self.new; answer = a }
            ≡ hear (shown self.old) number (slice_get self.old.asks.items number)) }
        ensures err { OnErr result (shown self.new ≡ shown self.old) }
    {
        let Some(ask) = self.ask_at(number) else {
            return Ok(LeaseAnswer::NoAsk(self.asks.len() as u32));
        };
        let node = ask.node;
        if !self.is_member(node) {
            return Ok(LeaseAnswer::Dropped);
        }
        let grant = self.grants.len() as u32;
        self.grants.push(number).map_err(|_| NoMemory)?;
        let expiry = self.service + self.wait();
        let node = &mut self.nodes[node.place()];
        node.expiry = node.expiry.max(expiry);
        Ok(LeaseAnswer::Granted(grant))
    }

    /// The node that asked takes the grant of this number.
    #[tactic(auto, unfolding(crate::specs::Machine::take, crate::specs::Machine::take_by))]
    fn take(&mut self, number: u32) -> LeaseAnswer
        requires kept { IsKept (shown self.old) }
        requires few { self.old.steps < 50000 }
        ensures { record { machine = shown self.new; answer = result } ≡ take (shown self.old) (slice_get self.old.grants.items number) }
    {
        let Some(asked) = self.grant_at(number) else {
            return LeaseAnswer::NoGrant(self.grants.len() as u32);
        };
        let ask = self.asks[asked as usize];
        if self.ended.has(ask.node) {
            return LeaseAnswer::Ended;
        }
        let end = ask.clock + self.length;
        let node = &mut self.nodes[ask.node.place()];
        let end = later(node.end, end);
        node.end = Some(end);
        LeaseAnswer::Held(end)
    }

    /// The node acts, if it may.
    #[tactic(auto, unfolding(crate::specs::Machine::act, crate::specs::Machine::act_by))]
    fn act(&mut self, node: NodeId) -> LeaseAnswer
        requires node { node < length self.old.nodes.items }
        ensures { record { machine = shown self.new; answer = result } ≡ act (shown self.old) node }
    {
        if self.ended.has(node) {
            return LeaseAnswer::Ended;
        }
        let place = node.place();
        let Some(end) = self.nodes[place].end else {
            return LeaseAnswer::NoLease;
        };
        if self.nodes[place].clock < end {
            return LeaseAnswer::Acted;
        }
        self.ended = self.ended.insert(node);
        LeaseAnswer::Ended
    }

    /// Whether the node may act.
    #[tactic(auto, unfolding(crate::specs::Machine::may_act))]
    pub(crate) fn may_act(&self, node: NodeId) -> bool
        requires node { node < length self.now.nodes.items }
        ensures { result ≡ may_act (shown self.now) node }
    {
        let Node { clock, end, .. } = self.nodes[node.place()];
        !self.ended.has(node) && is_below_end(clock, end)
    }

    /// The nodes that count as stopped for the service.
    fn stopped(&self) -> NodeSet
        requires { length self.now.nodes.items ≤ 8 }
        ensures { (n : ℕ) → n < length self.now.nodes.items → has n result ≡ nat_le (node (shown self.now) n).expiry self.now.service }
    {
        let mut stopped = NodeSet::empty();
        for place in 0..self.nodes.len() {
            if self.nodes[place].expiry <= self.service {
                stopped = stopped.insert(NodeId(place as u8));
            }
        }
        stopped
    }

    /// The service makes a view of these members, if it may.
    #[tactic(auto, unfolding(crate::specs::Machine::view))]
    fn view(&mut self, members: NodeSet) -> Result<LeaseAnswer, NoMemory>
        requires kept { IsKept (shown self.old) }
        requires few { self.old.steps < 50000 }
        ensures did { IfOk result (λ a. record { machine = shown self.new; answer = a }
            ≡ view (shown self.old) (world_does (seen (shown self.old)) (ViewStep members))) }
        ensures err { OnErr result (shown self.new ≡ shown self.old) }
    {
        let stopped = self.stopped();
        Ok(LeaseAnswer::View(self.views.view(members, stopped)?))
    }

    /// What the step does, which is not counted yet.
    #[tactic(auto, unfolding(crate::specs::Machine::happens, crate::specs::Scripts::FitsStep))]
    fn happen(&mut self, step: &LeaseStep) -> Result<LeaseAnswer, NoMemory>
        requires kept { IsKept (shown self.old) }
        requires few { self.old.steps < 50000 }
        requires fits { FitsStep (length self.old.nodes.items) step.now }
        ensures did { IfOk result (λ a. record { machine = shown self.new; answer = a } ≡ happens (shown self.old) step.now) }
        ensures err { OnErr result (shown self.new ≡ shown self.old) }
    {
        match step {
            LeaseStep::Pass(ticks) => Ok(self.pass(ticks.as_slice())),
            LeaseStep::Ask(node) => self.ask(*node),
            LeaseStep::Hear(number) => self.hear(*number),
            LeaseStep::Take(number) => Ok(self.take(*number)),
            LeaseStep::Act(node) => Ok(self.act(*node)),
            LeaseStep::View(members) => self.view(*members),
        }
    }

    /// Takes the step, and counts it.
    #[tactic(auto, unfolding(crate::specs::Machine::stepped))]
    pub(crate) fn step(&mut self, step: &LeaseStep) -> Result<LeaseAnswer, NoMemory>
        requires kept { IsKept (shown self.old) }
        requires few { self.old.steps < 50000 }
        requires fits { FitsStep (length self.old.nodes.items) step.now }
        ensures answer { IfOk result (λ a. a ≡ (happens (shown self.old) step.now).answer) }
        ensures after { IfOk result (λ a. shown self.new ≡ stepped (shown self.old) step.now) }
        ensures err { OnErr result (shown self.new ≡ shown self.old) }
    {
        let count = self.steps + 1;
        let answer = self.happen(step)?;
        self.steps = count;
        Ok(answer)
    }
}
