//! A node: its state, and its calls.
ghost use Rattle.std.specs.Prelude.{◌≡◌, ◌<◌, ◌≤◌, All, IfOk, length, option_copied, option_map, take, true};
ghost use Rattle.zeus_base.specs.Limits.{KeepsLimits};
ghost use Rattle.zeus_packet.specs.Fits.{fits, nodes_fit};
ghost use Rattle.zeus_txn.specs.Ops.{named};
ghost use Rattle.zeus_txn.specs.Tx.{IsTx};
ghost use Rattle.zeus_model.specs.Local.{begin, try_slot};
ghost use Rattle.zeus_model.specs.Membership.{install, stop, tick};
ghost use Rattle.zeus_model.specs.Receive.{receive};
ghost use Rattle.zeus_model.specs.State.{copy, entry, is_open, no_entry, owns, slot as slot_of};
ghost use Rattle.zeus_model.specs.World.{start_node};
ghost use Rattle.node_ranges.specs.Ranges.{limits_of};
ghost use Rattle.node_state.specs.Effect.{IsCleared};

use crate::receiving::{apply, rejection};
use commit_rules::finish;
use node_state::{Effect, NodeState};
use std::alloc::Global;
use std::marker::Model;
use zeus_base::{Config, NoMemory, NodeId, NodeSet, ObjId, SlotId, Stamp, TxId};
use zeus_model::{Begin, Copy, Entry, Install, Outcome, Stop, Ticked, Tried};
use zeus_packet::{Letter, Place, View};
use zeus_txn::Tx;

/// A node of the cluster, seen as the node of the rules. No call but `new` takes memory: the letters that a call sends
/// and the entries that pass in it are left in an effect, which has its memory from its start; of more than 64 letters
/// the rest is not sent.
#[derive(Drop)]
pub struct Node {
    state: NodeState,
}

impl Model for Node {
    ghost use Rattle.zeus_model.specs.State.{Node};

    ghost Value = { Node };

    ghost view = { λ n. n.state };
}

impl Node {
    /// The node `me` at the start of a run: in epoch 1 with all nodes as members, all of them reported, and with a
    /// valid copy of each object that it is declared to replicate. All memory of the node is taken here.
    ///
    /// # Errors
    ///
    /// `NoMemory` if that memory is not there.
    pub fn new(alloc: Global, config: &Config, me: NodeId) -> Result<Node, NoMemory>
        requires limits { KeepsLimits config.now }
        requires me { me < config.now.nodes }
        ensures { IfOk result (λ node. node ≡ start_node config.now me) }
    {
        let state = NodeState::new(alloc, config, me)?;
        Ok(Node { state })
    }

    /// Begins a transaction, well made and of objects that there are, in a slot. A stopped node answers so, and so
    /// does a slot that has a current transaction, with its number; then nothing changes. Else the slot has the
    /// transaction.
    pub fn begin(&mut self, slot: SlotId, id: TxId, tx: &Tx) -> Begin
        requires slot { slot < length self.old.slots }
        requires made { IsTx tx.now }
        requires objects { All (λ x. x < length self.old.entries) (named tx.now) }
        ensures answer { result ≡ (begin self.old slot id tx.now).answer }
        ensures after { self.new ≡ (begin self.old slot id tx.now).node }
    {
        local_rules::begin(&mut self.state, slot, id, tx)
    }

    /// Tries the current transaction of the slot: it is read, committed or refused, or stays with the first cause that
    /// hinders it, and asks for what it lacks.
    pub fn try_slot(&mut self, slot: SlotId, out: &mut Effect) -> Tried
        requires slot { slot < length self.old.slots }
        requires cleared { IsCleared out.old }
        ensures answer { result ≡ (try_slot self.old slot).answer }
        ensures after { self.new ≡ (try_slot self.old slot).node }
        ensures sent { out.new.sent ≡ take 64 (try_slot self.old slot).sent }
        ensures passed { out.new.passed ≡ (try_slot self.old slot).passed }
    {
        local_rules::try_slot(&mut self.state, slot, out)
    }

    /// Takes a letter that fits the node's tables: the tests before every letter, the rule of its body, and the finish,
    /// in which streams pass what is acknowledged and the node reports if it has nothing left to replay.
    pub fn receive(&mut self, letter: &Letter, out: &mut Effect) -> Outcome
        requires fits { fits letter.now (limits_of self.old) ≡ true }
        requires cleared { IsCleared out.old }
        ensures answer { result ≡ (receive self.old letter.now).answer }
        ensures after { self.new ≡ (receive self.old letter.now).node }
        ensures sent { out.new.sent ≡ take 64 (receive self.old letter.now).sent }
        ensures passed { out.new.passed ≡ (receive self.old letter.now).passed }
    {
        if let Some(outcome) = rejection(&self.state, letter) {
            return outcome;
        }
        let outcome = apply(&mut self.state, letter, out);
        finish(&mut self.state, out);
        outcome
    }

    /// The timer fires: a running node says again what may have been lost on its way. Nothing of the node changes.
    pub fn tick(&mut self, out: &mut Effect) -> Ticked
        requires cleared { IsCleared out.old }
        ensures answer { result ≡ (tick self.old).answer }
        ensures after { self.new ≡ (tick self.old).node }
        ensures sent { out.new.sent ≡ take 64 (tick self.old).sent }
        ensures passed { out.new.passed ≡ (tick self.old).passed }
    {
        tick_rules::tick(&self.state, out)
    }

    /// Takes a view of nodes that there are. A stopped node answers so, and a node that is in no earlier epoch with its
    /// own; then nothing changes. Else the node is in the view's epoch with its members, of which none has reported, has
    /// gathered nothing, and finishes.
    pub fn install(&mut self, view: &View, out: &mut Effect) -> Install
        requires epoch { 1 ≤ view.now.epoch }
        requires members { nodes_fit (limits_of self.old) view.now.members ≡ true }
        requires cleared { IsCleared out.old }
        ensures answer { result ≡ (install self.old view.now).answer }
        ensures after { self.new ≡ (install self.old view.now).node }
        ensures sent { out.new.sent ≡ take 64 (install self.old view.now).sent }
        ensures passed { out.new.passed ≡ (install self.old view.now).passed }
    {
        if self.state.is_stopped() {
            return Install::Stopped;
        }
        let epoch = self.state.epoch();
        if view.epoch <= epoch {
            return Install::Old(epoch);
        }
        self.state.take_view(view);
        finish(&mut self.state, out);
        Install::Installed
    }

    /// Stops the node for good. A stopped node never acts again.
    pub fn stop(&mut self) -> Stop
        ensures answer { result ≡ (stop self.old).answer }
        ensures after { self.new ≡ (stop self.old).node }
    {
        if self.state.is_stopped() {
            return Stop::Stopped;
        }
        self.state.stop();
        Stop::Done
    }

    /// The epoch that the node is in.
    pub fn epoch(&self) -> u32
        ensures { result ≡ self.now.epoch }
    {
        self.state.epoch()
    }

    /// The members in that epoch.
    pub fn members(&self) -> NodeSet
        ensures { result ≡ self.now.members }
    {
        self.state.members()
    }

    /// Whether every member has reported.
    pub fn is_open(&self) -> bool
        ensures { result ≡ is_open self.now }
    {
        self.state.is_open()
    }

    /// Whether the node has stopped.
    pub fn is_stopped(&self) -> bool
        ensures { result ≡ self.now.stopped }
    {
        self.state.is_stopped()
    }

    /// The transaction that the slot is to try, if there is one.
    pub fn current(&self, slot: SlotId) -> Option<TxId>
        requires { slot < length self.now.slots }
        ensures { result ≡ option_map (λ c. c.id) (slot_of self.now slot).current }
    {
        match self.state.current(slot) {
            None => None,
            Some(current) => Some(current.id),
        }
    }

    /// What the node knows of the placement of an object that there is.
    pub fn entry(&self, obj: ObjId) -> &Entry
        requires { obj < length self.now.entries }
        ensures { result.now ≡ entry self.now obj }
    {
        self.state.entry(obj)
    }

    /// What the node knows of the object's placement, and of no object the placement at no node.
    pub fn known_entry(&self, obj: ObjId) -> Entry
        ensures { result ≡ entry self.now obj }
    {
        if obj.0 < self.state.object_count() {
            *self.state.entry(obj)
        } else {
            no_entry()
        }
    }

    /// Whether the node owns the object: its settled placement says so, and it holds no proposal.
    #[tactic(auto, unfolding(zeus_model::specs::State::owns))]
    pub fn owns(&self, obj: ObjId) -> bool
        ensures { result ≡ owns self.now obj }
    {
        let entry = self.known_entry(obj);
        entry.place.owner == self.state.me() && entry.proposal.is_none()
    }

    /// The node's copy of the object, if it has one.
    pub fn copy(&self, obj: ObjId) -> Option<Copy>
        ensures { result ≡ copy self.now obj }
    {
        self.state.copy(obj)
    }
}

/// What is known of no object.
fn no_entry() -> Entry
    ensures { result ≡ no_entry }
{
    Entry {
        stamp: Stamp {
            ver: 0,
            driver: NodeId(0),
        },
        place: Place {
            owner: NodeId(0),
            replicas: NodeSet::empty(),
        },
        proposal: None,
    }
}
