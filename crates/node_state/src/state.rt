//! The state of a node: its parts, and what they are read for.
ghost use Rattle.std.specs.Prelude.{◌≡◌, ◌==◌, ◌<◌, ◌≤◌, [], ◌∷◌, IfOk, length, option_copied};
ghost use Rattle.zeus_base.specs.Limits.{KeepsLimits};
ghost use Rattle.zeus_base.specs.Nodes.{has};
ghost use Rattle.zeus_model.specs.Act.{letter, to_each};
ghost use Rattle.zeus_model.specs.State.{entry, copy, holder, is_open, owns, slot as slot_of};
ghost use Rattle.zeus_model.specs.World.{start_node};
ghost use Rattle.node_state.specs.Done.{Adds};

use crate::effect::Effect;
use crate::slot::{Slot, start_slots};
use arbitration::Gathers;
use follower_log::Stored;
use membership::Barrier;
use object_table::Copies;
use owner_entry::{Dir, OwnerEntry};
use std::alloc::Global;
use std::marker::Model;
use zeus_base::{Config, NoMemory, NodeId, NodeSet, ObjId, SlotId};
use zeus_model::{Copy, Current, Entry};
use zeus_packet::{Body, Letter};

/// The state of a node, seen as the node of the rules. No call but `new` takes memory.
#[derive(Drop)]
pub struct NodeState {
    pub(crate) me: NodeId,
    pub(crate) epoch: u32,
    pub(crate) members: NodeSet,
    pub(crate) stopped: bool,
    pub(crate) node_count: u8,
    pub(crate) slot_count: u8,
    pub(crate) dir: Dir,
    pub(crate) copies: Copies,
    pub(crate) gathers: Gathers,
    pub(crate) slots: Vec<Slot>,
    pub(crate) logs: Stored,
    pub(crate) barrier: Barrier,
}

impl Model for NodeState {
    ghost use Rattle.zeus_model.specs.State.{Node};

    ghost Value = { Node };

    ghost use Rattle.node_state.specs.Shown.{IsKept, shown};

    ghost view = { shown };

    ghost invariant = { IsKept };
}

impl NodeState {
    /// The state of the node `me` at the start of a run: in epoch 1 with all nodes as members, all of them reported,
    /// and with a valid copy of each object that it is declared to replicate. All memory of the node is taken here.
    ///
    /// # Errors
    ///
    /// `NoMemory` if that memory is not there.
    pub fn new(alloc: Global, config: &Config, me: NodeId) -> Result<NodeState, NoMemory>
        requires limits { KeepsLimits config.now }
        requires me { me < config.now.nodes }
        ensures { IfOk result (λ state. state ≡ start_node config.now me) }
    {
        let all = NodeSet::below(config.nodes);
        Ok(NodeState {
            me,
            epoch: 1,
            members: all,
            stopped: false,
            node_count: config.nodes,
            slot_count: config.slots,
            dir: Dir::new(alloc, config)?,
            copies: Copies::new(alloc, config, me)?,
            gathers: Gathers::new(alloc, config)?,
            slots: start_slots(alloc, config.slots)?,
            logs: Stored::new(alloc, config)?,
            barrier: Barrier::new(all),
        })
    }

    /// The node's number.
    pub fn me(&self) -> NodeId
        ensures number { result ≡ self.now.me }
        ensures there { result < length self.now.logs }
    {
        self.me
    }

    /// The epoch that the node is in.
    pub fn epoch(&self) -> u32
        ensures { result ≡ self.now.epoch }
    {
        self.epoch
    }

    /// The members in that epoch.
    pub fn members(&self) -> NodeSet
        ensures { result ≡ self.now.members }
    {
        self.members
    }

    /// The nodes of the directory.
    pub fn directory(&self) -> NodeSet
        ensures { result ≡ self.now.directory }
    {
        self.dir.nodes()
    }

    /// How many member replicas a reader leaves behind when it goes; none: no reader leaves.
    pub fn degree(&self) -> Option<u8>
        ensures { result ≡ self.now.degree }
    {
        self.dir.degree()
    }

    /// Whether the node has stopped.
    pub fn is_stopped(&self) -> bool
        ensures { result ≡ self.now.stopped }
    {
        self.stopped
    }

    /// Whether every member has reported.
    pub fn is_open(&self) -> bool
        ensures { result ≡ is_open self.now }
    {
        self.barrier.is_open(self.members)
    }

    /// Whether this node has reported in the node's epoch.
    pub fn has_reported(&self, node: NodeId) -> bool
        ensures { result ≡ has node self.now.reported }
    {
        self.barrier.has(node)
    }

    /// How many nodes there are: 1 to 8.
    pub fn node_count(&self) -> u8
        ensures count { result ≡ length self.now.logs }
        ensures most { result ≤ 8 }
    {
        self.node_count
    }

    /// How many slots the node has: 1 to 8.
    pub fn slot_count(&self) -> u8
        ensures count { result ≡ length self.now.slots }
        ensures most { result ≤ 8 }
    {
        self.slot_count
    }

    /// What the node knows of the placement of each object, by object: of at most 256.
    pub fn entries(&self) -> &[Entry]
        ensures entries { result.now ≡ self.now.entries }
        ensures most { length self.now.entries ≤ 256 }
    {
        self.dir.entries()
    }

    /// What the node knows of the object's placement.
    pub fn entry(&self, obj: ObjId) -> &Entry
        requires { obj < length self.now.entries }
        ensures { result.now ≡ entry self.now obj }
    {
        self.dir.entry(obj)
    }

    /// Whether the node owns the object.
    pub fn owns(&self, obj: ObjId) -> bool
        requires { obj < length self.now.entries }
        ensures { result ≡ owns self.now obj }
    {
        self.dir.entry(obj).owns(self.me)
    }

    /// The node's copy of the object.
    pub fn copy(&self, obj: ObjId) -> Option<Copy>
        ensures { result ≡ copy self.now obj }
    {
        self.copies.copy(obj)
    }

    /// The slot that holds the object.
    pub fn holder(&self, obj: ObjId) -> Option<SlotId>
        ensures { result ≡ holder self.now obj }
    {
        self.copies.holder(obj)
    }

    /// The current transaction of the slot.
    pub fn current(&self, slot: SlotId) -> Option<&Current>
        requires { slot < length self.now.slots }
        ensures { option_copied result ≡ (slot_of self.now slot).current }
    {
        let slot = &self.slots[slot.place()];
        slot.current.as_ref()
    }

    /// Sends a letter of the node's epoch.
    pub fn send(&self, to: NodeId, body: Body, out: &mut Effect)
        ensures { Adds (letter self.now to body ∷ []) [] out.old out.new }
    {
        out.sent.push(Letter {
            from: self.me,
            to,
            epoch: self.epoch,
            body,
        });
    }

    /// Sends the same letter to each of the nodes, in node order.
    pub fn send_each(&self, receivers: NodeSet, body: &Body, out: &mut Effect)
        requires { length out.old.sent ≤ 64 }
        ensures { Adds (to_each self.now receivers body.now) [] out.old out.new }
    {
        for receiver in receivers {
            self.send(receiver, body.duplicate(), out);
        }
    }
}
