//! How a world stands.
ghost use Rattle.std.specs.Prelude.{◌≡◌, ◌<◌, length};
ghost use Rattle.zeus_model.specs.Readers.{is_closed, is_ended, is_live, is_lost, owner, tx_state, waits_in_vain};
ghost use Rattle.zeus_model.specs.Sound.{latest_entry, latest_place};
ghost use Rattle.zeus_model.specs.State.{copy, owns};
ghost use Rattle.lossy_fabric.specs.Links.{letters};
ghost use Rattle.zeus_model.specs.World.{node as node_of, tx_decl};

use crate::world::World;
use history_book::Book;
use lossy_fabric::Links;
use membership::Service;
use zeus_base::{Config, NodeId, ObjId, TxId};
use zeus_model::{Copy, Entry, TxState};
use zeus_node::Node;
use zeus_packet::Place;
use zeus_txn::TxList;

impl<'a> World<'a> {
    /// Whether a node runs.
    pub fn is_live(&self, at: NodeId) -> bool
        ensures { result ≡ is_live self.now at }
    {
        match self.nodes.get(at.place()) {
            None => false,
            Some(node) => !node.is_stopped(),
        }
    }

    /// A node's copy of an object.
    pub fn copy(&self, at: NodeId, obj: ObjId) -> Option<Copy>
        ensures { result ≡ copy (node_of self.now at) obj }
    {
        match self.nodes.get(at.place()) {
            None => None,
            Some(node) => node.copy(obj),
        }
    }

    /// Whether a node owns an object.
    fn owns(&self, at: NodeId, obj: ObjId) -> bool
        requires { at < length self.now.nodes }
        ensures { result ≡ owns (node_of self.now at) obj }
    {
        self.nodes[at.place()].owns(obj)
    }

    /// The live node that owns an object: the first of them, and by the protocol the only one.
    pub fn owner(&self, obj: ObjId) -> Option<NodeId>
        ensures { result ≡ owner self.now obj }
    {
        for number in 0..self.config.nodes {
            let at = NodeId(number);
            if self.is_live(at) && self.owns(at, obj) {
                return Some(at);
            }
        }
        None
    }

    /// The entry of an object with the greatest settled stamp over all nodes, stopped ones too.
    fn latest_entry(&self, obj: ObjId) -> Entry
        ensures { result ≡ latest_entry self.now obj }
    {
        let mut latest = self.nodes[0].known_entry(obj);
        for node in &self.nodes {
            let entry = node.known_entry(obj);
            if latest.stamp.is_below(entry.stamp) {
                latest = entry;
            }
        }
        latest
    }

    /// The latest placement of an object.
    pub fn latest_place(&self, obj: ObjId) -> Place
        ensures { result ≡ latest_place self.now obj }
    {
        self.latest_entry(obj).place
    }

    /// Whether no live node is in the object's latest placement.
    pub fn is_lost(&self, obj: ObjId) -> bool
        ensures { result ≡ is_lost self.now obj }
    {
        for replica in self.latest_place(obj).replicas {
            if self.is_live(replica) {
                return false;
            }
        }
        true
    }

    /// How far a transaction has come.
    pub fn tx_state(&self, id: TxId) -> TxState
        ensures { result ≡ tx_state self.now id }
    {
        self.book.state(id)
    }

    /// Whether a transaction was refused, or its node has stopped.
    fn is_ended(&self, id: TxId) -> bool
        requires { id < length self.now.txs }
        ensures { result ≡ is_ended self.now id }
    {
        self.book.is_refused(id) || !self.is_live(self.declared(id).node)
    }

    /// Whether a transaction waits in vain: the one that it waits for is not acknowledged, and has ended or waits in vain
    /// itself.
    fn waits_in_vain(&self, id: TxId) -> bool
        requires { id < length self.now.txs }
        ensures { result ≡ waits_in_vain self.now id (tx_decl self.now id).after }
    {
        let mut after = self.declared(id).after;
        for _turn in 0..id.0 {
            let Some(other) = after else {
                return false;
            };
            if self.book.is_acked(other) {
                return false;
            }
            if self.is_ended(other) {
                return true;
            }
            after = self.declared(other).after;
        }
        false
    }

    /// Whether a transaction is closed: acknowledged, or refused, or its node has stopped, or it waits in vain.
    #[tactic(auto, unfolding(zeus_model::specs::Readers::is_closed))]
    pub fn is_closed(&self, id: TxId) -> bool
        requires { id < length self.now.txs }
        ensures { result ≡ is_closed self.now id }
    {
        self.book.is_acked(id) || self.is_ended(id) || self.waits_in_vain(id)
    }

    /// The configuration of the run.
    pub fn config(&self) -> &Config
        ensures { result.now ≡ self.now.config }
    {
        self.config
    }

    /// The transactions of the run.
    pub fn txs(&self) -> &TxList
        ensures { result.now ≡ self.now.txs }
    {
        self.txs
    }

    /// A node of the run.
    pub fn node(&self, at: NodeId) -> &Node
        requires { at < self.now.config.nodes }
        ensures { result.now ≡ node_of self.now at }
    {
        &self.nodes[at.place()]
    }

    /// The links, with every letter that was ever sent.
    pub fn links(&self) -> &Links
        ensures { letters result.now ≡ self.now.links }
    {
        &self.links
    }

    /// The views by epoch.
    pub fn views(&self) -> &Service
        ensures { result.now ≡ self.now.views }
    {
        &self.views
    }

    /// The book, with the history.
    pub fn book(&self) -> &Book
        ensures { result.now.book ≡ self.now.book }
    {
        &self.book
    }
}
