//! What a node knows of who owns and keeps each object.
ghost use Rattle.std.specs.Prelude.{◌≡◌, ◌<◌, ℕ, IfOk, length, map, not};
ghost use Rattle.zeus_base.specs.Order.{is_below};
ghost use Rattle.zeus_model.specs.Ownership.{holding, is_held, settle};
ghost use Rattle.zeus_model.specs.State.{Node, entry, no_entry};
ghost use Rattle.zeus_model.specs.Tables.{nth};
ghost use Rattle.zeus_model.specs.World.{start_entry};
ghost use Rattle.owner_entry.specs.Acceptance.{on_proposal, outcome_of};

use crate::entry::{Accept, OwnerEntry};
use std::alloc::{AllocError, Global};
use std::marker::Model;
use zeus_base::{Config, NoMemory, NodeId, NodeSet, ObjId, ObjectDecl, Stamp};
use zeus_model::Entry;
use zeus_packet::{Place, Proposal};

/// What a node knows of who owns and keeps each object: the nodes of the directory, the degree, and the entries by
/// object. Each clause on a change speaks of every node that has these entries, so of the one that they are from; what a
/// call does not name stays.
#[derive(Debug, Drop)]
pub struct Dir {
    nodes: NodeSet,
    degree: Option<u8>,
    entries: Vec<Entry>,
}

impl Model for Dir {
    ghost use Rattle.owner_entry.specs.Directory.{Directory};

    ghost Value = { Directory };

    ghost view = { λ d. record { nodes = d.nodes; degree = d.degree; entries = d.entries.items } };
}

impl Dir {
    /// What is known at the start of a run: the directory and the degree as they are configured, and each object placed
    /// as it is declared, at version 0, with no proposal held. All memory is taken here.
    ///
    /// # Errors
    ///
    /// `NoMemory` where that memory is not there.
    pub fn new(alloc: Global, config: &Config) -> Result<Dir, NoMemory>
        ensures { IfOk result (λ dir. dir
            ≡ record { nodes = config.now.directory; degree = config.now.degree; entries = map start_entry config.now.objects }) }
    {
        let entries = start_entries(alloc, config.objects.as_slice()).map_err(|_| NoMemory)?;
        Ok(Dir {
            nodes: config.directory,
            degree: config.degree,
            entries,
        })
    }

    /// The nodes of the directory: those that may drive a request for an object.
    pub fn nodes(&self) -> NodeSet
        ensures { result ≡ self.now.nodes }
    {
        self.nodes
    }

    /// The degree: how many member replicas a reader leaves behind when it goes; none: no reader leaves.
    pub fn degree(&self) -> Option<u8>
        ensures { result ≡ self.now.degree }
    {
        self.degree
    }

    /// How many objects there are.
    pub fn object_count(&self) -> usize
        ensures { result ≡ length self.now.entries }
    {
        self.entries.len()
    }

    /// What the node knows of the placement of each object, by object.
    pub fn entries(&self) -> &[Entry]
        ensures { result.now ≡ self.now.entries }
    {
        self.entries.as_slice()
    }

    /// What the node knows of the object's placement.
    pub fn entry(&self, obj: ObjId) -> &Entry
        requires { obj < length self.now.entries }
        ensures { result.now ≡ nth no_entry self.now.entries obj }
    {
        &self.entries[obj.place()]
    }

    /// Settles a stamp and its placement of the object where the stamp is above the settled one, and drops a held
    /// proposal that is not above it. Else nothing changes, and the answer is false.
    pub fn settle(&mut self, obj: ObjId, stamp: Stamp, place: Place) -> bool
        requires { obj < length self.old.entries }
        ensures above { result ≡ is_below (nth no_entry self.old.entries obj).stamp stamp }
        ensures after { (n : Node) → n.entries ≡ self.old.entries → self.new.entries ≡ (settle n obj stamp place).entries }
        ensures nodes { self.new.nodes ≡ self.old.nodes }
        ensures degree { self.new.degree ≡ self.old.degree }
        ensures objects { length self.new.entries ≡ length self.old.entries }
    {
        let entry = &mut self.entries[obj.place()];
        entry.settle(stamp, place)
    }

    /// Holds a proposal for the object, in place of a lesser one, where its stamp is above the settled one and no
    /// proposal with a greater stamp is held. Else nothing changes, and the answer has the stamp that stands against
    /// it, the settled one first.
    pub fn accept(&mut self, obj: ObjId, p: &Proposal) -> Accept
        requires { obj < length self.old.entries }
        ensures answer { (n : Node) (from : ℕ) → n.entries ≡ self.old.entries → outcome_of result ≡ (on_proposal n from obj p.now).answer }
        ensures after { (n : Node) (from : ℕ) → n.entries ≡ self.old.entries → self.new.entries ≡ (on_proposal n from obj p.now).node.entries }
        ensures nodes { self.new.nodes ≡ self.old.nodes }
        ensures degree { self.new.degree ≡ self.old.degree }
        ensures objects { length self.new.entries ≡ length self.old.entries }
    {
        let entry = &mut self.entries[obj.place()];
        entry.accept(p)
    }

    /// Holds a proposal for the object in place of any other, whatever their stamps. True exactly where this one was
    /// not held.
    pub fn hold(&mut self, obj: ObjId, p: &Proposal) -> bool
        requires { obj < length self.old.entries }
        ensures new { result ≡ not (is_held p.now (nth no_entry self.old.entries obj).proposal) }
        ensures after { (n : Node) → n.entries ≡ self.old.entries → self.new.entries ≡ (holding n obj p.now).entries }
        ensures nodes { self.new.nodes ≡ self.old.nodes }
        ensures degree { self.new.degree ≡ self.old.degree }
        ensures objects { length self.new.entries ≡ length self.old.entries }
    {
        let entry = &mut self.entries[obj.place()];
        entry.hold(p)
    }
}

// The entry of each object at the start of a run.
fn start_entries(alloc: Global, objects: &[ObjectDecl]) -> Result<Vec<Entry>, AllocError>
    ensures { IfOk result (λ v. v.items ≡ map start_entry objects.now) }
{
    objects
        .iter()
        .map(|object| start_entry(object))
        .collect(alloc)
}

#[tactic(auto, unfolding(zeus_model::specs::World::start_entry))]
fn start_entry(object: &ObjectDecl) -> Entry
    ensures { result ≡ start_entry object.now }
{
    Entry {
        stamp: Stamp {
            ver: 0,
            driver: NodeId(0),
        },
        place: Place {
            owner: object.owner,
            replicas: object.replicas,
        },
        proposal: None,
    }
}
