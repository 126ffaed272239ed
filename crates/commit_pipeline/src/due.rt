//! The sends of pending entries that are due.
ghost use Rattle.std.specs.Prelude.{◌≡◌, ◌+◌, ◌≤◌, [], ◌++◌, IfOk, length, slice_get};
ghost use Rattle.std.specs.List.{filter};
ghost use Rattle.zeus_model.specs.Membership.{apart};
ghost use Rattle.commit_pipeline.specs.Pipes.{is_of_other, is_other, is_to, sends};

use std::alloc::Global;
use std::marker::Model;
use zeus_base::{NoMemory, NodeId, NodeSet};

/// How many sends are due at most: those of 16 entries to 8 nodes each.
const ROOM: usize = 128;

/// An entry that a follower has not acknowledged.
#[derive(Clone, Copy, Debug, PartialEq, Eq)]
pub struct Due {
    /// The entry's number.
    pub number: u32,
    /// The follower.
    pub to: NodeId,
}

/// The sends that are due, seen as the list of them. No call but `new` takes memory.
#[derive(Debug, Drop)]
pub(crate) struct DueList {
    sends: Vec<Due>,
}

impl Model for DueList {
    ghost use Rattle.std.specs.Prelude.{List, ◌≤◌, vec_capacity};
    ghost use Rattle.commit_pipeline.specs.declared.due.Due.{Due};

    ghost Value = { List Due };

    ghost view = { λ d. d.sends.items };

    ghost invariant = { λ d. 128 ≤ vec_capacity d.sends };
}

impl DueList {
    /// No send is due.
    pub(crate) fn new(alloc: Global) -> Result<DueList, NoMemory>
        ensures { IfOk result (λ due. due ≡ []) }
    {
        let sends = Vec::with_capacity(alloc, ROOM).map_err(|_| NoMemory)?;
        Ok(DueList { sends })
    }

    /// The entry of this number is due at each follower that has not acknowledged it, in node order.
    pub(crate) fn add(&mut self, number: u32, followers: NodeSet, acks: NodeSet)
        requires { length self.old ≤ 120 }
        ensures added { self.new ≡ self.old ++ sends number (apart followers acks) }
        ensures few { length followers ≤ 8 }
    {
        for node in followers {
            if !acks.has(node) {
                self.sends.push_reserved(Due { number, to: node });
            }
        }
    }

    /// The entry of this number is due at this node no more.
    pub(crate) fn acknowledge(&mut self, number: u32, from: NodeId)
        ensures { self.new ≡ filter (is_other number from) self.old }
    {
        self.sends
            .retain(|due| due.number != number || due.to != from);
    }

    /// The entry of this number is due at no node.
    pub(crate) fn pass(&mut self, number: u32)
        ensures { self.new ≡ filter (is_of_other number) self.old }
    {
        self.sends.retain(|due| due.number != number);
    }

    /// The sends that are due.
    pub(crate) fn as_slice(&self) -> &[Due]
        ensures { result.now ≡ self.now }
    {
        self.sends.as_slice()
    }

    /// The send at this place from 0 among those to the members; none exactly past their end.
    pub(crate) fn get(&self, members: NodeSet, place: u32) -> Option<Due>
        ensures { result ≡ slice_get (filter (is_to members) self.now) place }
    {
        self.sends
            .iter()
            .filter(|due| members.has(due.to))
            .nth(place as usize)
            .copied()
    }
}
