//! Sets of nodes.
ghost use Rattle.std.specs.Prelude.{◌≡◌, ◌≤◌, ◌↔◌, IsTrue, [], length};
ghost use Rattle.std.specs.Iterator.{YieldsFirst, item_count};
ghost use Rattle.zeus_base.specs.NodeLaws.{IsNodeSet};
ghost use Rattle.zeus_base.specs.Nodes.{has, with_node, without, meet, join, is_subset, least};
ghost use Rattle.zeus_base.specs.Tables.{below};

use crate::numbers::NodeId;
use std::marker::Model;

/// A set of nodes, seen as the rising list of their numbers.
#[derive(Clone, Copy, Debug, Eq)]
pub struct NodeSet {
    pub bits: u8,
}

impl Model for NodeSet {
    ghost use Rattle.std.specs.Prelude.{List, ℕ, ◌<◌, ◌^◌};
    ghost use Rattle.zeus_base.specs.Bits.{nodes_of, set_of, set_of-nodes_of};

    ghost Value = { List ℕ };

    ghost view = { λ s. nodes_of s.bits };

    ghost invariant = { λ s. s.bits < 2 ^ 8 };

    ghost inverse = { set_of };

    ghost inverse_ok = { set_of-nodes_of };
}

impl PartialEq for NodeSet {
    ghost use Rattle.std.specs.Cmp.{partial_equiv_from_equiv};
    ghost use Rattle.std.proofs.lemmas.Cmp.{nat_list_eq_equiv};
    ghost use Rattle.zeus_base.specs.Nodes.{same_nodes};

    ghost eq = { same_nodes };

    ghost laws = { partial_equiv_from_equiv nat_list_eq_equiv };

    fn eq(&self, other: &NodeSet) -> bool {
        self.bits == other.bits
    }
}

impl NodeSet {
    /// The set with no node.
    pub fn empty() -> NodeSet
        ensures { result ≡ [] }
    {
        NodeSet { bits: 0 }
    }

    /// The set of all nodes below this number.
    pub fn below(count: u8) -> NodeSet
        requires { count ≤ 8 }
        ensures { result ≡ below count }
    {
        let mut nodes = NodeSet::empty();
        for node in 0..count {
            nodes = nodes.insert(NodeId(node));
        }
        nodes
    }

    /// Whether no node is in the set.
    pub fn is_empty(self) -> bool
        ensures { IsTrue result ↔ (self ≡ []) }
    {
        self.bits == 0
    }

    /// How many nodes are in the set.
    pub fn count(self) -> u8
        ensures nodes { result ≡ length self }
        ensures set { IsNodeSet self }
    {
        self.bits.count_ones() as u8
    }

    /// Whether the node is in the set.
    pub fn has(self, node: NodeId) -> bool
        ensures { result ≡ has node self }
    {
        self.bits >> node.0 & 1 == 1
    }

    /// The set with the node.
    pub fn insert(self, node: NodeId) -> NodeSet
        ensures { result ≡ with_node node self }
    {
        NodeSet {
            bits: self.bits | 1 << node.0,
        }
    }

    /// The set without the node.
    pub fn without(self, node: NodeId) -> NodeSet
        ensures { result ≡ without node self }
    {
        NodeSet {
            bits: self.bits & !(1 << node.0),
        }
    }

    /// The nodes that are in both sets.
    pub fn meet(self, other: NodeSet) -> NodeSet
        ensures { result ≡ meet self other }
    {
        NodeSet {
            bits: self.bits & other.bits,
        }
    }

    /// The nodes that are in one of the sets.
    pub fn join(self, other: NodeSet) -> NodeSet
        ensures { result ≡ join self other }
    {
        NodeSet {
            bits: self.bits | other.bits,
        }
    }

    /// Whether each node of this set is in the other.
    pub fn is_subset(self, other: NodeSet) -> bool
        ensures { result ≡ is_subset self other }
    {
        self.bits & other.bits == self.bits
    }

    /// The nodes of the set in order, from the least on.
    pub fn nodes(self) -> Nodes
        ensures { result ≡ self }
    {
        Nodes { left: self }
    }

    /// The node with the least number, where there is one.
    pub fn least(self) -> Option<NodeId>
        ensures first { result ≡ least self }
        ensures set { IsNodeSet self }
    {
        if self.bits == 0 {
            None
        } else {
            Some(NodeId(self.bits.trailing_zeros() as u8))
        }
    }
}

/// The nodes of a set in order, from the least on, seen as the list of those that are left.
///
/// A loop `for node in set` needs no measure, and in its invariant `l.node-iterator` is the list of the nodes that are
/// left: where the loop pushes each node, the invariant `l.all.items ++ l.node-iterator ≡ l.fn.set` proves with no
/// answer. A chain such as `set.nodes().collect(alloc)` proves with no file.
#[derive(Debug, Drop)]
pub struct Nodes {
    left: NodeSet,
}

impl Model for Nodes {
    ghost use Rattle.std.specs.Prelude.{List, ℕ};

    ghost Value = { List ℕ };

    ghost view = { λ s. s.left };
}

impl Iterator for Nodes {
    type Item = NodeId;

    ghost next_gives = { YieldsFirst (λ s. s) };

    ghost remaining = { item_count (λ s. s) };

    fn next(&mut self) -> Option<NodeId> {
        let node = self.left.least()?;
        self.left = self.left.without(node);
        Some(node)
    }
}

impl IntoIterator for NodeSet {
    type Item = NodeId;

    type IntoIter = Nodes;

    ghost into_iter_gives = { λ set nodes. nodes ≡ set };

    fn into_iter(self) -> Nodes {
        Nodes { left: self }
    }
}
