//! Who has reported in an epoch.
ghost use Rattle.std.specs.Prelude.{◌≡◌, [], not, if◌then◌else◌};
ghost use Rattle.zeus_base.specs.Nodes.{has, is_subset};
ghost use Rattle.zeus_model.specs.Receive.{on_recovered};
ghost use Rattle.zeus_model.specs.State.{Node, is_open};
ghost use Rattle.zeus_model.specs.declared.answer.Outcome.TheVariants.{Taken, Again};

use std::marker::Model;
use zeus_base::{NodeId, NodeSet};

/// The nodes that have reported in an epoch, seen as the rising list of them. It is open where every member has. No
/// call takes memory.
#[derive(Clone, Copy, Debug)]
pub struct Barrier {
    reported: NodeSet,
}

impl Model for Barrier {
    ghost use Rattle.std.specs.Prelude.{List, ℕ};

    ghost Value = { List ℕ };

    ghost view = { λ b. b.reported };

    ghost inverse = { λ nodes. record { reported = nodes } };
}

impl Barrier {
    /// A barrier at which just these have reported.
    pub fn new(members: NodeSet) -> Barrier
        ensures { result ≡ members }
    {
        Barrier { reported: members }
    }

    /// A later epoch begins: nobody has reported in it.
    pub fn reset(&mut self)
        ensures { self.new ≡ [] }
    {
        self.reported = NodeSet::empty();
    }

    /// Notes that the node has reported, as every node does that has these reports. True exactly where it had not.
    pub fn report(&mut self, n: NodeId) -> bool
        ensures new { result ≡ not (has n self.old) }
        ensures answer { (m : Node) → m.reported ≡ self.old → (on_recovered m n).answer ≡ (if result then Taken else Again) }
        ensures after { (m : Node) → m.reported ≡ self.old → self.new ≡ (on_recovered m n).node.reported }
    {
        if self.reported.has(n) {
            return false;
        }
        self.reported = self.reported.insert(n);
        true
    }

    /// Whether the node has reported.
    pub fn has(&self, n: NodeId) -> bool
        ensures { result ≡ has n self.now }
    {
        self.reported.has(n)
    }

    /// Whether each of the members has reported, so whether every node with these members and these reports is open.
    pub fn is_open(&self, members: NodeSet) -> bool
        ensures subset { result ≡ is_subset members self.now }
        ensures open { (n : Node) → n.members ≡ members → n.reported ≡ self.now → result ≡ is_open n }
    {
        members.is_subset(self.reported)
    }
}
