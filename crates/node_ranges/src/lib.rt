//! What a node keeps stays in the ranges of its configuration, and each letter that it sends fits them.
#![tactic(auto)]

ghost use Rattle.std.specs.Prelude.{List, true, ℕ, ◌≡◌, ◌<◌, ◌≤◌};
ghost use Rattle.zeus_base.specs.Limits.{KeepsLimits, limits_of};
ghost use Rattle.zeus_base.specs.declared.config.Config.{Config};
ghost use Rattle.zeus_base.specs.declared.config.Limits.{Limits};
ghost use Rattle.zeus_packet.specs.Fits.{fits, nodes_fit};
ghost use Rattle.zeus_packet.specs.declared.letter.Letter.{Letter};
ghost use Rattle.zeus_packet.specs.declared.place.View.{View};
ghost use Rattle.zeus_txn.specs.declared.ops.Op.{Op};
ghost use Rattle.zeus_model.specs.Local.{begin, try_slot};
ghost use Rattle.zeus_model.specs.Membership.{install, stop, tick};
ghost use Rattle.zeus_model.specs.Receive.{receive};
ghost use Rattle.zeus_model.specs.State.{Node};
ghost use Rattle.zeus_model.specs.World.{start_node};
ghost use Rattle.node_ranges.specs.Ranges.{FitsTx, KeepsAndFits, KeepsRanges};

/// A node keeps the ranges of its limits in all that it does, and each letter that it sends fits them.
pub fn ranges_are_kept()
    // A node starts within the ranges of its configuration.
    ensures start { (c : Config) (me : ℕ) → KeepsLimits c → me < c.nodes → KeepsRanges (limits_of c) (start_node c me) }

    // A transaction that fits is begun.
    ensures begin { (limits : Limits) (n : Node) (s id : ℕ) (tx : List Op) → s < limits.slots → FitsTx limits tx → KeepsRanges limits n
        → KeepsAndFits limits (begin n s id tx).node (begin n s id tx).sent }

    // A slot's current transaction is tried.
    ensures try_slot { (limits : Limits) (n : Node) (s : ℕ) → s < limits.slots → KeepsRanges limits n
        → KeepsAndFits limits (try_slot n s).node (try_slot n s).sent }

    // A letter that fits is received, whoever sent it.
    ensures receive { (limits : Limits) (n : Node) (letter : Letter) → fits letter limits ≡ true → KeepsRanges limits n
        → KeepsAndFits limits (receive n letter).node (receive n letter).sent }

    // The timer fires.
    ensures tick { (limits : Limits) (n : Node) → KeepsRanges limits n → KeepsAndFits limits (tick n).node (tick n).sent }

    // A view of nodes that there are is installed.
    ensures install { (limits : Limits) (n : Node) (v : View) → 1 ≤ v.epoch → nodes_fit limits v.members ≡ true → KeepsRanges limits n
        → KeepsAndFits limits (install n v).node (install n v).sent }

    // The node is stopped.
    ensures stop { (limits : Limits) (n : Node) → KeepsRanges limits n → KeepsAndFits limits (stop n).node (stop n).sent }
{}
