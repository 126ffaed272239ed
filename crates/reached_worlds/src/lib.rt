//! What every world keeps that steps of a run lead to: its sizes, the ranges of its nodes and letters, who has sent them,
//! and what the book has of a slot's transactions.
#![tactic(auto)]

ghost use Rattle.zeus_model.specs.World.{World};
ghost use Rattle.reached_worlds.specs.Ranged.{IsRanged};
ghost use Rattle.reached_worlds.specs.Reached.{IsReached};

/// A world that steps of a run within the limits lead to is in the ranges of its configuration: it has as many nodes,
/// links and records as it should, each node keeps its ranges, and each letter that was ever sent fits.
pub fn every_reached_world_is_ranged()
    ensures { (w : World) → IsReached w → IsRanged w }
{}
