//! The nodes that run.
ghost use Rattle.std.specs.Prelude.{◌≡◌, if◌then◌else◌, length};
ghost use Rattle.zeus_base.specs.Nodes.{without};
ghost use Rattle.zeus_model.specs.Readers.{is_live, live_among};
ghost use Rattle.zeus_model.specs.Scripts.{FitsStep};
ghost use Rattle.reached_worlds.specs.Ranged.{IsRanged};
ghost use Rattle.random_schedule.specs.Choices.{live_nodes};
ghost use Rattle.random_schedule.specs.Schedule.{tick_of};

use crate::places::chosen_node;
use zeus_base::{NodeId, NodeSet, Step};
use zeus_world::World;

/// The set without the node, if it does not run.
fn if_running(world: &World, nodes: NodeSet, node: NodeId) -> NodeSet
    ensures { result ≡ (if is_live world.now node then nodes else without node nodes) }
{
    if world.is_live(node) {
        nodes
    } else {
        nodes.without(node)
    }
}

/// The nodes of the set that run.
pub(crate) fn running(world: &World, nodes: NodeSet) -> NodeSet
    ensures { result ≡ live_among world.now nodes }
{
    let mut running = nodes;
    for node in nodes {
        running = if_running(world, running, node);
    }
    running
}

/// The nodes that run.
pub(crate) fn live_nodes(world: &World) -> NodeSet
    requires { IsRanged world.now }
    ensures { result ≡ live_nodes world.now }
{
    running(world, NodeSet::below(world.config().nodes))
}

/// A tick of the chosen node that runs.
#[tactic(auto, unfolding(zeus_model::specs::Scripts::FitsStep, crate::specs::Schedule::tick_or_first), using(crate::proofs::Running::chosen_live))]
pub(crate) fn tick_of(world: &World, u: u32) -> Step
    requires { IsRanged world.now }
    ensures step { result ≡ tick_of world.now u }
    ensures fits { FitsStep world.now.config (length world.now.txs) result }
{
    match chosen_node(u, live_nodes(world)) {
        None => Step::Tick(NodeId(0)),
        Some(node) => Step::Tick(node),
    }
}
