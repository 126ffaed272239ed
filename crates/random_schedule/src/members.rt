//! Views, installs and stops.
ghost use Rattle.std.specs.Prelude.{◌≡◌, ◌<◌, IfSome, IsTrue, length};
ghost use Rattle.zeus_model.specs.Scripts.{FitsStep};
ghost use Rattle.zeus_model.specs.World.{last_view};
ghost use Rattle.reached_worlds.specs.Ranged.{IsRanged};
ghost use Rattle.random_schedule.specs.Schedule.{least_behind, may_stop, member_step, stop_step, stops_after};

use crate::nodes::{live_nodes, running, tick_of};
use crate::places::chosen_node;
use zeus_base::{NodeId, NodeSet, Step};
use zeus_world::World;

/// The last view's members.
#[tactic(auto, using(crate::proofs::LastView::last_is))]
fn last_view(world: &World) -> NodeSet
    ensures last { result ≡ last_view world.now.views }
    ensures some { 0 < length world.now.views }
{
    let views = world.views();
    match views.get(views.count()) {
        None => NodeSet::empty(),
        Some(view) => view.members,
    }
}

/// The least node that runs in an older epoch than the last view's, if there is one.
#[tactic(auto, using(crate::proofs::LastView::live_below, crate::proofs::LastView::first_below, crate::proofs::LastView::rest_below, crate::proofs::LastView::is_behind, crate::proofs::LastView::not_behind, crate::proofs::LastView::none_behind))]
fn least_behind(world: &World) -> Option<NodeId>
    requires { IsRanged world.now }
    ensures least { result ≡ least_behind world.now }
    ensures there { IfSome result (λ at. at < world.now.config.nodes) }
{
    let epoch = world.views().count();
    for at in live_nodes(world) {
        if world.node(at).epoch() < epoch {
            return Some(at);
        }
    }
    None
}

/// Whether a node is to stop after so many stops.
#[tactic(auto, unfolding(crate::specs::Schedule::may_stop))]
fn may_stop(world: &World, most: u8, stops: u8, u: u32) -> bool
    requires { IsRanged world.now }
    ensures may { result ≡ may_stop most world.now stops u }
    ensures fewer { IsTrue result → stops < most }
{
    stops < most && 1 < live_nodes(world).count() && u % 8 == 0
}

/// A stop of the chosen node that runs, or a tick if none is to stop; a stop is counted.
#[tactic(auto, unfolding(zeus_model::specs::Scripts::FitsStep, crate::specs::Schedule::stop_at, crate::specs::Schedule::stops_after), using(crate::proofs::Running::chosen_live, crate::proofs::LastView::tick_counts))]
fn stop_step(world: &World, most: u8, stops: &mut u8, u: u32) -> Step
    requires { IsRanged world.now }
    ensures step { result ≡ stop_step most world.now stops.old u }
    ensures stops { stops.new ≡ stops_after result stops.old }
    ensures fits { FitsStep world.now.config (length world.now.txs) result }
{
    if !may_stop(world, most, *stops, u) {
        return tick_of(world, u);
    }
    match chosen_node(u / 8, live_nodes(world)) {
        None => tick_of(world, u),
        Some(at) => {
            *stops += 1;
            Step::Stop(at)
        }
    }
}

/// The view of the members that run, if one has stopped; or an install of the last view; or a stop, which is counted.
#[tactic(auto, unfolding(zeus_model::specs::Scripts::FitsStep, crate::specs::Schedule::member_step, crate::specs::Schedule::install_at, crate::specs::Schedule::stops_after), using(crate::proofs::LastView::left_fits))]
pub(crate) fn member_step(world: &World, most: u8, stops: &mut u8, u: u32) -> Step
    requires { IsRanged world.now }
    ensures step { result ≡ member_step most world.now stops.old u }
    ensures stops { stops.new ≡ stops_after result stops.old }
    ensures fits { FitsStep world.now.config (length world.now.txs) result }
{
    let last = last_view(world);
    let left = running(world, last);
    if left.count() < last.count() {
        return Step::View(left);
    }
    match least_behind(world) {
        None => stop_step(world, most, stops, u),
        Some(at) => Step::Install(at, world.views().count()),
    }
}
