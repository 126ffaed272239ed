//! The delivery of a packet.
ghost use Rattle.std.specs.Prelude.{◌≡◌, ◌+◌, ◌<◌, ◌^◌, ℕ, All, IfOk, IfSome, IsTrue, filter, length, map};
ghost use Rattle.zeus_base.specs.declared.config.Config.{Config};
ghost use Rattle.zeus_model.specs.Scripts.{FitsStep};
ghost use Rattle.reached_worlds.specs.Ranged.{IsRanged};
ghost use Rattle.random_schedule.specs.Choices.{can_arrive, can_repeat, count_sent};
ghost use Rattle.random_schedule.specs.Ready.{AreLinks, HasNext, IsLink};
ghost use Rattle.random_schedule.specs.Schedule.{arrival, arrival_at, behind, fresh_after, fresh_step, repeat_at, repeat_step, used_at};

use crate::fresh::FreshPacket;
use crate::lists::push_if;
use crate::nodes::tick_of;
use crate::places::chosen;
use std::alloc::Global;
use zeus_base::{NoMemory, Step};
use zeus_world::World;

/// How many packets were sent on the link.
#[tactic(auto, using(zeus_world::proofs::Settling::link_there))]
fn count_sent(world: &World, link: &FreshPacket) -> u32
    requires world { IsRanged world.now }
    requires link { IsLink world.now.config link.now }
    ensures { result ≡ count_sent world.now link.now }
{
    world.links().count(link.from, link.to)
}

/// Whether the link's next fresh packet can arrive.
#[tactic(auto, unfolding(crate::specs::Choices::can_arrive))]
fn can_arrive(world: &World, link: &FreshPacket) -> bool
    requires world { IsRanged world.now }
    requires link { IsLink world.now.config link.now }
    ensures value { result ≡ can_arrive world.now link.now }
    ensures next { IsTrue result → HasNext link.now }
{
    world.is_live(link.to) && link.number < count_sent(world, link)
}

/// Whether a packet of the link can arrive, fresh or not.
#[tactic(auto, unfolding(crate::specs::Choices::can_repeat))]
fn can_repeat(world: &World, link: &FreshPacket) -> bool
    requires world { IsRanged world.now }
    requires link { IsLink world.now.config link.now }
    ensures { result ≡ can_repeat world.now link.now }
{
    world.is_live(link.to) && 0 < count_sent(world, link)
}

/// The links whose next fresh packet can arrive.
#[tactic(auto, using(crate::proofs::Making::passes_done, crate::proofs::Elements::all_at))]
fn arriving(
    alloc: Global,
    world: &World,
    links: &[FreshPacket],
) -> Result<Vec<FreshPacket>, NoMemory>
    requires world { IsRanged world.now }
    requires links { AreLinks world.now.config links.now }
    ensures passing { IfOk result (λ v. v.items ≡ filter (can_arrive world.now) links.now) }
    ensures next { IfOk result (λ v. All HasNext v.items) }
{
    let mut arriving = Vec::with_capacity(alloc, links.len()).map_err(|_| NoMemory)?;
    for link in links {
        push_if(&mut arriving, can_arrive(world, link), *link)?;
    }
    Ok(arriving)
}

/// The links of which a packet can arrive.
#[tactic(auto, using(crate::proofs::Making::passes_more, crate::proofs::Making::passes_done, crate::proofs::Elements::all_at))]
fn repeating(
    alloc: Global,
    world: &World,
    links: &[FreshPacket],
) -> Result<Vec<FreshPacket>, NoMemory>
    requires world { IsRanged world.now }
    requires links { AreLinks world.now.config links.now }
    ensures { IfOk result (λ v. v.items ≡ filter (can_repeat world.now) links.now) }
{
    let mut repeating = Vec::with_capacity(alloc, links.len()).map_err(|_| NoMemory)?;
    for link in links {
        push_if(&mut repeating, can_repeat(world, link), *link)?;
    }
    Ok(repeating)
}

/// If the packet is of the link, the one behind it is the link's next.
#[tactic(auto, unfolding(crate::specs::Schedule::behind, crate::specs::Schedule::same_link))]
fn move_behind(packet: &FreshPacket, link: &mut FreshPacket)
    requires { packet.now.number + 1 < 2 ^ 32 }
    ensures { link.new ≡ behind packet.now link.old }
{
    if link.from == packet.from && link.to == packet.to {
        *link = FreshPacket {
            from: packet.from,
            to: packet.to,
            number: packet.number + 1,
        };
    }
}

/// The packet is fresh no more: the one behind it is its link's next.
fn use_packet(packet: &FreshPacket, links: &mut [FreshPacket])
    requires { packet.now.number + 1 < 2 ^ 32 }
    ensures { links.new ≡ map (behind packet.now) links.old }
{
    for link in links {
        move_behind(packet, link);
    }
}

/// The arrival of the packet, or a tick of its receiver if it is lost.
#[tactic(auto, unfolding(zeus_model::specs::Scripts::FitsStep))]
fn arrival(loss: u8, u: u32, packet: FreshPacket) -> Step
    ensures step { result ≡ arrival loss u packet }
    ensures fits { (c : Config) (txs : ℕ) → IsLink c packet → FitsStep c txs result }
{
    if u / 64 % 100 < u32::from(loss) {
        Step::Tick(packet.to)
    } else {
        Step::Deliver(packet.from, packet.to, packet.number)
    }
}

/// The arrival or the loss of the packet, or a tick if there is none.
#[tactic(auto, unfolding(zeus_model::specs::Scripts::FitsStep, crate::specs::Schedule::arrival_at))]
fn arrival_at(world: &World, loss: u8, u: u32, packet: &Option<FreshPacket>) -> Step
    requires world { IsRanged world.now }
    requires packet { IfSome packet.now (IsLink world.now.config) }
    ensures step { result ≡ arrival_at loss world.now u packet.now }
    ensures fits { FitsStep world.now.config (length world.now.txs) result }
{
    match packet {
        None => tick_of(world, u),
        Some(packet) => arrival(loss, u, *packet),
    }
}

/// The packet, if there is one, is fresh no more.
#[tactic(auto, unfolding(crate::specs::Schedule::used_at))]
fn use_found(links: &mut [FreshPacket], packet: &Option<FreshPacket>)
    requires { IfSome packet.now HasNext }
    ensures { links.new ≡ used_at links.old packet.now }
{
    if let Some(packet) = packet {
        use_packet(packet, links);
    }
}

/// The arrival or the loss of the chosen link's next fresh packet, or a tick if there is none.
///
/// # Errors
/// `NoMemory` if the memory for the list is not there.
pub(crate) fn fresh_step(
    alloc: Global,
    world: &World,
    links: &mut [FreshPacket],
    loss: u8,
    u: u32,
) -> Result<Step, NoMemory>
    requires world { IsRanged world.now }
    requires links { AreLinks world.now.config links.old }
    ensures step { IfOk result (λ step. step ≡ fresh_step loss world.now links.old u) }
    ensures fresh { IfOk result (λ _. links.new ≡ fresh_after world.now links.old u) }
    ensures fits { IfOk result (FitsStep world.now.config (length world.now.txs)) }
    ensures links { AreLinks world.now.config links.new }
{
    let arriving = arriving(alloc, world, links)?;
    let packet = chosen(u, arriving.as_slice());
    use_found(links, &packet);
    Ok(arrival_at(world, loss, u, &packet))
}

/// The delivery of a packet of the link, fresh or not, or a tick if there is none.
#[tactic(auto, unfolding(zeus_model::specs::Scripts::FitsStep, crate::specs::Schedule::repeat_at))]
fn repeat_at(world: &World, u: u32, link: &Option<FreshPacket>) -> Step
    requires world { IsRanged world.now }
    requires link { IfSome link.now (IsLink world.now.config) }
    requires sent { IfSome link.now (λ p. 0 < count_sent world.now p) }
    ensures step { result ≡ repeat_at world.now u link.now }
    ensures fits { FitsStep world.now.config (length world.now.txs) result }
{
    match link {
        None => tick_of(world, u),
        Some(link) => {
            let count = count_sent(world, link);
            Step::Deliver(link.from, link.to, u / 64 % count)
        }
    }
}

/// The delivery of a packet of the chosen link, fresh or not, or a tick if there is none.
///
/// # Errors
/// `NoMemory` if the memory for the list is not there.
pub(crate) fn repeat_step(
    alloc: Global,
    world: &World,
    links: &[FreshPacket],
    u: u32,
) -> Result<Step, NoMemory>
    requires world { IsRanged world.now }
    requires links { AreLinks world.now.config links.now }
    ensures step { IfOk result (λ step. step ≡ repeat_step world.now links.now u) }
    ensures fits { IfOk result (FitsStep world.now.config (length world.now.txs)) }
{
    let repeating = repeating(alloc, world, links)?;
    let link = chosen(u, repeating.as_slice());
    Ok(repeat_at(world, u, &link))
}
