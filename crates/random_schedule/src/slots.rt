//! What a slot can do.
ghost use Rattle.std.specs.Prelude.{◌≡◌, ◌<◌, IfOk, IfSome, filter, length};
ghost use Rattle.zeus_model.specs.Scripts.{FitsStep};
ghost use Rattle.reached_worlds.specs.Ranged.{IsRanged};
ghost use Rattle.random_schedule.specs.Choices.{can_try, has_current, streams};
ghost use Rattle.random_schedule.specs.Ready.{AreSlots, IsSlot};
ghost use Rattle.random_schedule.specs.Schedule.{try_at, try_step};

use crate::lists::push_if;
use crate::nodes::tick_of;
use crate::places::chosen;
use std::alloc::Global;
use zeus_base::{NoMemory, Step, Stream};
use zeus_world::World;

/// Whether the slot has a current transaction.
#[tactic(auto, unfolding(crate::specs::Choices::has_current), using(crate::proofs::Links::has_slots, crate::proofs::Links::current_is))]
pub(crate) fn has_current(world: &World, slot: Stream) -> bool
    requires world { IsRanged world.now }
    requires slot { IsSlot world.now.config slot }
    ensures { result ≡ has_current world.now slot }
{
    let node = world.node(slot.node);
    node.current(slot.slot).is_some()
}

/// Whether the slot can try a transaction.
#[tactic(auto, unfolding(crate::specs::Choices::can_try))]
fn can_try(world: &World, slot: Stream) -> bool
    requires world { IsRanged world.now }
    requires slot { IsSlot world.now.config slot }
    ensures { result ≡ can_try world.now slot }
{
    let at = &slot;
    world.is_live(at.node) && has_current(world, *at)
}

/// The slots that can try a transaction.
#[tactic(auto, using(crate::proofs::Making::passes_more, crate::proofs::Making::passes_done, crate::proofs::Elements::all_at))]
fn trying(alloc: Global, world: &World, slots: &[Stream]) -> Result<Vec<Stream>, NoMemory>
    requires world { IsRanged world.now }
    requires slots { AreSlots world.now.config slots.now }
    ensures { IfOk result (λ v. v.items ≡ filter (can_try world.now) slots.now) }
{
    let mut trying = Vec::with_capacity(alloc, slots.len()).map_err(|_| NoMemory)?;
    for slot in slots {
        push_if(&mut trying, can_try(world, *slot), *slot)?;
    }
    Ok(trying)
}

/// The try of the slot, or a tick if there is none.
#[tactic(auto, unfolding(zeus_model::specs::Scripts::FitsStep, crate::specs::Schedule::try_at))]
fn try_at(world: &World, u: u32, slot: Option<Stream>) -> Step
    requires world { IsRanged world.now }
    requires slot { IfSome slot (IsSlot world.now.config) }
    ensures step { result ≡ try_at world.now u slot }
    ensures fits { FitsStep world.now.config (length world.now.txs) result }
{
    match slot {
        None => tick_of(world, u),
        Some(slot) => Step::Try(slot.node, slot.slot),
    }
}

/// The try of the chosen slot that can try a transaction, or a tick if there is none.
///
/// # Errors
/// `NoMemory` if the memory for the list is not there.
#[tactic(auto, using(crate::proofs::Elements::streams_slots))]
pub(crate) fn try_step(
    alloc: Global,
    world: &World,
    slots: &[Stream],
    u: u32,
) -> Result<Step, NoMemory>
    requires world { IsRanged world.now }
    requires slots { slots.now ≡ streams world.now.config }
    ensures step { IfOk result (λ step. step ≡ try_step world.now u) }
    ensures fits { IfOk result (FitsStep world.now.config (length world.now.txs)) }
{
    let trying = trying(alloc, world, slots)?;
    Ok(try_at(world, u, chosen(u, trying.as_slice())))
}
