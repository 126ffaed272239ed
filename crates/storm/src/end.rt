//! The end of a storm.
ghost use Rattle.std.specs.Prelude.{◌≡◌, ◌≤◌, IfOk, length};
ghost use Rattle.storm.specs.Storm.{end_of};

use crate::counts::{count_lost, count_txs, sum_left};
use crate::numbers::StormNumbers;
use zeus_base::NoMemory;
use zeus_world::World;

/// What a storm has come to.
#[derive(Clone, Copy, Debug, PartialEq, Eq)]
pub struct StormEnd {
    pub numbers: StormNumbers,
    /// How many steps were taken.
    pub taken: u32,
    /// How many transactions are acknowledged.
    pub acked: u32,
    /// How many of these failed.
    pub failed: u32,
    /// How many transactions are refused.
    pub refused: u32,
    /// How many transactions are neither acknowledged nor refused, and their node has stopped.
    pub stopped: u32,
    /// How many transactions are not closed: neither acknowledged nor refused, and their node runs.
    pub unfinished: u32,
    /// The epoch of the last view.
    pub epoch: u32,
    /// How many objects are lost.
    pub lost: u16,
    /// The sum of the values that the history leaves, modulo 2^64.
    pub sum: u64,
}

/// How the world stands after so many steps.
///
/// # Errors
/// `NoMemory` if memory ran out.
pub(crate) fn end_of(
    numbers: &StormNumbers,
    world: &World,
    taken: u32,
) -> Result<StormEnd, NoMemory>
    requires txs { length world.now.txs ≤ 10000 }
    requires objects { length world.now.config.objects ≤ 256 }
    ensures { IfOk result (λ end. end ≡ end_of numbers.now world.now taken) }
{
    let counts = count_txs(world);
    Ok(StormEnd {
        numbers: *numbers,
        taken,
        acked: counts.acked,
        failed: counts.failed,
        refused: counts.refused,
        stopped: counts.stopped,
        unfinished: counts.unfinished,
        epoch: world.views().count(),
        lost: count_lost(world),
        sum: sum_left(world)?,
    })
}
