//! How the world of a storm stands at its end, in numbers.
ghost use Rattle.std.specs.Prelude.{◌≡◌, ◌<◌, ◌≤◌, ◌+◌, ◌%◌, ◌^◌, IfOk, length, if◌then◌else◌};
ghost use Rattle.zeus_model.specs.Readers.{is_lost};
ghost use Rattle.zeus_model.specs.World.{World as WorldData};
ghost use Rattle.storm.specs.Counts.{count, counted, has_failed, is_cut_off, is_refused, is_unfinished, map_left, number_of, summed};

use std::alloc::Global;
use zeus_base::{NoMemory, ObjId, TxId, Value};
use zeus_txn::Map;
use zeus_world::World;

/// How many of a storm's transactions stand how.
#[derive(Clone, Copy, Debug, PartialEq, Eq)]
pub(crate) struct TxCounts {
    /// Acknowledged.
    pub(crate) acked: u32,
    /// Acknowledged ones that failed.
    pub(crate) failed: u32,
    /// Refused.
    pub(crate) refused: u32,
    /// Neither acknowledged nor refused, and the node has stopped.
    pub(crate) stopped: u32,
    /// Not closed.
    pub(crate) unfinished: u32,
}

#[tactic(auto, unfolding(crate::specs::Counts::has_failed, zeus_model::specs::Book::reply_or))]
fn has_failed(world: &World, id: TxId) -> bool
    ensures { result ≡ has_failed world.now id }
{
    match world.book().reply(id) {
        Some(reply) => world.book().is_acked(id) && reply.failed.is_some(),
        None => false,
    }
}

#[tactic(auto, unfolding(crate::specs::Counts::is_cut_off))]
fn is_cut_off(world: &World, id: TxId) -> bool
    requires { id < length world.now.txs }
    ensures { result ≡ is_cut_off world.now id }
{
    let book = world.book();
    let node = world.declared(id).node;
    !(book.is_acked(id) || book.is_refused(id) || world.is_live(node))
}

/// One if it is so, and else none.
fn one_if(test: bool) -> u32
    ensures { result ≡ (if test then 1 else 0) }
{
    u32::from(test)
}

impl TxCounts {
    /// No transaction is counted yet.
    #[tactic(auto, unfolding(crate::specs::Counts::count))]
    fn none() -> TxCounts
        ensures { (w : WorldData) → result ≡ counted w 0 }
    {
        TxCounts {
            acked: 0,
            failed: 0,
            refused: 0,
            stopped: 0,
            unfinished: 0,
        }
    }

    /// Counts one more transaction.
    fn note(&mut self, world: &World, id: TxId)
        requires there { id < length world.now.txs }
        requires few { id < 10000 }
        requires counted { self.old ≡ counted world.now id }
        ensures { self.new ≡ counted world.now (id + 1) }
    {
        self.acked += one_if(world.book().is_acked(id));
        self.failed += one_if(has_failed(world, id));
        self.refused += one_if(world.book().is_refused(id));
        self.stopped += one_if(is_cut_off(world, id));
        self.unfinished += one_if(!world.is_closed(id));
    }
}

/// Counts the transactions by how they stand.
pub(crate) fn count_txs(world: &World) -> TxCounts
    requires { length world.now.txs ≤ 10000 }
    ensures { result ≡ counted world.now (length world.now.txs) }
{
    let mut counts = TxCounts::none();
    for id in 0..world.txs().len() as u32 {
        counts.note(world, TxId(id));
    }
    counts
}

/// Counts the objects that are lost.
pub(crate) fn count_lost(world: &World) -> u16
    requires { length world.now.config.objects ≤ 256 }
    ensures { result ≡ count (is_lost world.now) (length world.now.config.objects) }
{
    let mut lost = 0;
    for obj in 0..world.config().objects.len() as u16 {
        if world.is_lost(ObjId(obj)) {
            lost += 1;
        }
    }
    lost
}

/// The number that a value is; of a text 0.
#[tactic(auto, unfolding(crate::specs::Counts::number_of))]
fn number_of(value: Value) -> u64
    ensures { result ≡ number_of value }
{
    match value {
        Value::Num(number) => number,
        Value::Text(_) => 0,
    }
}

/// The sum of the values of so many objects, modulo 2^64.
fn sum(map: &Map, objects: u16) -> u64
    requires { (objects ≤ 256) × (objects ≤ length map.now) }
    ensures { result ≡ summed map.now objects % 2 ^ 64 }
{
    let mut sum: u64 = 0;
    for obj in 0..objects {
        sum = sum.wrapping_add(number_of(map.value(ObjId(obj))));
    }
    sum
}

/// The sum of the values that the history leaves, modulo 2^64.
///
/// # Errors
/// `NoMemory` if the memory for the map of them is not there.
pub(crate) fn sum_left(world: &World) -> Result<u64, NoMemory>
    requires { length world.now.config.objects ≤ 256 }
    ensures { IfOk result (λ n. n ≡ summed (map_left world.now) (length world.now.config.objects) % 2 ^ 64) }
{
    let map = world.serial_map()?;
    Ok(sum(&map, world.config().objects.len() as u16))
}
