//! The end of a schedule.
ghost use Rattle.std.specs.Prelude.{◌≡◌, ◌<◌, ◌^◌, length};
ghost use Rattle.zeus_model.specs.Readers.{all_closed, is_ended};
ghost use Rattle.random_schedule.specs.Ready.{AreSettled, is_settled};

use zeus_base::TxId;
use zeus_world::World;

/// Whether a transaction was refused, or its node has stopped.
fn is_ended(world: &World, id: TxId) -> bool
    requires { id < length world.now.txs }
    ensures { result ≡ is_ended world.now id }
{
    world.book().is_refused(id) || !world.is_live(world.declared(id).node)
}

/// Whether a transaction is acknowledged or refused, or its node has stopped; it stays so.
#[tactic(auto, unfolding(crate::specs::Ready::is_settled))]
fn is_settled(world: &World, id: TxId) -> bool
    requires { id < length world.now.txs }
    ensures { result ≡ is_settled world.now id }
{
    world.book().is_acked(id) || is_ended(world, id)
}

/// Counts on over the transactions that are settled, from the first that was not known to be.
#[tactic(auto, using(crate::proofs::Settling::settled_more))]
fn skip_settled(world: &World, settled: &mut u32)
    requires few { length world.now.txs < 2 ^ 32 }
    requires settled { AreSettled world.now settled.old }
    ensures { AreSettled world.now settled.new }
{
    let count = world.txs().len() as u32;
    for id in *settled..count {
        if !is_settled(world, TxId(id)) {
            return;
        }
        *settled = id + 1;
    }
}

/// Whether all transactions are closed. Of so many it is known, from the first on, that they are settled; the number is
/// raised to those that this call finds.
#[tactic(auto, using(crate::proofs::Settling::skip_settled, crate::proofs::Settling::closed_on, crate::proofs::Settling::not_closed, crate::proofs::Settling::none_left))]
pub(crate) fn all_closed(world: &World, settled: &mut u32) -> bool
    requires few { length world.now.txs < 2 ^ 32 }
    requires settled { AreSettled world.now settled.old }
    ensures all { result ≡ all_closed world.now }
    ensures settled { AreSettled world.now settled.new }
{
    skip_settled(world, settled);
    let count = world.txs().len() as u32;
    for id in *settled..count {
        if !world.is_closed(TxId(id)) {
            return false;
        }
    }
    true
}
