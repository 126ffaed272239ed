//! A transaction begins in a free slot.
ghost use Rattle.std.specs.Prelude.{◌≡◌, ◌<◌, All, length};
ghost use Rattle.zeus_model.specs.Local.{begin};
ghost use Rattle.zeus_txn.specs.Ops.{named};
ghost use Rattle.zeus_txn.specs.Tx.{IsTx};

use node_state::NodeState;
use zeus_base::{SlotId, TxId};
use zeus_model::{Begin, Current};
use zeus_txn::Tx;

/// Begins a transaction, well made and of objects that there are, in a slot. A stopped node answers so, and so does a
/// slot that has a current transaction, with its number; then nothing changes. Else the slot has the transaction, which
/// is copied once here and at no try. Takes no memory.
pub fn begin(node: &mut NodeState, slot: SlotId, id: TxId, tx: &Tx) -> Begin
    requires slot { slot < length node.old.slots }
    requires made { IsTx tx.now }
    requires objects { All (λ x. x < length node.old.entries) (named tx.now) }
    ensures answer { result ≡ (begin node.old slot id tx.now).answer }
    ensures after { node.new ≡ (begin node.old slot id tx.now).node }
{
    if node.is_stopped() {
        return Begin::Stopped;
    }
    if let Some(other) = node.current(slot) {
        return Begin::Busy(other.id);
    }
    let tx = tx.duplicate();
    node.set_current(slot, Some(Current { id, tx }));
    Begin::Begun
}
