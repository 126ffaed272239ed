//! What a transaction does on the copies of one node.
ghost use Rattle.std.specs.Prelude.{◌≡◌, None, map};
ghost use Rattle.zeus_model.specs.Local.{run_here};
ghost use Rattle.zeus_model.specs.State.{Node, value_of};
ghost use Rattle.zeus_model.specs.Tables.{nth};
ghost use Rattle.zeus_txn.specs.Ops.{named};

use object_table::Copies;
use zeus_base::{ObjId, Value};
use zeus_txn::{Ran, Tx, Values, run_ops};

/// What the transaction replies and writes on the copies, whatever their states; an object without a copy has value 0.
/// The clause speaks of every node that has these copies, so of the one that they are from.
pub fn run_on(copies: &Copies, tx: &Tx) -> Ran
    ensures { (n : Node) → n.copies ≡ copies.now.copies → result ≡ run_here n tx.now }
{
    let found = values(copies, tx);
    run_ops(tx, found.as_slice())
}

/// The values of the objects that the transaction names, in the order of first naming.
fn values(copies: &Copies, tx: &Tx) -> Values
    ensures { result ≡ map (λ x. value_of (nth None copies.now.copies x)) (named tx.now) }
{
    let named = tx.named();
    let count = named.len();
    let mut values = Values::new(tx.allocator());
    for place in 0..count {
        values.push(value(copies, named.as_slice()[place]));
    }
    values
}

#[tactic(auto, unfolding(zeus_model::specs::State::value_of))]
fn value(copies: &Copies, object: ObjId) -> Value
    ensures { result ≡ value_of (nth None copies.now.copies object) }
{
    match copies.copy(object) {
        None => Value::Num(0),
        Some(copy) => copy.value,
    }
}
