//! The transactions that are drawn from words.
ghost use Rattle.std.specs.Prelude.{◌≡◌, ◌<◌, ◌≤◌, length};
ghost use Rattle.random_schedule.specs.Words.{pick};
ghost use Rattle.storm.specs.Numbers.{AreInRange};
ghost use Rattle.storm.specs.Script.{drawn_body, drawn_move, drawn_ops, drawn_tx};

use crate::numbers::StormNumbers;
use random_schedule::Words;
use std::alloc::Global;
use zeus_base::{NodeId, ObjId, SlotId, Value};
use zeus_txn::{Op, Tx, TxDecl};

/// The transaction of a few operations.
fn tx_of(alloc: Global, ops: &[Op]) -> Tx
    requires { (1 ≤ length ops.now) × (length ops.now ≤ 8) }
    ensures { result ≡ ops.now }
{
    Tx::new(alloc, ops).unwrap()
}

/// Needs some of the first object, stores a drawn value from 1 to 1,000 there, and adds to the second.
fn draw_move(alloc: Global, a: ObjId, b: ObjId, words: &mut Words) -> Tx
    ensures { (result, words.new) ≡ drawn_move a b words.old }
{
    let value = Value::Num(1 + u64::from(words.pick(1_000)));
    tx_of(alloc, &[Op::Need(a, 1), Op::Put(a, value), Op::Add(b, 1)])
}

/// The transaction of a kind on two objects.
#[tactic(auto, unfolding(crate::specs::Script::drawn_ops))]
fn draw_ops(alloc: Global, kind: u32, a: ObjId, b: ObjId, words: &mut Words) -> Tx
    ensures { (result, words.new) ≡ drawn_ops kind a b words.old }
{
    match kind {
        0 => tx_of(alloc, &[Op::Get(a), Op::Get(b)]),
        1 => tx_of(alloc, &[Op::Add(a, 1)]),
        2 => tx_of(alloc, &[Op::Get(a), Op::Add(b, 2)]),
        _ => draw_move(alloc, a, b, words),
    }
}

/// One of so many objects.
fn draw_object(objects: u16, words: &mut Words) -> ObjId
    requires { (1 ≤ objects) × (objects ≤ 256) }
    ensures { (result, words.new) ≡ pick objects words.old }
{
    ObjId(words.pick(u32::from(objects)) as u16)
}

/// The operations of a transaction on so many objects.
#[tactic(auto, unfolding(crate::specs::Script::drawn_body))]
fn draw_body(alloc: Global, objects: u16, words: &mut Words) -> Tx
    requires { (1 ≤ objects) × (objects ≤ 256) }
    ensures { (result, words.new) ≡ drawn_body objects words.old }
{
    let kind = words.pick(4);
    let a = draw_object(objects, words);
    let b = draw_object(objects, words);
    draw_ops(alloc, kind, a, b, words)
}

/// A transaction of the storm.
#[tactic(auto, unfolding(crate::specs::Script::drawn_tx))]
pub(crate) fn draw_tx(alloc: Global, numbers: &StormNumbers, words: &mut Words) -> TxDecl
    requires { AreInRange numbers.now }
    ensures { (result, words.new) ≡ drawn_tx numbers.now words.old }
{
    let node = NodeId(words.pick(u32::from(numbers.nodes)) as u8);
    let slot = SlotId(words.pick(u32::from(numbers.slots)) as u8);
    TxDecl {
        node,
        slot,
        after: None,
        tx: draw_body(alloc, numbers.objects, words),
    }
}
