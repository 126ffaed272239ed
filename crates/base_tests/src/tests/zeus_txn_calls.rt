//! Tests of typical calls.
use std::alloc::Global;
use zeus_base::{ObjId, Text, Value};
use zeus_txn::{Op, Ran, Tx, TxFault, run_ops};

const X: ObjId = ObjId(0);

const Y: ObjId = ObjId(1);

// What operations that make a transaction reply and write at as many values as they name objects.
fn ran(alloc: Global, ops: &[Op], values: &[Value]) -> Option<Ran> {
    let tx = Tx::new(alloc, ops).ok()?;
    if values.len() != tx.named().len() {
        return None;
    }
    Some(run_ops(&tx, values))
}

#[test]
fn operations_that_are_no_transaction(rt: HostRuntime) {
    let many = [Op::Get(X); 17];
    assert_eq!(rt; Tx::new(rt.alloc(), &[]).err(), Some(TxFault::Empty));
    assert_eq!(rt; Tx::new(rt.alloc(), &many).err(), Some(TxFault::ManyOps));
    assert!(rt; Tx::new(rt.alloc(), &many[..16]).is_ok());
    let mut wide = [Op::Get(X); 9];
    for (place, op) in wide.iter_mut().enumerate() {
        *op = Op::Need(ObjId(place as u16), 1);
    }
    assert_eq!(rt;
        Tx::new(rt.alloc(), &wide).err(),
        Some(TxFault::ManyObjects)
    );
    assert!(rt; Tx::new(rt.alloc(), &wide[..8]).is_ok());
}

#[test]
fn objects_are_named_and_written_in_the_order_of_first_naming(rt: HostRuntime) {
    let ops = [
        Op::Get(Y),
        Op::Add(X, 1),
        Op::Put(Y, Value::Num(4)),
        Op::Put(X, Value::Num(5)),
    ];
    let tx = Tx::new(rt.alloc(), &ops).expect(&rt, "a transaction");
    assert_eq!(rt; tx.named().as_slice(), [Y, X].as_slice());
    assert!(rt; tx.is_write());
    let ran = ran(rt.alloc(), &ops, &[Value::Num(7), Value::Num(2)]).expect(&rt, "two values");
    assert_eq!(rt;
        ran.reply.values.as_slice(),
        [Value::Num(7), Value::Num(3)].as_slice()
    );
    assert_eq!(rt; ran.reply.failed, None);
    assert_eq!(rt;
        ran.writes.as_slice(),
        [(X, Value::Num(5)), (Y, Value::Num(4))].as_slice()
    );
}

#[test]
fn a_failed_transaction_writes_nothing(rt: HostRuntime) {
    let ops = [Op::Add(X, 2), Op::Need(X, 2), Op::Put(X, Value::Num(4))];
    let ran = ran(rt.alloc(), &ops, &[Value::Num(u64::MAX)]).expect(&rt, "one value");
    assert_eq!(rt; ran.reply.values.as_slice(), [Value::Num(1)].as_slice());
    assert_eq!(rt; ran.reply.failed, Some(1));
    assert!(rt; ran.writes.is_empty());
}

// The text of these bytes, or 0 where they make none.
fn text(bytes: &[u8]) -> Value {
    Text::new(bytes).map_or(Value::Num(0), Value::Text)
}

#[test]
fn texts_are_compared_and_not_added_to(rt: HostRuntime) {
    let ops = [Op::Same(X, text(b"idle")), Op::Put(X, text(b"busy"))];
    let first = ran(rt.alloc(), &ops, &[text(b"idle")]).expect(&rt, "one value");
    assert_eq!(rt; first.writes.as_slice(), [(X, text(b"busy"))].as_slice());
    let again = ran(rt.alloc(), &ops, &[text(b"busy")]).expect(&rt, "one value");
    assert_eq!(rt; again.reply.failed, Some(0));
    let added = ran(rt.alloc(), &[Op::Add(X, 1)], &[text(b"idle")]).expect(&rt, "one value");
    assert_eq!(rt; added.reply.failed, Some(0));
}
