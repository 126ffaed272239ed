//! Tests of typical calls.
ghost use Rattle.std.specs.Prelude.{◌≡◌, IfOk, length};

use object_table::Copies;
use replica_reads::{ReadTry, run_on, try_read};
use std::alloc::{AllocError, Global};
use std::test::Fail;
use zeus_base::{Config, NodeId, NodeSet, ObjId, ObjectDecl, ObjectList, Value};
use zeus_packet::{State, Write};
use zeus_txn::{Op, Tx};

const X: ObjId = ObjId(0);

const Y: ObjId = ObjId(1);

const Z: ObjId = ObjId(2);

/// The copies of node 1, which has x and y and not z.
fn copies(alloc: Global) -> Result<Copies, Fail>
    ensures { IfOk result (λ table. length table.copies ≡ 3) }
{
    let owner = NodeSet::empty().insert(NodeId(0));
    let shared = ObjectDecl {
        value: Value::Num(5),
        owner: NodeId(0),
        replicas: owner.insert(NodeId(1)),
    };
    let other = ObjectDecl {
        value: Value::Num(6),
        ..shared
    };
    let alone = ObjectDecl {
        replicas: owner,
        ..shared
    };
    let config = Config {
        version: 1,
        nodes: 2,
        slots: 1,
        directory: owner,
        degree: None,
        objects: ObjectList::from_vec(vec![in alloc; shared, other, alone]?),
    };
    Ok(Copies::new(alloc, &config, NodeId(1))?)
}

#[test]
fn a_read_waits_for_its_first_copy_that_is_not_valid(rt: HostRuntime) -> Result<(), Fail> {
    let alloc = rt.alloc();
    let mut copies = copies(alloc)?;
    let ops = [Op::Get(Y), Op::Get(X)];
    let both = Tx::new(alloc, &ops).expect(&rt, "a transaction");
    let ops = [Op::Get(X), Op::Get(Z), Op::Get(Y)];
    let all = Tx::new(alloc, &ops).expect(&rt, "a transaction");
    match try_read(&copies, &both) {
        ReadTry::Read(reply) => {
            let values = [Value::Num(6), Value::Num(5)];
            assert_eq!(rt; reply.values.as_slice(), values.as_slice());
            assert_eq!(rt; reply.failed, None);
        }
        _ => assert!(rt; false),
    }
    assert!(rt; matches!(try_read(&copies, &all), ReadTry::NoCopy(Z)));
    let first = Write {
        obj: X,
        ver: 1,
        value: Value::Num(7),
    };
    assert!(rt; copies.apply(&first));
    let second = Write { obj: Y, ..first };
    assert!(rt; copies.apply(&second));
    assert!(rt;
        matches!(
            try_read(&copies, &both),
            ReadTry::NotValid(Y, State::Invalid)
        )
    );
    assert!(rt;
        matches!(
            try_read(&copies, &all),
            ReadTry::NotValid(X, State::Invalid)
        )
    );
    copies.validate(Y, 1);
    assert!(rt;
        matches!(
            try_read(&copies, &both),
            ReadTry::NotValid(X, State::Invalid)
        )
    );
    Ok(())
}

#[test]
fn a_transaction_runs_on_the_copies(rt: HostRuntime) -> Result<(), Fail> {
    let alloc = rt.alloc();
    let copies = copies(alloc)?;
    let ops = [Op::Add(Y, 2), Op::Get(X)];
    let tx = Tx::new(alloc, &ops).expect(&rt, "a transaction");
    let ran = run_on(&copies, &tx);
    let values = [Value::Num(8), Value::Num(5)];
    assert_eq!(rt; ran.reply.values.as_slice(), values.as_slice());
    assert_eq!(rt; ran.writes.as_slice(), [(Y, Value::Num(8))].as_slice());
    Ok(())
}
