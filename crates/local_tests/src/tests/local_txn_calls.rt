//! Tests of typical calls.
ghost use Rattle.std.specs.Prelude.{◌≡◌, ◌<◌, ℕ, All, IfOk, IfSome, None, length, nat_lt, replicate};
ghost use Rattle.std.specs.List.{list_all};
ghost use Rattle.zeus_txn.specs.Ops.{named};
ghost use Rattle.object_table.specs.Entries.{AreNamed};

use commit_pipeline::Pipe;
use local_txn::{WriteTry, try_write};
use object_table::{Copies, Copy};
use owner_entry::Dir;
use std::alloc::{AllocError, Global};
use std::test::Fail;
use zeus_base::{Config, NodeId, NodeSet, ObjId, ObjectDecl, ObjectList, SlotId, TxId, Value};
use zeus_packet::{Content, State};
use zeus_txn::{Op, Tx};

const X: ObjId = ObjId(0);

const Y: ObjId = ObjId(1);

const Z: ObjId = ObjId(2);

/// What slot 0 of node 0 works on.
#[derive(Debug, Drop)]
struct Tables {
    dir: Dir,
    copies: Copies,
}

/// Node 0 owns x, with a replica at node 1, and y, with replicas at nodes 1 and 2; node 1 owns z.
fn config(alloc: Global) -> Result<Config, AllocError>
    ensures { IfOk result (λ config. length config.objects ≡ 3) }
{
    let zero = NodeSet::empty().insert(NodeId(0));
    let both = zero.insert(NodeId(1));
    let x = ObjectDecl {
        value: Value::Num(5),
        owner: NodeId(0),
        replicas: both,
    };
    let y = ObjectDecl {
        replicas: both.insert(NodeId(2)),
        ..x
    };
    let z = ObjectDecl {
        owner: NodeId(1),
        ..x
    };
    Ok(Config {
        version: 1,
        nodes: 3,
        slots: 2,
        directory: zero,
        degree: None,
        objects: ObjectList::from_vec(vec![in alloc; x, y, z]?),
    })
}

fn start_tables(alloc: Global) -> Result<Tables, Fail>
    ensures dir { IfOk result (λ t. length t.dir.entries ≡ 3) }
    ensures copies { IfOk result (λ t. length t.copies.copies ≡ 3) }
    ensures holds { IfOk result (λ t. t.copies.holds ≡ replicate 3 None) }
{
    let config = config(alloc)?;
    Ok(Tables {
        dir: Dir::new(alloc, &config)?,
        copies: Copies::new(alloc, &config, NodeId(0))?,
    })
}

/// Whether all are x, y and z.
fn are_known(objects: &[ObjId]) -> bool
    ensures { result ≡ list_all (λ x. nat_lt x 3) objects.now }
{
    objects.iter().all(|object| object.0 < 3)
}

/// The transaction, where it is one and names x, y and z alone.
fn transaction(alloc: Global, ops: &[Op]) -> Option<Tx>
    ensures { IfSome result (λ tx. All (λ x. x < 3) (named tx)) }
{
    let tx = Tx::new(alloc, ops).ok()?;
    if are_known(tx.named().as_slice()) {
        Some(tx)
    } else {
        None
    }
}

/// Slot 0 of node 0 tries the transaction.
fn attempt(copies: &mut Copies, dir: &Dir, pipe: &mut Pipe, id: u32, tx: &Tx) -> WriteTry
    requires objects { All (λ x. x < 3) (named tx.now) }
    requires dir { length dir.now.entries ≡ 3 }
    requires copies { length copies.old.copies ≡ 3 }
    requires named { AreNamed 0 copies.old.holds pipe.old.pending }
    ensures copies { length copies.new.copies ≡ 3 }
    ensures named { AreNamed 0 copies.new.holds pipe.new.pending }
{
    try_write(copies, dir, pipe, NodeId(0), SlotId(0), TxId(id), tx)
}

#[test]
fn an_owner_commits_until_another_slot_holds(rt: HostRuntime) -> Result<(), Fail> {
    let alloc = rt.alloc();
    let mut tables = start_tables(alloc)?;
    let mut pipe = Pipe::new(alloc)?;
    let ops = [Op::Add(X, 1), Op::Get(Y)];
    let tx = transaction(alloc, &ops).expect(&rt, "a transaction");
    match attempt(&mut tables.copies, &tables.dir, &mut pipe, 7, &tx) {
        WriteTry::Committed(number, reply) => {
            assert_eq!(rt; number, 0);
            let values = [Value::Num(6), Value::Num(5)];
            assert_eq!(rt; reply.values.as_slice(), values.as_slice());
        }
        _ => assert!(rt; false),
    }
    let written = Copy {
        value: Value::Num(6),
        ver: 1,
        state: State::Write,
    };
    assert_eq!(rt; tables.copies.copy(X), Some(written));
    assert_eq!(rt; tables.copies.holder(X), Some(SlotId(0)));
    assert_eq!(rt; tables.copies.holder(Y), Some(SlotId(0)));
    let followers = pipe.pending(0).map(|entry| entry.followers);
    assert_eq!(rt; followers, Some(NodeSet::empty().insert(NodeId(1))));
    assert!(rt;
        matches!(
            attempt(&mut tables.copies, &tables.dir, &mut pipe, 8, &tx),
            WriteTry::Committed(1, _)
        )
    );
    let ops = [Op::Add(X, 1), Op::Put(Z, Value::Num(1))];
    let foreign = transaction(alloc, &ops).expect(&rt, "a transaction");
    assert!(rt;
        matches!(
            attempt(&mut tables.copies, &tables.dir, &mut pipe, 9, &foreign),
            WriteTry::NotOwner(Z)
        )
    );
    assert_eq!(rt; pipe.len(), 2);
    Ok(())
}

#[test]
fn an_object_that_another_slot_holds_is_not_written(rt: HostRuntime) -> Result<(), Fail> {
    let alloc = rt.alloc();
    let mut tables = start_tables(alloc)?;
    let mut pipe = Pipe::new(alloc)?;
    tables.copies.hold(Y, SlotId(1));
    let ops = [Op::Add(X, 1), Op::Get(Y)];
    let tx = transaction(alloc, &ops).expect(&rt, "a transaction");
    assert!(rt;
        matches!(
            attempt(&mut tables.copies, &tables.dir, &mut pipe, 7, &tx),
            WriteTry::Held(Y, SlotId(1))
        )
    );
    assert_eq!(rt; tables.copies.holder(X), None);
    assert_eq!(rt; pipe.len(), 0);
    Ok(())
}

#[test]
fn the_last_version_is_worn_out(rt: HostRuntime) -> Result<(), Fail> {
    let alloc = rt.alloc();
    let mut tables = start_tables(alloc)?;
    let mut pipe = Pipe::new(alloc)?;
    let content = Content {
        ver: 18446744073709551615,
        value: Value::Num(5),
    };
    tables.copies.place_copy(X, &content);
    let ops = [Op::Add(X, 1)];
    let tx = transaction(alloc, &ops).expect(&rt, "a transaction");
    assert!(rt;
        matches!(
            attempt(&mut tables.copies, &tables.dir, &mut pipe, 7, &tx),
            WriteTry::WornOut
        )
    );
    let ops = [Op::Get(X), Op::Add(Y, 1)];
    let tx = transaction(alloc, &ops).expect(&rt, "a transaction");
    assert!(rt;
        matches!(
            attempt(&mut tables.copies, &tables.dir, &mut pipe, 8, &tx),
            WriteTry::Committed(0, _)
        )
    );
    Ok(())
}
