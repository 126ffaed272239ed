//! Tests of typical calls.
ghost use Rattle.std.specs.Prelude.{◌≡◌, ◌<◌, ◌^◌, ◌-◌, All, IfOk, length, map};
ghost use Rattle.object_table.specs.Entries.{AreEntriesWithin, IsWithin};
ghost use Rattle.object_table.specs.Table.{AreWithin};
ghost use Rattle.reliable_commit.specs.Following.{IsFollowed};

use commit_pipeline::Full;
use reliable_commit::{
    Advance, Copies, Pipe, RInvAnswer, RValAnswer, Stored, advance_kept, advance_own, on_rinv,
    on_rval,
};
use std::alloc::{AllocError, Global};
use std::test::Fail;
use zeus_base::{
    Config, NoMemory, NodeId, NodeSet, ObjId, ObjectDecl, ObjectList, SlotId, Stream, TxId, Value,
};
use zeus_model::{Copy, Pending};
use zeus_packet::{Cause, RInv, State, Write, Writes};
use zeus_txn::{Named, Reply, Values};

fn three_nodes() -> NodeSet {
    NodeSet::empty()
        .insert(NodeId(0))
        .insert(NodeId(1))
        .insert(NodeId(2))
}

/// Three nodes with one slot each, and an object at all of them.
fn config(alloc: Global) -> Result<Config, AllocError>
    ensures objects { IfOk result (λ config. length config.objects ≡ 1) }
    ensures nodes { IfOk result (λ config. config.nodes ≡ 3) }
    ensures slots { IfOk result (λ config. config.slots ≡ 1) }
{
    let object = ObjectDecl {
        value: Value::Num(5),
        owner: NodeId(0),
        replicas: three_nodes(),
    };
    Ok(Config {
        version: 1,
        nodes: 3,
        slots: 1,
        directory: NodeSet::empty().insert(NodeId(0)),
        degree: None,
        objects: ObjectList::from_vec(vec![in alloc; object]?),
    })
}

/// The stream of the first node.
fn stream() -> Stream
    ensures { result ≡ record { node = 0; slot = 0 } }
{
    Stream {
        node: NodeId(0),
        slot: SlotId(0),
    }
}

/// A write of the object, with the version above this number.
#[tactic(auto, unfolding(object_table::specs::Table::AreWithin))]
fn writes(alloc: Global, number: u32) -> Writes
    ensures { AreWithin 1 result }
{
    let mut writes = Writes::new(alloc);
    writes.push(Write {
        obj: ObjId(0),
        ver: u64::from(number) + 1,
        value: Value::Num(u64::from(number) + 7),
    });
    writes
}

/// The copy that the write of this number makes.
fn copy(number: u64, state: State) -> Option<Copy>
    requires { number < 9 }
{
    Some(Copy {
        value: Value::Num(number + 7),
        ver: number + 1,
        state,
    })
}

/// The entry of this number comes to node 1.
fn invalidate(
    alloc: Global,
    copies: &mut Copies,
    log: &mut Stored,
    number: u32,
    done: u32,
) -> RInvAnswer
    requires followed { IsFollowed 1 log.old (record { node = 0; slot = 0 }) }
    requires objects { length copies.old.copies ≡ 1 }
    requires numbered { number < 2 ^ 32 - 1 }
    ensures followed { IsFollowed 1 log.new (record { node = 0; slot = 0 }) }
    ensures objects { length copies.new.copies ≡ 1 }
{
    let r = RInv {
        stream: stream(),
        number,
        done,
        followers: NodeSet::empty().insert(NodeId(1)).insert(NodeId(2)),
        writes: writes(alloc, number),
    };
    on_rinv(copies, log, NodeId(1), &r)
}

/// The word comes to node 1 that so many entries have passed.
fn validate(copies: &mut Copies, log: &mut Stored, done: u32) -> RValAnswer
    requires followed { IsFollowed 1 log.old (record { node = 0; slot = 0 }) }
    requires objects { length copies.old.copies ≡ 1 }
    ensures followed { IsFollowed 1 log.new (record { node = 0; slot = 0 }) }
    ensures objects { length copies.new.copies ≡ 1 }
{
    on_rval(copies, log, NodeId(1), stream(), done)
}

/// Node 1 replays the stream in a view with these members.
fn replay(copies: &mut Copies, log: &mut Stored, members: NodeSet) -> Advance
    requires followed { IsFollowed 1 log.old (record { node = 0; slot = 0 }) }
    requires objects { length copies.old.copies ≡ 1 }
    ensures followed { IsFollowed 1 log.new (record { node = 0; slot = 0 }) }
    ensures objects { length copies.new.copies ≡ 1 }
{
    advance_kept(copies, log, stream(), NodeId(1), members)
}

/// The streams at the start.
fn no_streams(alloc: Global, config: &Config) -> Result<Stored, NoMemory>
    requires nodes { config.now.nodes ≡ 3 }
    requires slots { config.now.slots ≡ 1 }
    ensures { IfOk result (λ log. IsFollowed 1 log (record { node = 0; slot = 0 })) }
{
    Stored::new(alloc, config)
}

#[test]
fn a_follower_takes_and_validates(rt: HostRuntime) -> Result<(), Fail> {
    let alloc = rt.alloc();
    let config = config(alloc)?;
    let mut copies = Copies::new(alloc, &config, NodeId(1))?;
    let mut log = no_streams(alloc, &config)?;
    let gap = invalidate(alloc, &mut copies, &mut log, 1, 0);
    assert_eq!(rt; gap, RInvAnswer::Gap(0));
    let first = invalidate(alloc, &mut copies, &mut log, 0, 0);
    assert_eq!(rt; first, RInvAnswer::Taken);
    assert_eq!(rt; copies.copy(ObjId(0)), copy(0, State::Invalid));
    let again = invalidate(alloc, &mut copies, &mut log, 0, 0);
    assert_eq!(rt; again, RInvAnswer::Again);
    assert_eq!(rt; validate(&mut copies, &mut log, 1), RValAnswer::Taken);
    assert_eq!(rt; validate(&mut copies, &mut log, 1), RValAnswer::Again);
    assert_eq!(rt; copies.copy(ObjId(0)), copy(0, State::Valid));
    let second = invalidate(alloc, &mut copies, &mut log, 1, 1);
    assert_eq!(rt; second, RInvAnswer::Taken);
    assert_eq!(rt; copies.copy(ObjId(0)), copy(1, State::Invalid));
    let own = on_rval(&mut copies, &mut log, NodeId(0), stream(), 2);
    assert_eq!(rt; own, RValAnswer::No(Cause::OwnStream));
    Ok(())
}

#[test]
fn a_stream_is_replayed(rt: HostRuntime) -> Result<(), Fail> {
    let alloc = rt.alloc();
    let config = config(alloc)?;
    let mut copies = Copies::new(alloc, &config, NodeId(1))?;
    let mut log = no_streams(alloc, &config)?;
    let taken = invalidate(alloc, &mut copies, &mut log, 0, 0);
    assert_eq!(rt; taken, RInvAnswer::Taken);
    let waits = replay(&mut copies, &mut log, three_nodes());
    let none = Advance {
        first: 0,
        after: 0,
        tell: NodeSet::empty(),
    };
    assert_eq!(rt; waits, none);
    let alone = replay(&mut copies, &mut log, NodeSet::empty().insert(NodeId(1)));
    assert_eq!(rt; alone, Advance { after: 1, ..none });
    assert_eq!(rt; copies.copy(ObjId(0)), copy(0, State::Valid));
    Ok(())
}

/// The object, as all that a transaction names.
fn named(alloc: Global) -> Named
    ensures { All (λ x. x < 1) result }
{
    let mut named = Named::new(alloc);
    named.push(ObjId(0));
    named
}

/// A commit of node 0 that nodes 1 and 2 follow and these have acknowledged.
fn pending(alloc: Global, acks: NodeSet) -> Pending
    ensures { IsWithin 1 result }
{
    Pending {
        id: TxId(3),
        reply: Reply {
            values: Values::new(alloc),
            failed: None,
        },
        named: named(alloc),
        followers: NodeSet::empty().insert(NodeId(1)).insert(NodeId(2)),
        writes: writes(alloc, 0),
        acks,
    }
}

/// A pipe with that commit alone.
fn pipe(alloc: Global, acks: NodeSet) -> Result<Pipe, NoMemory>
    ensures { IfOk result (λ pipe. AreEntriesWithin 1 pipe.pending) }
{
    let mut pipe = Pipe::new(alloc)?;
    match pipe.push(pending(alloc, acks)) {
        Ok(_) => Ok(pipe),
        Err(Full) => Err(NoMemory),
    }
}

/// The copies of node 0, whose slot has written the object and holds it.
fn written(alloc: Global, config: &Config) -> Result<Copies, NoMemory>
    requires { length config.now.objects ≡ 1 }
    ensures { IfOk result (λ table. length table.copies ≡ 1) }
{
    let mut copies = Copies::new(alloc, config, NodeId(0))?;
    copies.write(ObjId(0), Value::Num(7));
    copies.hold(ObjId(0), SlotId(0));
    Ok(copies)
}

#[test]
fn a_slot_waits_and_advances(rt: HostRuntime) -> Result<(), Fail> {
    let alloc = rt.alloc();
    let config = config(alloc)?;
    let followers = NodeSet::empty().insert(NodeId(1)).insert(NodeId(2));
    let mut copies = written(alloc, &config)?;
    let mut waiting = pipe(alloc, NodeSet::empty().insert(NodeId(2)))?;
    let none = advance_own(&mut copies, &mut waiting, NodeId(0), three_nodes());
    assert_eq!(rt;
        none,
        Advance {
            first: 0,
            after: 0,
            tell: NodeSet::empty()
        }
    );
    assert_eq!(rt; copies.copy(ObjId(0)), copy(0, State::Write));
    assert_eq!(rt; copies.holder(ObjId(0)), Some(SlotId(0)));
    let mut passing = pipe(alloc, followers)?;
    let one = advance_own(&mut copies, &mut passing, NodeId(0), three_nodes());
    assert_eq!(rt;
        one,
        Advance {
            first: 0,
            after: 1,
            tell: followers
        }
    );
    assert_eq!(rt; copies.copy(ObjId(0)), copy(0, State::Valid));
    assert_eq!(rt; copies.holder(ObjId(0)), None);
    assert_eq!(rt; passing.len(), 0);
    Ok(())
}
