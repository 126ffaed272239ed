//! Tests of typical calls.
ghost use Rattle.std.specs.Prelude.{◌≡◌, ◌<◌, IfOk};
ghost use Rattle.crash_replay.specs.Replay.{HasStreams};

use crash_replay::{Stored, is_recovered, next_replay};
use follower_log::Store;
use std::alloc::{AllocError, Global};
use std::test::Fail;
use zeus_base::{
    Config, NoMemory, NodeId, NodeSet, ObjId, ObjectDecl, ObjectList, SlotId, Stream, Value,
};
use zeus_packet::{RInv, Write, Writes};

fn stream(node: NodeId, slot: SlotId) -> Stream
    ensures node { result.node ≡ node }
    ensures slot { result.slot ≡ slot }
{
    Stream { node, slot }
}

/// The first entry of the stream, which writes object 0.
fn entry(alloc: Global, stream: &Stream) -> RInv
    ensures stream { result.stream ≡ stream.now }
    ensures number { result.number ≡ 0 }
{
    let mut writes = Writes::new(alloc);
    writes.push(Write {
        obj: ObjId(0),
        ver: 1,
        value: Value::Num(9),
    });
    RInv {
        stream: *stream,
        number: 0,
        done: 0,
        followers: NodeSet::empty().insert(NodeId(0)),
        writes,
    }
}

/// Four nodes with two slots each, and one object.
fn config(alloc: Global) -> Result<Config, AllocError>
    ensures nodes { IfOk result (λ config. config.nodes ≡ 4) }
    ensures slots { IfOk result (λ config. config.slots ≡ 2) }
{
    let first = NodeSet::empty().insert(NodeId(0));
    let object = ObjectDecl {
        value: Value::Num(5),
        owner: NodeId(0),
        replicas: first,
    };
    Ok(Config {
        version: 1,
        nodes: 4,
        slots: 2,
        directory: first,
        degree: None,
        objects: ObjectList::from_vec(vec![in alloc; object]?),
    })
}

/// What is stored at the start of a run.
fn start(alloc: Global, config: &Config) -> Result<Stored, NoMemory>
    ensures { IfOk result (λ log. HasStreams config.now.nodes config.now.slots log) }
{
    let log = Stored::new(alloc, config)?;
    Ok(log)
}

/// Stores the first entry of the stream.
fn store_first(alloc: Global, log: &mut Stored, stream: &Stream) -> Store
    requires node { stream.now.node < 4 }
    requires slot { stream.now.slot < 2 }
    requires streams { HasStreams 4 2 log.old }
    ensures { HasStreams 4 2 log.new }
{
    log.store(&entry(alloc, stream))
}

#[test]
fn replays_the_streams_of_nodes_outside_in_order(rt: HostRuntime) -> Result<(), Fail> {
    let alloc = rt.alloc();
    let config = &config(alloc)?;
    let mut log = start(alloc, config)?;
    let members = NodeSet::empty().insert(NodeId(0)).insert(NodeId(2));
    assert!(rt; is_recovered(&log, 4, 2, members));
    let member = &stream(NodeId(2), SlotId(1));
    assert_eq!(rt; store_first(alloc, &mut log, member), Store::Stored);
    assert!(rt; is_recovered(&log, 4, 2, members));
    assert_eq!(rt; next_replay(&log, 4, 2, members, None), None);
    let second = &stream(NodeId(3), SlotId(0));
    assert_eq!(rt; store_first(alloc, &mut log, second), Store::Stored);
    let first = &stream(NodeId(1), SlotId(1));
    assert_eq!(rt; store_first(alloc, &mut log, first), Store::Stored);
    assert!(rt; !is_recovered(&log, 4, 2, members));
    assert_eq!(rt; next_replay(&log, 4, 2, members, None), Some(*first));
    assert_eq!(rt;
        next_replay(&log, 4, 2, members, Some(*first)),
        Some(*second)
    );
    assert_eq!(rt;
        next_replay(&log, 4, 2, members, Some(*member)),
        Some(*second)
    );
    assert_eq!(rt; next_replay(&log, 4, 2, members, Some(*second)), None);
    let none = NodeSet::empty();
    assert_eq!(rt; next_replay(&log, 4, 2, none, Some(*first)), Some(*member));
    Ok(())
}
