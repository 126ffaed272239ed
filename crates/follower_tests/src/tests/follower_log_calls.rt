//! Tables of typical calls with their answers, the same over both windows.
ghost use Rattle.std.specs.Prelude.{◌≡◌, ◌<◌, IfOk};
ghost use Rattle.follower_log.specs.Streams.{IsStreamOf};

use follower_log::{Kept, RInv, Store, Stored, StoredOver};
use std::alloc::{AllocError, Global};
use std::test::Fail;
use zeus_base::{
    Config, NoMemory, NodeId, NodeSet, ObjId, ObjectDecl, ObjectList, SlotId, Stream, Value,
};
use zeus_packet::{NewWindow, PlainWindow, Window, Write, Writes};

/// A call at a stream. A set of nodes is given by its bits, the lowest being that of node 0.
#[derive(Clone, Copy, Debug, PartialEq, Eq)]
enum Call {
    /// A letter brings the entry of this number, says that as many have passed, and names these followers.
    Store(u8, u8, u8),
    /// The node acknowledges the entry of this number.
    Ack(u32, NodeId),
    /// How many entries pass at node 1 among these members.
    Passing(u8),
    /// The lowest entry below this number is raised; where there is none, all below it have passed.
    Raise(u32),
    /// How many entries have passed.
    Done,
    /// How many entries are stored.
    Len,
}

/// What the logs answer.
#[derive(Clone, Copy, Debug, PartialEq, Eq)]
enum Answer {
    Stored(Store),
    Counts(bool),
    Count(u32),
    /// The version of the entry's first write.
    Raised(Option<u64>),
}

/// A call, and the answer that is wanted or that came.
type Row = (Call, Answer);

/// The letter of an entry with a write of the first object, whose version is one above the entry's number.
fn letter(alloc: Global, stream: &Stream, number: u8, done: u8, bits: u8) -> RInv
    ensures stream { result.stream ≡ stream.now }
    ensures number { result.number ≡ number }
{
    let mut writes = Writes::new(alloc);
    writes.push(Write {
        obj: ObjId(0),
        ver: u64::from(number) + 1,
        value: Value::Num(7),
    });
    RInv {
        stream: *stream,
        number: u32::from(number),
        done: u32::from(done),
        followers: NodeSet { bits },
        writes,
    }
}

fn first_version(entry: Option<&Kept>) -> Option<u64> {
    Some(entry?.writes.get(0)?.ver)
}

fn raise<W: Window<Kept>>(logs: &mut StoredOver<W>, stream: &Stream, done: u32) -> Option<u64>
    requires { IsStreamOf logs.old stream.now }
    ensures { (t : Stream) → IsStreamOf logs.old t → IsStreamOf logs.new t }
{
    let raised = logs.raise_one(*stream, done);
    if raised.is_none() {
        logs.raise_rest(*stream, done);
    }
    first_version(raised.as_ref())
}

fn call_logs<W: Window<Kept>>(
    alloc: Global,
    logs: &mut StoredOver<W>,
    stream: &Stream,
    call: Call,
) -> Answer
    requires { IsStreamOf logs.old stream.now }
    ensures { (t : Stream) → IsStreamOf logs.old t → IsStreamOf logs.new t }
{
    match call {
        Call::Store(number, done, followers) => {
            Answer::Stored(logs.store(&letter(alloc, stream, number, done, followers)))
        }
        Call::Ack(number, from) => Answer::Counts(logs.ack(*stream, number, from)),
        Call::Passing(bits) => { Answer::Count(logs.passing(*stream, NodeId(1), NodeSet { bits })) }
        Call::Raise(done) => Answer::Raised(raise(logs, stream, done)),
        Call::Done => Answer::Count(logs.done(*stream)),
        Call::Len => Answer::Count(logs.len(*stream)),
    }
}

/// The first call of the table that the logs answer otherwise than the table says, with its answer.
fn first_other<W: Window<Kept>>(
    alloc: Global,
    logs: &mut StoredOver<W>,
    stream: &Stream,
    table: &[Row],
) -> Option<Row>
    requires { IsStreamOf logs.old stream.now }
    ensures { (t : Stream) → IsStreamOf logs.old t → IsStreamOf logs.new t }
{
    for (call, wanted) in table {
        let came = call_logs(alloc, logs, stream, *call);
        if came != *wanted {
            return Some((*call, came));
        }
    }
    None
}

/// Three nodes of two slots each, and an object.
fn config(alloc: Global) -> Result<Config, AllocError>
    ensures nodes { IfOk result (λ config. config.nodes ≡ 3) }
    ensures slots { IfOk result (λ config. config.slots ≡ 2) }
{
    let object = ObjectDecl {
        value: Value::Num(7),
        owner: NodeId(0),
        replicas: NodeSet { bits: 0b011 },
    };
    Ok(Config {
        version: 1,
        nodes: 3,
        slots: 2,
        directory: NodeSet { bits: 0b001 },
        degree: None,
        objects: ObjectList::from_vec(vec![in alloc; object]?),
    })
}

/// The logs of a node at the start of a run.
fn start<W: NewWindow<Kept> + Drop>(
    alloc: Global,
    config: &Config,
) -> Result<StoredOver<W>, NoMemory>
    ensures { IfOk result (λ logs. (s : Stream) → s.node < config.now.nodes → s.slot < config.now.slots → IsStreamOf logs s) }
{
    let logs = StoredOver::new(alloc, config)?;
    Ok(logs)
}

/// The stream of a slot of node 0.
fn stream_of(slot: SlotId) -> Stream
    ensures { result ≡ record { node = 0; slot = slot } }
{
    Stream {
        node: NodeId(0),
        slot,
    }
}

/// What new logs over each window answer at the first slot of node 0 otherwise than the table says.
fn others(alloc: Global, table: &[Row]) -> Result<[Option<Row>; 2], Fail> {
    let config = config(alloc)?;
    let stream = &stream_of(SlotId(0));
    let mut ring: Stored = start(alloc, &config)?;
    let mut plain: StoredOver<PlainWindow<Kept>> = start(alloc, &config)?;
    Ok([
        first_other(alloc, &mut ring, stream, table),
        first_other(alloc, &mut plain, stream, table),
    ])
}

#[test]
fn an_entry_that_comes_before_a_lower_one_is_stored_after_it(rt: HostRuntime) -> Result<(), Fail> {
    let table = [
        (Call::Store(1, 0, 0b10), Answer::Stored(Store::Gap(0))),
        (Call::Store(0, 0, 0b10), Answer::Stored(Store::Stored)),
        (Call::Store(1, 0, 0b10), Answer::Stored(Store::Stored)),
        (Call::Len, Answer::Count(2)),
        (Call::Raise(2), Answer::Raised(Some(1))),
        (Call::Raise(2), Answer::Raised(Some(2))),
        (Call::Raise(2), Answer::Raised(None)),
        (Call::Done, Answer::Count(2)),
        (Call::Len, Answer::Count(0)),
    ];
    assert_eq!(rt; others(rt.alloc(), &table)?, [None, None]);
    Ok(())
}

#[test]
fn an_entry_is_stored_once_all_below_it_have_passed(rt: HostRuntime) -> Result<(), Fail> {
    let table = [
        (Call::Store(1, 0, 0b100), Answer::Stored(Store::Gap(0))),
        (Call::Raise(1), Answer::Raised(None)),
        (Call::Done, Answer::Count(1)),
        (Call::Store(1, 1, 0b100), Answer::Stored(Store::Stored)),
        (Call::Done, Answer::Count(1)),
        (Call::Len, Answer::Count(1)),
    ];
    assert_eq!(rt; others(rt.alloc(), &table)?, [None, None]);
    Ok(())
}

#[test]
fn the_seventeenth_entry_has_no_place(rt: HostRuntime) -> Result<(), Fail> {
    let numbers = [0, 1, 2, 3, 4, 5, 6, 7, 8, 9, 10, 11, 12, 13, 14, 15];
    let stores = numbers.map(|number| {
        (Call::Store(number, 0, 0b10), Answer::Stored(Store::Stored))
    });
    let full = [
        (Call::Store(16, 0, 0b10), Answer::Stored(Store::Window)),
        (Call::Store(17, 0, 0b10), Answer::Stored(Store::Gap(16))),
        (Call::Len, Answer::Count(16)),
        (Call::Done, Answer::Count(0)),
    ];
    let mut table = Vec::from_array(rt.alloc(), stores)?;
    table.extend_from_slice(&full)?;
    assert_eq!(rt; others(rt.alloc(), table.as_slice())?, [None, None]);
    Ok(())
}

/// What new logs answer at the streams of two slots otherwise than each of the tables of this function says.
fn others_of_two<W: Window<Kept>>(
    alloc: Global,
    logs: &mut StoredOver<W>,
    first: &Stream,
    second: &Stream,
) -> [Option<Row>; 4]
    requires first { IsStreamOf logs.old first.now }
    requires second { IsStreamOf logs.old second.now }
{
    let stored = [(Call::Store(0, 0, 0b110), Answer::Stored(Store::Stored))];
    let acknowledged = [
        (Call::Ack(0, NodeId(2)), Answer::Counts(true)),
        (Call::Passing(0b111), Answer::Count(1)),
        (Call::Raise(1), Answer::Raised(Some(1))),
        (Call::Done, Answer::Count(1)),
    ];
    let waits = [
        (Call::Passing(0b111), Answer::Count(0)),
        (Call::Done, Answer::Count(0)),
        (Call::Len, Answer::Count(1)),
        (Call::Ack(0, NodeId(2)), Answer::Counts(true)),
    ];
    [
        first_other(alloc, logs, first, &stored),
        first_other(alloc, logs, second, &stored),
        first_other(alloc, logs, first, &acknowledged),
        first_other(alloc, logs, second, &waits),
    ]
}

#[test]
fn an_acknowledgement_of_one_slot_leaves_the_other(rt: HostRuntime) -> Result<(), Fail> {
    let alloc = rt.alloc();
    let config = config(alloc)?;
    let (first, second) = (stream_of(SlotId(0)), stream_of(SlotId(1)));
    let none = [None, None, None, None];
    let mut ring: Stored = start(alloc, &config)?;
    assert_eq!(rt; others_of_two(alloc, &mut ring, &first, &second), none);
    let mut plain: StoredOver<PlainWindow<Kept>> = start(alloc, &config)?;
    assert_eq!(rt; others_of_two(alloc, &mut plain, &first, &second), none);
    Ok(())
}

#[test]
fn each_acknowledgement_counts_once_and_entries_are_raised_in_order(
    rt: HostRuntime,
) -> Result<(), Fail> {
    let table = [
        (Call::Store(0, 0, 0b110), Answer::Stored(Store::Stored)),
        (Call::Store(1, 0, 0b110), Answer::Stored(Store::Stored)),
        (Call::Store(0, 0, 0b110), Answer::Stored(Store::Again)),
        (Call::Passing(0b111), Answer::Count(0)),
        (Call::Ack(1, NodeId(2)), Answer::Counts(true)),
        (Call::Ack(1, NodeId(2)), Answer::Counts(false)),
        (Call::Ack(2, NodeId(2)), Answer::Counts(false)),
        (Call::Passing(0b111), Answer::Count(0)),
        (Call::Passing(0b011), Answer::Count(2)),
        (Call::Ack(0, NodeId(2)), Answer::Counts(true)),
        (Call::Passing(0b111), Answer::Count(2)),
        (Call::Raise(1), Answer::Raised(Some(1))),
        (Call::Raise(1), Answer::Raised(None)),
        (Call::Raise(4), Answer::Raised(Some(2))),
        (Call::Done, Answer::Count(2)),
        (Call::Raise(4), Answer::Raised(None)),
        (Call::Done, Answer::Count(4)),
        (Call::Len, Answer::Count(0)),
        (Call::Store(1, 0, 0b110), Answer::Stored(Store::Again)),
    ];
    assert_eq!(rt; others(rt.alloc(), &table)?, [None, None]);
    Ok(())
}
