//! Tables of typical calls with their answers, the same over both windows.
use commit_pipeline::{Due, Full, Pending, Pipe, PipeOver, PlainPipe};
use std::alloc::Global;
use std::test::Fail;
use zeus_base::{NoMemory, NodeId, NodeSet, TxId};
use zeus_packet::{Window, Writes};
use zeus_txn::{Named, Reply, Values};

/// A call of a pipe of node 0. A set of nodes is given by its bits, the lowest being that of node 0.
#[derive(Clone, Copy, Debug, PartialEq, Eq)]
enum Call {
    /// An entry is pushed that these nodes have to acknowledge.
    Push(u8),
    /// The node acknowledges the entry of this number.
    Ack(u32, NodeId),
    /// How many entries pass among these members.
    Passing(u8),
    /// The lowest entry is taken out.
    Pass,
    /// The pending entry at this place.
    Pending(u32),
    /// The send at this place among those that are due to these members.
    Outstanding(u8, u32),
    /// How many entries have passed.
    Done,
    /// How many entries are pending.
    Len,
}

/// What a pipe answers.
#[derive(Clone, Copy, Debug, PartialEq, Eq)]
enum Answer {
    Pushed(Result<u32, Full>),
    Counts(bool),
    Count(u32),
    /// The number and the node of a send.
    Due(Option<(u32, u8)>),
    /// The transaction of an entry.
    Entry(Option<TxId>),
}

/// A call, and the answer that is wanted or that came.
type Row = (Call, Answer);

/// An entry of a transaction of node 0.
fn entry(alloc: Global, id: TxId, followers: u8) -> Pending {
    Pending {
        id,
        reply: Reply {
            values: Values::new(alloc),
            failed: None,
        },
        named: Named::new(alloc),
        followers: NodeSet { bits: followers },
        writes: Writes::new(alloc),
        acks: NodeSet::empty(),
    }
}

/// An entry is pushed while the numbers are low. Its transaction has the number that the entry is to get.
fn push<W: Window<Pending>>(alloc: Global, pipe: &mut PipeOver<W>, followers: u8) -> Answer {
    let number = pipe.done() + pipe.len();
    if number >= 1000 {
        return Answer::Pushed(Err(Full));
    }
    Answer::Pushed(pipe.push(entry(alloc, TxId(number), followers)))
}

/// The number and the node of a send.
fn parts(due: Due) -> (u32, u8) {
    (due.number, due.to.0)
}

fn call_pipe<W: Window<Pending>>(alloc: Global, pipe: &mut PipeOver<W>, call: Call) -> Answer {
    match call {
        Call::Push(followers) => push(alloc, pipe, followers),
        Call::Ack(number, from) => Answer::Counts(pipe.ack(number, from)),
        Call::Passing(bits) => Answer::Count(pipe.passing(NodeId(0), NodeSet { bits })),
        Call::Pass => Answer::Entry(pipe.pass().map(|entry| entry.id)),
        Call::Pending(place) => Answer::Entry(pipe.pending(place).map(|entry| entry.id)),
        Call::Outstanding(bits, place) => {
            Answer::Due(pipe.outstanding(NodeSet { bits }, place).map(parts))
        }
        Call::Done => Answer::Count(pipe.done()),
        Call::Len => Answer::Count(pipe.len()),
    }
}

/// The first call of the table that the pipe answers otherwise than the table says, with its answer.
fn first_other<W: Window<Pending>>(
    alloc: Global,
    pipe: &mut PipeOver<W>,
    table: &[Row],
) -> Option<Row> {
    for (call, wanted) in table {
        let came = call_pipe(alloc, pipe, *call);
        if came != *wanted {
            return Some((*call, came));
        }
    }
    None
}

/// What new pipes over each window answer otherwise than the table says.
fn others(alloc: Global, table: &[Row]) -> Result<[Option<Row>; 2], NoMemory> {
    let mut ring = Pipe::new(alloc)?;
    let mut plain = PlainPipe::new(alloc)?;
    Ok([
        first_other(alloc, &mut ring, table),
        first_other(alloc, &mut plain, table),
    ])
}

#[test]
fn entries_pass_together_where_the_second_is_acknowledged_first(
    rt: HostRuntime,
) -> Result<(), Fail> {
    let table = [
        (Call::Push(0b10), Answer::Pushed(Ok(0))),
        (Call::Push(0b10), Answer::Pushed(Ok(1))),
        (Call::Ack(1, NodeId(1)), Answer::Counts(true)),
        (Call::Passing(0b11), Answer::Count(0)),
        (Call::Ack(0, NodeId(1)), Answer::Counts(true)),
        (Call::Passing(0b11), Answer::Count(2)),
        (Call::Pass, Answer::Entry(Some(TxId(0)))),
        (Call::Pass, Answer::Entry(Some(TxId(1)))),
        (Call::Pass, Answer::Entry(None)),
        (Call::Done, Answer::Count(2)),
        (Call::Len, Answer::Count(0)),
    ];
    assert_eq!(rt; others(rt.alloc(), &table)?, [None, None]);
    Ok(())
}

#[test]
fn an_entry_stays_due_to_its_own_follower(rt: HostRuntime) -> Result<(), Fail> {
    let table = [
        (Call::Push(0b010), Answer::Pushed(Ok(0))),
        (Call::Push(0b100), Answer::Pushed(Ok(1))),
        (Call::Ack(0, NodeId(1)), Answer::Counts(true)),
        (Call::Passing(0b111), Answer::Count(1)),
        (Call::Pass, Answer::Entry(Some(TxId(0)))),
        (Call::Done, Answer::Count(1)),
        (Call::Outstanding(0b111, 0), Answer::Due(Some((1, 2)))),
        (Call::Outstanding(0b111, 1), Answer::Due(None)),
        (Call::Ack(1, NodeId(2)), Answer::Counts(true)),
        (Call::Passing(0b111), Answer::Count(1)),
        (Call::Pass, Answer::Entry(Some(TxId(1)))),
        (Call::Done, Answer::Count(2)),
    ];
    assert_eq!(rt; others(rt.alloc(), &table)?, [None, None]);
    Ok(())
}

#[test]
fn the_seventeenth_entry_has_no_place(rt: HostRuntime) -> Result<(), Fail> {
    let numbers = [0, 1, 2, 3, 4, 5, 6, 7, 8, 9, 10, 11, 12, 13, 14, 15];
    let pushes = numbers.map(|number| (Call::Push(0xff), Answer::Pushed(Ok(number))));
    let full = [
        (Call::Push(0xff), Answer::Pushed(Err(Full))),
        (Call::Len, Answer::Count(16)),
        (Call::Done, Answer::Count(0)),
        (Call::Outstanding(0xff, 127), Answer::Due(Some((15, 7)))),
        (Call::Outstanding(0xff, 128), Answer::Due(None)),
    ];
    let mut table = Vec::from_array(rt.alloc(), pushes)?;
    table.extend_from_slice(&full)?;
    assert_eq!(rt; others(rt.alloc(), table.as_slice())?, [None, None]);
    Ok(())
}

/// What the new pipes of two slots answer otherwise than each of the tables of this function says.
fn others_of_two<W: Window<Pending>>(
    alloc: Global,
    first: &mut PipeOver<W>,
    second: &mut PipeOver<W>,
) -> [Option<Row>; 4] {
    let pushed = [(Call::Push(0b10), Answer::Pushed(Ok(0)))];
    let acknowledged = [
        (Call::Ack(0, NodeId(1)), Answer::Counts(true)),
        (Call::Passing(0b11), Answer::Count(1)),
        (Call::Pass, Answer::Entry(Some(TxId(0)))),
        (Call::Done, Answer::Count(1)),
    ];
    let waits = [
        (Call::Passing(0b11), Answer::Count(0)),
        (Call::Outstanding(0b11, 0), Answer::Due(Some((0, 1)))),
        (Call::Done, Answer::Count(0)),
        (Call::Ack(0, NodeId(1)), Answer::Counts(true)),
    ];
    [
        first_other(alloc, first, &pushed),
        first_other(alloc, second, &pushed),
        first_other(alloc, first, &acknowledged),
        first_other(alloc, second, &waits),
    ]
}

#[test]
fn an_acknowledgement_of_one_slot_leaves_the_other(rt: HostRuntime) -> Result<(), Fail> {
    let alloc = rt.alloc();
    let none = [None, None, None, None];
    let (mut first, mut second) = (Pipe::new(alloc)?, Pipe::new(alloc)?);
    assert_eq!(rt; others_of_two(alloc, &mut first, &mut second), none);
    let (mut first, mut second) = (PlainPipe::new(alloc)?, PlainPipe::new(alloc)?);
    assert_eq!(rt; others_of_two(alloc, &mut first, &mut second), none);
    Ok(())
}

#[test]
fn each_acknowledgement_counts_once_and_entries_pass_in_order(rt: HostRuntime) -> Result<(), Fail> {
    let table = [
        (Call::Push(0b0110), Answer::Pushed(Ok(0))),
        (Call::Push(0b0110), Answer::Pushed(Ok(1))),
        (Call::Push(0b1010), Answer::Pushed(Ok(2))),
        (Call::Outstanding(0b1111, 0), Answer::Due(Some((0, 1)))),
        (Call::Outstanding(0b1111, 1), Answer::Due(Some((0, 2)))),
        (Call::Outstanding(0b1111, 2), Answer::Due(Some((1, 1)))),
        (Call::Outstanding(0b1111, 3), Answer::Due(Some((1, 2)))),
        (Call::Outstanding(0b1111, 4), Answer::Due(Some((2, 1)))),
        (Call::Outstanding(0b1111, 5), Answer::Due(Some((2, 3)))),
        (Call::Outstanding(0b1111, 6), Answer::Due(None)),
        (Call::Ack(1, NodeId(2)), Answer::Counts(true)),
        (Call::Ack(1, NodeId(1)), Answer::Counts(true)),
        (Call::Ack(1, NodeId(1)), Answer::Counts(false)),
        (Call::Ack(3, NodeId(1)), Answer::Counts(false)),
        (Call::Passing(0b1111), Answer::Count(0)),
        (Call::Ack(0, NodeId(1)), Answer::Counts(true)),
        (Call::Ack(0, NodeId(2)), Answer::Counts(true)),
        (Call::Passing(0b1111), Answer::Count(2)),
        (Call::Passing(0b0101), Answer::Count(3)),
        (Call::Outstanding(0b1111, 0), Answer::Due(Some((2, 1)))),
        (Call::Outstanding(0b1111, 1), Answer::Due(Some((2, 3)))),
        (Call::Outstanding(0b1001, 0), Answer::Due(Some((2, 3)))),
        (Call::Outstanding(0b1001, 1), Answer::Due(None)),
        (Call::Pass, Answer::Entry(Some(TxId(0)))),
        (Call::Done, Answer::Count(1)),
        (Call::Pending(0), Answer::Entry(Some(TxId(1)))),
        (Call::Len, Answer::Count(2)),
    ];
    assert_eq!(rt; others(rt.alloc(), &table)?, [None, None]);
    Ok(())
}
