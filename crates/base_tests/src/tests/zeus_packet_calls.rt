//! Tests of typical calls.
use std::alloc::Global;
use std::test::Fail;
use zeus_base::{Limits, NodeId, NodeSet, ObjId, SlotId, Stamp, Stream, Value};
use zeus_packet::{
    Body, Letter, NewWindow, Place, PlainWindow, Proposal, RInv, RingWindow, Want, Window, Write,
    Writes, arbiters, fits, new_place, source,
};

// The nodes whose bits are set, the lowest bit being that of node 0.
fn set(bits: u8) -> NodeSet {
    NodeSet { bits }
}

fn stamp(ver: u64, driver: NodeId) -> Stamp {
    Stamp { ver, driver }
}

fn limits(version: u8, nodes: u8) -> Limits {
    Limits {
        version,
        nodes,
        slots: 1,
        objects: 1,
    }
}

// The first entry of node 0's slot, which makes the value of object 0 with version 1; node 1 follows.
fn entry(alloc: Global, value: Value) -> Letter {
    let mut writes = Writes::new(alloc);
    writes.push(Write {
        obj: ObjId(0),
        ver: 1,
        value,
    });
    Letter {
        from: NodeId(0),
        to: NodeId(1),
        epoch: 1,
        body: Body::RInv(RInv {
            stream: Stream {
                node: NodeId(0),
                slot: SlotId(0),
            },
            number: 0,
            done: 0,
            followers: set(0b10),
            writes,
        }),
    }
}

#[test]
fn the_source_and_the_arbiters_of_a_placement(rt: HostRuntime) {
    let place = Place {
        owner: NodeId(2),
        replicas: set(0b111),
    };
    assert_eq!(rt; source(&place, set(0b111)), Some(NodeId(2)));
    assert_eq!(rt; source(&place, set(0b010)), Some(NodeId(1)));
    assert_eq!(rt; source(&place, set(0b1000)), None);
    assert_eq!(rt; arbiters(&place, set(0b111), set(0b001)), set(0b101));
}

#[test]
fn a_reader_comes_and_goes(rt: HostRuntime) {
    let place = Place {
        owner: NodeId(0),
        replicas: set(0b011),
    };
    let mut p = Proposal {
        stamp: stamp(1, NodeId(0)),
        requester: NodeId(2),
        base: stamp(0, NodeId(0)),
        base_place: place,
        want: Want::Read,
    };
    let read = new_place(&p);
    assert_eq!(rt; read.owner, NodeId(0));
    assert_eq!(rt; read.replicas, set(0b111));
    p.base_place = read;
    p.want = Want::Leave;
    assert!(rt; new_place(&p) == place);
}

#[test]
fn letters_beyond_the_limits_do_not_fit(rt: HostRuntime) {
    let letter = entry(rt.alloc(), Value::Num(8));
    let copy = letter.duplicate();
    assert!(rt; fits(&copy, &limits(1, 2)));
    assert!(rt; !fits(&copy, &limits(1, 1)));
    let body = Body::OVal(
        ObjId(1),
        stamp(1, NodeId(0)),
        Place {
            owner: NodeId(0),
            replicas: set(0b1),
        },
    );
    let val = Letter { body, ..letter };
    assert!(rt; !fits(&val, &limits(1, 2)));
}

// What a window with no item answers: 17 items are pushed, two are popped, and the last is written over.
fn window_answers<W: Window<u32>>(window: &mut W) -> [Option<u32>; 8] {
    for item in 10..26 {
        let _ = window.push(item);
    }
    let refused = window.push(26).err();
    let count = window.len();
    let first = window.pop();
    if let Some(last) = window.get_mut(14) {
        *last = 99;
    }
    let items = [0, 14, 15].map(|place| window.get(place).copied());
    [
        refused,
        Some(count),
        first,
        items[0],
        items[1],
        items[2],
        window.pop(),
        Some(window.len()),
    ]
}

#[test]
fn windows_hold_sixteen_items_in_order(rt: HostRuntime) -> Result<(), Fail> {
    let wanted = [
        Some(26),
        Some(16),
        Some(10),
        Some(11),
        Some(99),
        None,
        Some(11),
        Some(14),
    ];
    let mut plain = PlainWindow::new(rt.alloc())?;
    let mut ring = RingWindow::new(rt.alloc())?;
    assert_eq!(rt; window_answers(&mut plain), wanted);
    assert_eq!(rt; window_answers(&mut ring), wanted);
    Ok(())
}
