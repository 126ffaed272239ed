ghost use Rattle.std.specs.Prelude.{◌≤◌};
ghost use Rattle.zeus_wire.specs.Ranges.{AreLimits};

use std::alloc::Global;
use std::test::Fail;
use zeus_base::Text;
use zeus_packet::{
    Body, Letter, Limits, NodeId, NodeSet, ObjId, Packet, RInv, SlotId, Stream, Value, Want, Write,
    Writes, fits,
};
use zeus_wire::{
    WireFault, decode, decode_front, encode, encode_into, encode_letter_into, largest, longest,
};

// The first entry of node 0's slot: it makes 8 of object 0, and node 1 follows.
const ENTRY: [u8; 42] = [
    1, 0, 0, 0, 0, 0, 1, 0, 0, 0, 1, 1, 0, 0, 0, 0, 0, 0, 0, 0, 0, 0, 2, 1, 0, 0, 0, 0, 0, 0, 0, 0,
    0, 1, 0, 0, 0, 0, 0, 0, 0, 8,
];

// The same of the text `busy`, in version 2.
const TEXT_ENTRY: [u8; 39] = [
    2, 0, 0, 0, 0, 0, 1, 0, 0, 0, 1, 1, 0, 0, 0, 0, 0, 0, 0, 0, 0, 0, 2, 1, 0, 0, 0, 0, 0, 0, 0, 0,
    0, 1, 4, 0x62, 0x75, 0x73, 0x79,
];

fn limits(version: u8) -> Limits
    requires one { 1 ≤ version }
    requires two { version ≤ 2 }
    ensures { AreLimits result }
{
    Limits {
        version,
        nodes: 2,
        slots: 1,
        objects: 1,
    }
}

fn entry(alloc: Global, value: Value) -> Packet {
    let mut writes = Writes::new(alloc);
    writes.push(Write {
        obj: ObjId(0),
        ver: 1,
        value,
    });
    let stream = Stream {
        node: NodeId(0),
        slot: SlotId(0),
    };
    let body = Body::RInv(RInv {
        stream,
        number: 0,
        done: 0,
        followers: NodeSet { bits: 0b10 },
        writes,
    });
    letter(0, body)
}

fn letter(number: u32, body: Body) -> Packet {
    Packet {
        number,
        letter: Letter {
            from: NodeId(0),
            to: NodeId(1),
            epoch: 1,
            body,
        },
    }
}

// The packet's bytes, where it fits.
fn written(alloc: Global, packet: &Packet, version: u8) -> Result<Vec<u8>, Fail> {
    if !fits(&packet.letter, &largest(version)) {
        return Err(Fail::from("the packet does not fit"));
    }
    Ok(encode(alloc, packet, version)?)
}

// The bytes of the packet that was read.
fn read_and_written(alloc: Global, bytes: &[u8], limits: &Limits) -> Result<Vec<u8>, Fail>
    requires { AreLimits limits.now }
{
    match &decode(alloc, bytes, limits) {
        Ok(packet) => written(alloc, packet, limits.version),
        Err(fault) => Err(Fail::from(*fault)),
    }
}

fn fault_of<T>(read: &Result<T, WireFault>) -> Option<WireFault> {
    match read {
        Ok(_) => None,
        Err(fault) => Some(*fault),
    }
}

// The place and the kind of the fault that is met.
fn fault(alloc: Global, bytes: &[u8]) -> Option<WireFault> {
    fault_of(&decode(alloc, bytes, &limits(1)))
}

// The fault after bytes from a place on are changed.
fn changed(alloc: Global, place: usize, bytes: &[u8]) -> Option<WireFault> {
    let mut all = ENTRY;
    for (byte, new) in all.iter_mut().skip(place).zip(bytes) {
        *byte = *new;
    }
    fault(alloc, &all)
}

#[test]
fn spells_an_entry(rt: HostRuntime) -> Result<(), Fail> {
    let packet = entry(rt.alloc(), Value::Num(8));
    assert_eq!(rt;
        written(rt.alloc(), &packet, 1)?.as_slice(),
        ENTRY.as_slice()
    );
    let text = Text::new(b"busy").expect(&rt, "a text");
    let packet = entry(rt.alloc(), Value::Text(text));
    assert_eq!(rt;
        written(rt.alloc(), &packet, 2)?.as_slice(),
        TEXT_ENTRY.as_slice()
    );
    Ok(())
}

#[test]
fn reads_an_entry(rt: HostRuntime) {
    assert!(rt; fault(rt.alloc(), &ENTRY).is_none());
    assert!(rt; decode(rt.alloc(), &TEXT_ENTRY, &limits(2)).is_ok());
    assert!(rt; matches!(decode_front(rt.alloc(), &ENTRY, &limits(1)), Ok((_, 42))));
}

#[test]
fn each_front_is_short_at_its_length(rt: HostRuntime) {
    for count in 0..42 {
        let short = WireFault::Short { at: count as u64 };
        assert_eq!(rt; fault(rt.alloc(), &ENTRY[..count]), Some(short));
    }
}

#[test]
fn bytes_behind_the_packet_are_extra(rt: HostRuntime) -> Result<(), Fail> {
    let mut bytes = Vec::from_slice(rt.alloc(), &ENTRY)?;
    bytes.push(0)?;
    assert_eq!(rt;
        fault(rt.alloc(), &bytes),
        Some(WireFault::Extra { at: 42 })
    );
    Ok(())
}

#[test]
fn one_changed_field_is_a_fault_at_its_place(rt: HostRuntime) {
    let bad = |at: u64| Some(WireFault::BadField { at });
    let cases: [(usize, &[u8], Option<WireFault>); 17] = [
        (0, &[3], bad(0)),
        (0, &[2], bad(0)),
        (5, &[2], bad(5)),
        (6, &[2], bad(6)),
        (7, &[0, 0, 0, 0], bad(7)),
        (11, &[0], Some(WireFault::BadTag { at: 11, byte: 0 })),
        (11, &[10], Some(WireFault::BadTag { at: 11, byte: 10 })),
        (12, &[2], bad(12)),
        (13, &[1], bad(13)),
        (14, &[255, 255, 255, 255], bad(14)),
        (21, &[1], bad(18)),
        (22, &[4], bad(22)),
        (23, &[0], bad(23)),
        (23, &[9], bad(23)),
        (23, &[2], Some(WireFault::Short { at: 42 })),
        (25, &[1], bad(24)),
        (41, &[9], None),
    ];
    for (place, bytes, wanted) in cases {
        assert_eq!(rt; changed(rt.alloc(), place, bytes), wanted, "{place}");
    }
}

// A packet of this tag and these fields, from node 0 to node 1 in epoch 1.
fn spelled(alloc: Global, version: u8, fields: &[u8]) -> Result<Vec<u8>, Fail> {
    let mut bytes = Vec::from_slice(alloc, &[version, 0, 0, 0, 7, 0, 1, 0, 0, 0, 1])?;
    bytes.extend_from_slice(fields)?;
    Ok(bytes)
}

// The proposal that node 1 wants of object 0: stamp 2.0, requester 1, base 1.0 with owner 0 and replicas 0 and 1.
const PROPOSAL: [u8; 21] = [
    0, 0, 0, 0, 0, 0, 0, 2, 0, 1, 0, 0, 0, 0, 0, 0, 0, 1, 0, 0, 3,
];

#[test]
fn each_wish_has_its_tag(rt: HostRuntime) -> Result<(), Fail> {
    let heads: [&[u8]; 9] = [
        &[4, 0, 0],
        &[20, 0, 0, 1],
        &[20, 0, 0, 2],
        &[5, 0, 0],
        &[21, 0, 0, 1],
        &[21, 0, 0, 2],
        &[6, 0, 0],
        &[22, 0, 0, 1],
        &[22, 0, 0, 2],
    ];
    for (place, head) in heads.iter().enumerate() {
        let mut bytes = spelled(rt.alloc(), 1, head)?;
        if place >= 3 {
            bytes.extend_from_slice(&PROPOSAL)?;
        }
        if place >= 6 {
            bytes.push(0)?;
        }
        let read = decode(rt.alloc(), &bytes, &limits(1));
        let Ok(packet) = &read else {
            return Err(Fail::from("no packet"));
        };
        let wanted = match place % 3 {
            0 => Want::Own,
            1 => Want::Read,
            _ => Want::Leave,
        };
        let (kind, want) = match &packet.letter.body {
            Body::OReq(_, want) => (0, *want),
            Body::OInv(_, p) => (1, p.want),
            Body::OAck(_, p, _) => (2, p.want),
            _ => (3, Want::Own),
        };
        assert_eq!(rt; kind, place / 3);
        assert!(rt; want == wanted, "{place}");
        assert_eq!(rt;
            written(rt.alloc(), packet, 1)?.as_slice(),
            bytes.as_slice()
        );
    }
    Ok(())
}

#[test]
fn who_leaves_is_a_replica_and_not_the_owner(rt: HostRuntime) -> Result<(), Fail> {
    let mut bytes = spelled(rt.alloc(), 1, &[21, 0, 0, 2])?;
    bytes.extend_from_slice(&PROPOSAL)?;
    // A base of the replica 0 alone, and then a requester that is the base's owner.
    for (place, byte, at) in [(35, 1, 35), (24, 0, 34)] {
        if let Some(changed) = bytes.get_mut(place) {
            *changed = byte;
        }
        assert_eq!(rt; fault(rt.alloc(), &bytes), Some(WireFault::BadField { at }));
    }
    Ok(())
}

fn eight_objects(version: u8) -> Limits
    requires one { 1 ≤ version }
    requires two { version ≤ 2 }
    ensures { AreLimits result }
{
    Limits {
        version,
        nodes: 2,
        slots: 1,
        objects: 8,
    }
}

// Each of 8 objects written; the value's bytes follow the object and the version.
fn longest_packet(alloc: Global, version: u8, value: &[u8]) -> Result<Vec<u8>, Fail> {
    let mut bytes = spelled(alloc, version, &[1, 0, 0, 0, 0, 0, 9, 0, 0, 0, 9, 3, 8])?;
    for obj in 0..8 {
        bytes.extend_from_slice(&[0, obj, 0, 0, 0, 0, 0, 0, 0, 1])?;
        bytes.extend_from_slice(value)?;
    }
    Ok(bytes)
}

#[test]
fn the_longest_packets_are_read_and_written(rt: HostRuntime) -> Result<(), Fail> {
    let numbers = longest_packet(rt.alloc(), 1, &[255; 8])?;
    assert_eq!(rt; numbers.len(), longest(1));
    let again = read_and_written(rt.alloc(), &numbers, &eight_objects(1))?;
    assert_eq!(rt; again.as_slice(), numbers.as_slice());
    let mut text = [b'z'; 33];
    text[0] = 32;
    let texts = longest_packet(rt.alloc(), 2, &text)?;
    assert_eq!(rt; texts.len(), longest(2));
    let again = read_and_written(rt.alloc(), &texts, &eight_objects(2))?;
    assert_eq!(rt; again.as_slice(), texts.as_slice());
    Ok(())
}

#[test]
fn an_object_twice_is_a_fault_at_its_second_place(rt: HostRuntime) -> Result<(), Fail> {
    let mut bytes = longest_packet(rt.alloc(), 1, &[0; 8])?;
    for place in 42..44 {
        if let Some(byte) = bytes.get_mut(place) {
            *byte = 0;
        }
    }
    let wanted = WireFault::BadField { at: 42 };
    assert_eq!(rt;
        fault_of(&decode(rt.alloc(), &bytes, &eight_objects(1))),
        Some(wanted)
    );
    Ok(())
}

#[test]
fn texts_are_printable_and_at_most_32_bytes(rt: HostRuntime) {
    let bad = |at: u64| Some(WireFault::BadField { at });
    let cases: [(usize, u8, Option<WireFault>); 4] = [
        (34, 33, bad(34)),
        (35, 32, bad(35)),
        (38, 127, bad(35)),
        (34, 5, Some(WireFault::Short { at: 39 })),
    ];
    for (place, byte, wanted) in cases {
        let mut bytes = TEXT_ENTRY;
        if let Some(changed) = bytes.get_mut(place) {
            *changed = byte;
        }
        assert_eq!(rt; fault_of(&decode(rt.alloc(), &bytes, &limits(2))), wanted);
    }
}

#[test]
#[tactic(auto, unfolding(zeus_wire::specs::Ranges::longest))]
fn packets_are_appended_one_behind_the_other(rt: HostRuntime) -> Result<(), Fail> {
    let packet = entry(rt.alloc(), Value::Num(8));
    let mut out = Vec::with_capacity(rt.alloc(), 400)?;
    assert!(rt; fits(&packet.letter, &largest(1)));
    encode_into(&packet, 1, &mut out);
    encode_letter_into(7, &packet.letter, 1, &mut out);
    assert_eq!(rt; out.len(), 84);
    assert!(rt; matches!(decode_front(rt.alloc(), &out, &limits(1)), Ok((_, 42))));
    let second = decode(rt.alloc(), &out[42..], &limits(1));
    assert!(rt; matches!(&second, Ok(packet) if packet.number == 7));
    Ok(())
}
