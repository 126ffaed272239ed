//! Tests of typical calls.
ghost use Rattle.std.specs.Prelude.{◌≡◌, IfOk, length};

use object_table::{Copies, Copy};
use std::alloc::{AllocError, Global};
use std::test::Fail;
use zeus_base::{Config, NodeId, NodeSet, ObjId, ObjectDecl, ObjectList, SlotId, Value};
use zeus_packet::{Content, State, Write};

/// Two nodes, both replicas of object 0; node 0 alone has object 1.
fn config(alloc: Global) -> Result<Config, AllocError>
    ensures { IfOk result (λ config. length config.objects ≡ 2) }
{
    let first = NodeSet::empty().insert(NodeId(0));
    let shared = ObjectDecl {
        value: Value::Num(5),
        owner: NodeId(0),
        replicas: first.insert(NodeId(1)),
    };
    let alone = ObjectDecl {
        value: Value::Num(6),
        owner: NodeId(0),
        replicas: first,
    };
    Ok(Config {
        version: 1,
        nodes: 2,
        slots: 2,
        directory: first,
        degree: None,
        objects: ObjectList::from_vec(vec![in alloc; shared, alone]?),
    })
}

fn copy(value: u64, ver: u64, state: State) -> Option<Copy> {
    Some(Copy {
        value: Value::Num(value),
        ver,
        state,
    })
}

#[test]
fn a_follower_applies_and_validates(rt: HostRuntime) -> Result<(), Fail> {
    let alloc = rt.alloc();
    let mut copies = Copies::new(alloc, &config(alloc)?, NodeId(1))?;
    assert_eq!(rt; copies.copy(ObjId(0)), copy(5, 0, State::Valid));
    assert_eq!(rt; copies.copy(ObjId(1)), None);
    assert_eq!(rt; copies.copy(ObjId(2)), None);
    let write = Write {
        obj: ObjId(0),
        ver: 1,
        value: Value::Num(9),
    };
    assert!(rt; copies.apply(&write));
    assert_eq!(rt; copies.copy(ObjId(0)), copy(9, 1, State::Invalid));
    assert!(rt; !copies.apply(&write));
    copies.validate(ObjId(0), 2);
    assert_eq!(rt; copies.copy(ObjId(0)), copy(9, 1, State::Invalid));
    copies.validate(ObjId(0), 1);
    assert_eq!(rt; copies.copy(ObjId(0)), copy(9, 1, State::Valid));
    let elsewhere = Write {
        obj: ObjId(1),
        ..write
    };
    assert!(rt; !copies.apply(&elsewhere));
    assert_eq!(rt; copies.copy(ObjId(1)), None);
    Ok(())
}

#[test]
fn an_owner_writes_and_moves_a_copy(rt: HostRuntime) -> Result<(), Fail> {
    let alloc = rt.alloc();
    let mut copies = Copies::new(alloc, &config(alloc)?, NodeId(0))?;
    copies.write(ObjId(1), Value::Num(7));
    assert_eq!(rt; copies.copy(ObjId(1)), copy(7, 1, State::Write));
    assert_eq!(rt; copies.copy(ObjId(0)), copy(5, 0, State::Valid));
    copies.drop_copy(ObjId(0));
    assert_eq!(rt; copies.copy(ObjId(0)), None);
    assert_eq!(rt; copies.copy(ObjId(1)), copy(7, 1, State::Write));
    let content = Content {
        ver: 4,
        value: Value::Num(8),
    };
    copies.place_copy(ObjId(0), &content);
    copies.place_copy(ObjId(1), &content);
    assert_eq!(rt; copies.copy(ObjId(0)), copy(8, 4, State::Valid));
    assert_eq!(rt; copies.copy(ObjId(1)), copy(8, 4, State::Valid));
    Ok(())
}

#[test]
fn an_object_is_free_after_as_many_calls(rt: HostRuntime) -> Result<(), Fail> {
    let alloc = rt.alloc();
    let mut copies = Copies::new(alloc, &config(alloc)?, NodeId(0))?;
    assert_eq!(rt; copies.holder(ObjId(0)), None);
    copies.hold(ObjId(0), SlotId(1));
    copies.hold(ObjId(0), SlotId(1));
    copies.hold(ObjId(1), SlotId(0));
    assert_eq!(rt; copies.holder(ObjId(0)), Some(SlotId(1)));
    copies.unhold(ObjId(0));
    assert_eq!(rt; copies.holder(ObjId(0)), Some(SlotId(1)));
    copies.unhold(ObjId(0));
    assert_eq!(rt; copies.holder(ObjId(0)), None);
    assert_eq!(rt; copies.holder(ObjId(1)), Some(SlotId(0)));
    copies.hold(ObjId(0), SlotId(0));
    assert_eq!(rt; copies.holder(ObjId(0)), Some(SlotId(0)));
    copies.unhold(ObjId(1));
    copies.unhold(ObjId(1));
    assert_eq!(rt; copies.holder(ObjId(1)), None);
    Ok(())
}
