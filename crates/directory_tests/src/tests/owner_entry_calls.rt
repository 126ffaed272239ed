//! Tests of typical calls.
use owner_entry::{Accept, Dir, Entry, OwnerEntry};
use std::test::Fail;
use zeus_base::{Config, NodeId, NodeSet, ObjId, ObjectDecl, ObjectList, Stamp, Value};
use zeus_packet::{Place, Proposal, Want};

/// The wish of node 1 to own an object at nodes 0 and 1 that node 0 owns, as a proposal of this stamp.
fn proposal(stamp: &Stamp) -> Proposal {
    let base = Stamp {
        ver: 0,
        driver: NodeId(0),
    };
    Proposal {
        stamp: *stamp,
        requester: NodeId(1),
        base,
        base_place: place(NodeId(0)),
        want: Want::Own,
    }
}

fn place(owner: NodeId) -> Place {
    Place {
        owner,
        replicas: NodeSet::empty().insert(NodeId(0)).insert(NodeId(1)),
    }
}

fn stamp(ver: u64, driver: NodeId) -> Stamp {
    Stamp { ver, driver }
}

#[test]
fn an_entry_holds_the_greatest_proposal(rt: HostRuntime) {
    let mut entry = Entry {
        stamp: stamp(0, NodeId(0)),
        place: place(NodeId(0)),
        proposal: None,
    };
    assert!(rt; entry.owns(NodeId(0)));
    assert!(rt; !entry.owns(NodeId(1)));
    let second = proposal(&stamp(1, NodeId(2)));
    assert_eq!(rt; entry.accept(&second), Accept::Held);
    assert_eq!(rt; entry.accept(&second), Accept::HeldBefore);
    assert_eq!(rt;
        entry.accept(&proposal(&stamp(1, NodeId(1)))),
        Accept::Older(stamp(1, NodeId(2)))
    );
    assert_eq!(rt;
        entry.accept(&proposal(&stamp(0, NodeId(0)))),
        Accept::Settled(stamp(0, NodeId(0)))
    );
    assert_eq!(rt; entry.proposal, Some(second));
    assert!(rt; !entry.owns(NodeId(0)));
    assert!(rt; !entry.settle(stamp(0, NodeId(0)), place(NodeId(1))));
    assert_eq!(rt; entry.place, place(NodeId(0)));
    assert!(rt; entry.settle(stamp(1, NodeId(1)), place(NodeId(1))));
    assert_eq!(rt; entry.proposal, Some(second));
    assert!(rt; entry.settle(stamp(1, NodeId(2)), place(NodeId(1))));
    assert_eq!(rt; entry.proposal, None);
    assert!(rt; entry.owns(NodeId(1)));
    let first = proposal(&stamp(0, NodeId(0)));
    assert!(rt; entry.hold(&first));
    assert!(rt; !entry.hold(&first));
    assert_eq!(rt; entry.proposal, Some(first));
    assert_eq!(rt; entry.stamp, stamp(1, NodeId(2)));
}

#[test]
fn a_call_changes_the_entry_of_its_object(rt: HostRuntime) -> Result<(), Fail> {
    let alloc = rt.alloc();
    let both = NodeSet::empty().insert(NodeId(0)).insert(NodeId(1));
    let object = ObjectDecl {
        value: Value::Num(5),
        owner: NodeId(0),
        replicas: both,
    };
    let objects = ObjectList::from_vec(vec![in alloc; object, object]?);
    let config = Config {
        version: 1,
        nodes: 2,
        slots: 1,
        directory: NodeSet::empty().insert(NodeId(0)),
        degree: Some(2),
        objects,
    };
    let mut dir = Dir::new(alloc, &config)?;
    assert_eq!(rt; dir.nodes(), NodeSet::empty().insert(NodeId(0)));
    assert_eq!(rt; dir.degree(), Some(2));
    let declared = Entry {
        stamp: stamp(0, NodeId(0)),
        place: place(NodeId(0)),
        proposal: None,
    };
    assert_eq!(rt; dir.entry(ObjId(1)), &declared);
    let first = proposal(&stamp(1, NodeId(0)));
    assert_eq!(rt; dir.accept(ObjId(1), &first), Accept::Held);
    assert_eq!(rt; dir.entry(ObjId(1)).proposal, Some(first));
    assert_eq!(rt; dir.entry(ObjId(0)), &declared);
    assert!(rt; dir.settle(ObjId(1), stamp(1, NodeId(0)), place(NodeId(1))));
    assert!(rt; !dir.settle(ObjId(1), stamp(1, NodeId(0)), place(NodeId(0))));
    assert!(rt; dir.entry(ObjId(1)).owns(NodeId(1)));
    assert_eq!(rt; dir.entry(ObjId(0)), &declared);
    Ok(())
}
