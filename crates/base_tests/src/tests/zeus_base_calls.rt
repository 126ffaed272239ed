//! Tests of typical calls.
ghost use Rattle.std.specs.Prelude.{◌≡◌, IfOk};

use std::alloc::{AllocError, Global};
use std::test::Fail;
use zeus_base::{NodeId, NodeSet, ObjectDecl, ObjectList, Stamp, Text, Value};

#[test]
fn takes_short_printable_texts_alone(rt: HostRuntime) {
    let long = [b'a'; 33];
    assert!(rt; Text::new(&long).is_none());
    assert!(rt; Text::new(&long[..32]).is_some());
    for refused in [b"".as_slice(), b"a b", b"\x7f", b"\xc3\xa9"] {
        assert!(rt; Text::new(refused).is_none(), "{refused:?}");
    }
    let text = Text::new(b"!~").expect(&rt, "a text");
    assert_eq!(rt; text.as_bytes(), b"!~".as_slice());
    assert_ne!(rt; Value::Text(text), Value::Num(2));
}

#[test]
fn orders_by_version_before_driver(rt: HostRuntime) {
    let first = Stamp {
        ver: 1,
        driver: NodeId(7),
    };
    let second = Stamp {
        ver: 2,
        driver: NodeId(0),
    };
    assert!(rt; first < second);
    assert!(rt; first.is_below(second));
    assert!(rt; !second.is_below(first));
    assert!(rt; !first.is_below(first));
}

#[test]
fn counts_its_objects(rt: HostRuntime) -> Result<(), Fail> {
    let nodes = NodeSet::empty().insert(NodeId(1));
    let declared = ObjectDecl {
        value: Value::Num(9),
        owner: NodeId(1),
        replicas: nodes,
    };
    let objects = ObjectList::from_vec(vec![in rt.alloc(); declared, declared]?);
    assert_eq!(rt; objects.len(), 2);
    assert_eq!(rt; objects.get(1), Some(&declared));
    assert_eq!(rt; objects.get(2), None);
    Ok(())
}

fn chained(alloc: Global, set: NodeSet) -> Result<Vec<NodeId>, AllocError>
    ensures { IfOk result (λ v. v.items ≡ set) }
{
    set.nodes().collect(alloc)
}

fn looped(alloc: Global, set: NodeSet) -> Result<Vec<NodeId>, AllocError>
    ensures { IfOk result (λ v. v.items ≡ set) }
{
    let mut all = Vec::new(alloc);
    for node in set {
        all.push(node)?;
    }
    Ok(all)
}

#[test]
fn goes_over_its_nodes_in_order(rt: HostRuntime) -> Result<(), Fail> {
    let set = NodeSet::empty()
        .insert(NodeId(5))
        .insert(NodeId(7))
        .insert(NodeId(0));
    assert_eq!(rt; set.bits, 0b1010_0001);
    let wanted = [NodeId(0), NodeId(5), NodeId(7)];
    assert_eq!(rt; chained(rt.alloc(), set)?.as_slice(), wanted.as_slice());
    assert_eq!(rt; looped(rt.alloc(), set)?.as_slice(), wanted.as_slice());
    Ok(())
}
