//! Tests of typical calls.
ghost use Rattle.std.specs.Prelude.{◌≡◌, ◌<◌, IfOk, length};

use directory::{Dir, Drive, Drives};
use owner_entry::Accept;
use std::alloc::Global;
use std::test::Fail;
use zeus_base::{Config, NodeId, NodeSet, ObjId, ObjectDecl, ObjectList, Stamp, Value};
use zeus_packet::{Cause, Place, Proposal, Want};

/// The set of nodes 0, 1 and 2.
fn three() -> NodeSet {
    NodeSet::empty()
        .insert(NodeId(0))
        .insert(NodeId(1))
        .insert(NodeId(2))
}

/// The set of nodes 0 to 3.
fn all() -> NodeSet {
    three().insert(NodeId(3))
}

/// Where object 0 is: at nodes 0, 1 and 2, and node 0 owns it.
fn place() -> Place {
    Place {
        owner: NodeId(0),
        replicas: three(),
    }
}

/// What is known at the start of four nodes, of which one is the directory, with this degree.
fn known(alloc: Global, directory: NodeId, degree: Option<u8>) -> Result<Dir, Fail>
    ensures { IfOk result (λ dir. length dir.entries ≡ 1) }
{
    let object = ObjectDecl {
        value: Value::Num(5),
        owner: NodeId(0),
        replicas: three(),
    };
    let config = Config {
        version: 1,
        nodes: 4,
        slots: 1,
        directory: NodeSet::empty().insert(directory),
        degree,
        objects: ObjectList::from_vec(vec![in alloc; object]?),
    };
    Ok(Dir::new(alloc, &config)?)
}

/// What node 0 answers for object 0.
fn asked(dir: &Dir, requester: NodeId, want: Want, members: NodeSet) -> Drive
    requires { 0 < length dir.now.entries }
{
    dir.may_drive(ObjId(0), requester, NodeId(0), members, want)
}

/// The first proposal that node 0 drives: node 3 asks to own object 0.
fn first() -> Proposal {
    Proposal {
        stamp: Stamp {
            ver: 1,
            driver: NodeId(0),
        },
        requester: NodeId(3),
        base: Stamp {
            ver: 0,
            driver: NodeId(0),
        },
        base_place: place(),
        want: Want::Own,
    }
}

#[test]
fn the_first_cause_or_the_proposal(rt: HostRuntime) -> Result<(), Fail> {
    let dir = known(rt.alloc(), NodeId(0), None)?;
    let own = asked(&dir, NodeId(3), Want::Own, all());
    assert_eq!(rt; own, Drive::Yes(first()));
    let own = asked(&dir, NodeId(0), Want::Own, all());
    assert_eq!(rt; own, Drive::No(Cause::Owns));
    let own = asked(&dir, NodeId(3), Want::Own, NodeSet::empty());
    assert_eq!(rt; own, Drive::No(Cause::NoSource));
    let read = asked(&dir, NodeId(1), Want::Read, all());
    assert_eq!(rt; read, Drive::No(Cause::HasCopy));
    Ok(())
}

#[test]
fn a_reader_leaves_by_the_degree(rt: HostRuntime) -> Result<(), Fail> {
    let alloc = rt.alloc();
    let none = known(alloc, NodeId(0), None)?;
    let leave = asked(&none, NodeId(2), Want::Leave, all());
    assert_eq!(rt; leave, Drive::No(Cause::Degree));
    let one = known(alloc, NodeId(0), Some(1))?;
    let leave = asked(&one, NodeId(1), Want::Leave, all().without(NodeId(0)));
    assert_eq!(rt; leave, Drive::No(Cause::IsSource));
    let two = known(alloc, NodeId(0), Some(2))?;
    let leave = asked(&two, NodeId(0), Want::Leave, all());
    assert_eq!(rt; leave, Drive::No(Cause::NotReader));
    let leave = asked(&two, NodeId(2), Want::Leave, all());
    assert!(rt; matches!(leave, Drive::Yes(_)));
    let more = known(alloc, NodeId(0), Some(3))?;
    let leave = asked(&more, NodeId(2), Want::Leave, all());
    assert_eq!(rt; leave, Drive::No(Cause::Degree));
    Ok(())
}

#[test]
fn a_held_proposal_or_the_last_version_stands_against_it(rt: HostRuntime) -> Result<(), Fail> {
    let alloc = rt.alloc();
    let mut dir = known(alloc, NodeId(0), None)?;
    assert_eq!(rt; dir.accept(ObjId(0), &first()), Accept::Held);
    let own = asked(&dir, NodeId(1), Want::Own, all());
    assert_eq!(rt; own, Drive::No(Cause::Proposed(first().stamp)));
    let mut other = known(alloc, NodeId(1), None)?;
    assert_eq!(rt; other.accept(ObjId(0), &first()), Accept::Held);
    let own = asked(&other, NodeId(1), Want::Own, all());
    assert_eq!(rt; own, Drive::No(Cause::NotDirectory));
    let last = Stamp {
        ver: u64::MAX,
        driver: NodeId(0),
    };
    assert!(rt; dir.settle(ObjId(0), last, place()));
    let own = asked(&dir, NodeId(1), Want::Own, all());
    assert_eq!(rt; own, Drive::No(Cause::WornOut));
    Ok(())
}
