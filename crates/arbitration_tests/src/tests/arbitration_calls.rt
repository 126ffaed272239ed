//! Tests of typical calls.
ghost use Rattle.std.specs.Prelude.{◌≡◌, ◌<◌, IfOk, length};

use arbitration::{Ack, Decision, Gathers, GiveUp, give_up};
use object_table::Copies;
use std::alloc::{AllocError, Global};
use std::test::Fail;
use zeus_base::{Config, NodeId, NodeSet, ObjId, ObjectDecl, ObjectList, SlotId, Stamp, Value};
use zeus_packet::{Cause, Content, Place, Proposal, State, Want, Write};

/// The set of nodes 0 and 1.
fn two() -> NodeSet {
    NodeSet::empty().insert(NodeId(0)).insert(NodeId(1))
}

/// The wish of node 2 to own an object at nodes 0 and 1 that node 1 owns, as a proposal of this version.
fn proposal(ver: u64) -> Proposal {
    Proposal {
        stamp: Stamp {
            ver,
            driver: NodeId(0),
        },
        requester: NodeId(2),
        base: Stamp {
            ver: 0,
            driver: NodeId(0),
        },
        base_place: Place {
            owner: NodeId(1),
            replicas: two(),
        },
        want: Want::Own,
    }
}

/// Nodes 0 to 2, of which node 0 is the directory; two objects at nodes 0 and 1 that node 1 owns.
fn config(alloc: Global) -> Result<Config, AllocError>
    ensures { IfOk result (λ config. length config.objects ≡ 2) }
{
    let object = ObjectDecl {
        value: Value::Num(5),
        owner: NodeId(1),
        replicas: two(),
    };
    Ok(Config {
        version: 1,
        nodes: 3,
        slots: 2,
        directory: NodeSet::empty().insert(NodeId(0)),
        degree: None,
        objects: ObjectList::from_vec(vec![in alloc; object, object]?),
    })
}

/// What a node has gathered of two objects at the start: nothing.
fn nothing_gathered(alloc: Global) -> Result<Gathers, Fail>
    ensures { IfOk result (λ gathers. length gathers ≡ 2) }
{
    Ok(Gathers::new(alloc, &config(alloc)?)?)
}

/// The node acknowledges the proposal for object 1.
fn ack(gathers: &mut Gathers, from: NodeId, p: &Proposal, content: Option<Content>) -> Ack
    requires { 1 < length gathers.old }
    ensures { length gathers.new ≡ length gathers.old }
{
    gathers.take_ack(ObjId(1), from, p, content)
}

/// What is decided of the object in a view of these members.
fn decided(gathers: &Gathers, obj: ObjId, members: NodeSet) -> Option<Decision> {
    gathers.decided(obj, members, NodeSet::empty().insert(NodeId(0)))
}

/// A content of this version.
fn content(ver: u64) -> Content {
    Content {
        ver,
        value: Value::Num(5),
    }
}

/// That the proposal is decided, with this content.
fn decision(p: &Proposal, content: Content) -> Option<Decision> {
    Some(Decision {
        proposal: *p,
        content,
    })
}

#[test]
fn gathers_until_every_arbiter_and_the_content_are_there(rt: HostRuntime) -> Result<(), Fail> {
    let mut gathers = nothing_gathered(rt.alloc())?;
    let members = two().insert(NodeId(2));
    let x = ObjId(1);
    let first = &proposal(2);
    assert_eq!(rt; decided(&gathers, x, members), None);
    assert_eq!(rt; ack(&mut gathers, NodeId(0), first, None), Ack::New);
    assert_eq!(rt; ack(&mut gathers, NodeId(0), first, None), Ack::Again);
    let older = ack(&mut gathers, NodeId(0), &proposal(1), None);
    assert_eq!(rt; older, Ack::Older(first.stamp));
    assert_eq!(rt; decided(&gathers, x, members), None);
    assert_eq!(rt; ack(&mut gathers, NodeId(1), first, None), Ack::New);
    assert_eq!(rt; decided(&gathers, x, members), None);
    let with_content = ack(&mut gathers, NodeId(1), first, Some(content(4)));
    assert_eq!(rt; with_content, Ack::New);
    let later = ack(&mut gathers, NodeId(1), first, Some(content(6)));
    assert_eq!(rt; later, Ack::Again);
    assert_eq!(rt; decided(&gathers, x, members), decision(first, content(4)));
    assert_eq!(rt; decided(&gathers, x, NodeSet::empty()), None);
    assert_eq!(rt; decided(&gathers, ObjId(0), members), None);
    Ok(())
}

#[test]
fn what_is_gathered_is_dropped_up_to_a_stamp(rt: HostRuntime) -> Result<(), Fail> {
    let mut gathers = nothing_gathered(rt.alloc())?;
    let members = two().insert(NodeId(2));
    let x = ObjId(1);
    let first = &proposal(2);
    assert_eq!(rt; ack(&mut gathers, NodeId(0), first, None), Ack::New);
    let with_content = ack(&mut gathers, NodeId(1), first, Some(content(4)));
    assert_eq!(rt; with_content, Ack::New);
    gathers.drop_upto(x, proposal(1).stamp);
    assert_eq!(rt; decided(&gathers, x, members), decision(first, content(4)));
    gathers.drop_upto(x, first.stamp);
    assert_eq!(rt; decided(&gathers, x, members), None);
    assert_eq!(rt; ack(&mut gathers, NodeId(0), first, None), Ack::New);
    Ok(())
}

#[test]
fn a_greater_proposal_is_gathered_anew(rt: HostRuntime) -> Result<(), Fail> {
    let mut gathers = nothing_gathered(rt.alloc())?;
    let members = two().insert(NodeId(2));
    let x = ObjId(1);
    assert_eq!(rt; ack(&mut gathers, NodeId(0), &proposal(2), None), Ack::New);
    let second = &proposal(3);
    let with_content = ack(&mut gathers, NodeId(1), second, Some(content(4)));
    assert_eq!(rt; with_content, Ack::New);
    assert_eq!(rt; decided(&gathers, x, members), None);
    assert_eq!(rt; ack(&mut gathers, NodeId(0), second, None), Ack::New);
    assert_eq!(rt; decided(&gathers, x, members), decision(second, content(4)));
    gathers.drop_all();
    assert_eq!(rt; decided(&gathers, x, members), None);
    Ok(())
}

#[test]
fn a_source_gives_up_a_valid_free_object(rt: HostRuntime) -> Result<(), Fail> {
    let alloc = rt.alloc();
    let me = NodeId(1);
    let mut copies = Copies::new(alloc, &config(alloc)?, me)?;
    let x = ObjId(0);
    let keeper = Some(SlotId(1));
    let given = GiveUp::Given(content(0));
    assert_eq!(rt; give_up(&copies, x, me, NodeId(2), None), given);
    assert_eq!(rt; give_up(&copies, x, me, NodeId(0), keeper), given);
    let kept = GiveUp::No(Cause::Kept(SlotId(1)));
    assert_eq!(rt; give_up(&copies, x, me, NodeId(2), keeper), kept);
    copies.apply(&Write {
        obj: x,
        ver: 1,
        value: Value::Num(6),
    });
    let invalid = GiveUp::No(Cause::NotValid(State::Invalid));
    assert_eq!(rt; give_up(&copies, x, me, NodeId(2), keeper), invalid);
    copies.hold(x, SlotId(0));
    let held = GiveUp::No(Cause::Held(SlotId(0)));
    assert_eq!(rt; give_up(&copies, x, me, NodeId(2), keeper), held);
    copies.drop_copy(x);
    let missing = GiveUp::No(Cause::NoCopy);
    assert_eq!(rt; give_up(&copies, x, me, NodeId(2), keeper), missing);
    Ok(())
}
