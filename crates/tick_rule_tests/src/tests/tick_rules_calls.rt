//! Tests of typical calls.
ghost use Rattle.std.specs.Prelude.{true, ◌≡◌, ◌<◌, ◌≤◌, IfOk, length};
ghost use Rattle.zeus_base.specs.Limits.{KeepsLimits};
ghost use Rattle.zeus_base.specs.declared.config.Limits.{Limits};
ghost use Rattle.zeus_packet.specs.Fits.{proposal_fits};

use node_state::{Effect, NodeState};
use std::alloc::{AllocError, Global};
use std::test::Fail;
use tick_rules::tick;
use zeus_base::{Config, NodeId, NodeSet, ObjId, ObjectDecl, ObjectList, Stamp, Value};
use zeus_model::Ticked;
use zeus_packet::{Body, Letter, Place, Proposal, View, Want};

const X: ObjId = ObjId(0);

/// Two nodes with one slot each. Node 0 is the directory, and owns the object that node 1 has a copy of.
fn config(alloc: Global) -> Result<Config, AllocError>
    ensures limits { IfOk result KeepsLimits }
    ensures nodes { IfOk result (λ config. config.nodes ≡ 2) }
    ensures objects { IfOk result (λ config. length config.objects ≡ 1) }
{
    let zero = NodeSet::empty().insert(NodeId(0));
    let x = ObjectDecl {
        value: Value::Num(5),
        owner: NodeId(0),
        replicas: zero.insert(NodeId(1)),
    };
    Ok(Config {
        version: 1,
        nodes: 2,
        slots: 1,
        directory: zero,
        degree: None,
        objects: ObjectList::from_vec(vec![in alloc; x]?),
    })
}

fn start(alloc: Global, me: NodeId) -> Result<NodeState, Fail>
    requires { me < 2 }
    ensures nodes { IfOk result (λ node. length node.logs ≡ 2) }
    ensures objects { IfOk result (λ node. length node.entries ≡ 1) }
{
    let config = config(alloc)?;
    Ok(NodeState::new(alloc, &config, me)?)
}

#[test]
fn says_nothing_at_the_start_and_once_stopped(rt: HostRuntime) -> Result<(), Fail> {
    let alloc = rt.alloc();
    let mut node = start(alloc, NodeId(0))?;
    let mut out = Effect::new(alloc)?;
    assert_eq!(rt; tick(&node, &mut out), Ticked::Ticked);
    assert_eq!(rt; out.sent.len(), 0);
    out.clear();
    node.stop();
    assert_eq!(rt; tick(&node, &mut out), Ticked::Stopped);
    Ok(())
}

/// The letter tells this node in epoch 2 that its sender has reported.
fn reports(letter: &Letter, to: NodeId) -> bool {
    letter.to == to && letter.epoch == 2 && matches!(&letter.body, Body::Recovered)
}

#[test]
fn says_again_that_it_has_reported(rt: HostRuntime) -> Result<(), Fail> {
    let alloc = rt.alloc();
    let mut node = start(alloc, NodeId(0))?;
    let mut out = Effect::new(alloc)?;
    let view = View {
        epoch: 2,
        members: NodeSet::below(2),
    };
    node.take_view(&view);
    assert_eq!(rt; tick(&node, &mut out), Ticked::Ticked);
    assert_eq!(rt; out.sent.len(), 0);
    out.clear();
    let me = node.me();
    node.report(me);
    assert_eq!(rt; tick(&node, &mut out), Ticked::Ticked);
    assert_eq!(rt; out.sent.len(), 1);
    let sent = out.sent.as_slice();
    assert!(rt; matches!(sent.first(), Some(letter) if reports(letter, NodeId(1))));
    Ok(())
}

/// Node 1 asks to own the object that node 0 owns.
fn proposal() -> Proposal
    ensures { (limits : Limits) → 2 ≤ limits.nodes → proposal_fits limits result ≡ true }
{
    let place = Place {
        owner: NodeId(0),
        replicas: NodeSet::below(2),
    };
    let base = Stamp {
        ver: 0,
        driver: NodeId(0),
    };
    Proposal {
        stamp: Stamp { ver: 1, ..base },
        requester: NodeId(1),
        base,
        base_place: place,
        want: Want::Own,
    }
}

#[test]
fn drives_a_held_proposal_again(rt: HostRuntime) -> Result<(), Fail> {
    let alloc = rt.alloc();
    let mut node = start(alloc, NodeId(1))?;
    let mut out = Effect::new(alloc)?;
    node.hold(X, &proposal());
    assert_eq!(rt; tick(&node, &mut out), Ticked::Ticked);
    let sent = out.sent.as_slice();
    assert_eq!(rt; sent.len(), 2);
    assert!(rt;
        matches!(sent.first(), Some(letter) if letter.to == NodeId(0) && matches!(&letter.body, Body::OInv(..)))
    );
    assert!(rt;
        matches!(sent.get(1), Some(letter) if letter.to == NodeId(1) && matches!(&letter.body, Body::OAck(_, _, None)))
    );
    Ok(())
}
