//! Tests of typical calls.
ghost use Rattle.std.specs.Prelude.{◌≡◌, ◌<◌, true, IfOk, length};
ghost use Rattle.zeus_base.specs.Limits.{KeepsLimits};
ghost use Rattle.zeus_packet.specs.Fits.{fits, nodes_fit};
ghost use Rattle.node_ranges.specs.Ranges.{limits_of};

use std::alloc::{AllocError, Global};
use std::test::Fail;
use zeus_base::{Config, NodeId, NodeSet, ObjId, ObjectDecl, ObjectList, Value};
use zeus_node::{Effect, Install, Node, Outcome, Stop, Ticked};
use zeus_packet::{Body, Letter, View, Want};

const X: ObjId = ObjId(0);

/// Two nodes with one slot each. Node 0 is the directory, and owns x with no other replica.
fn config(alloc: Global) -> Result<Config, AllocError>
    ensures limits { IfOk result KeepsLimits }
    ensures nodes { IfOk result (λ config. config.nodes ≡ 2) }
    ensures slots { IfOk result (λ config. config.slots ≡ 1) }
    ensures objects { IfOk result (λ config. length config.objects ≡ 1) }
{
    let zero = NodeSet::empty().insert(NodeId(0));
    let x = ObjectDecl {
        value: Value::Num(5),
        owner: NodeId(0),
        replicas: zero,
    };
    Ok(Config {
        version: 1,
        nodes: 2,
        slots: 1,
        directory: zero,
        degree: None,
        objects: ObjectList::from_vec(vec![in alloc; x]?),
    })
}

/// A node at the start of a run.
fn start(alloc: Global, me: NodeId) -> Result<Node, Fail>
    requires { me < 2 }
    ensures { IfOk result (λ node. limits_of node ≡ record { version = 2; nodes = 2; slots = 1; objects = 1 }) }
{
    let config = config(alloc)?;
    Ok(Node::new(alloc, &config, me)?)
}

/// Node 1 asks node 0 to own x.
#[tactic(auto, unfolding(zeus_packet::specs::Fits::fits, zeus_packet::specs::Fits::body_fits, zeus_packet::specs::Fits::object_fits))]
fn request() -> Letter
    ensures { fits result (record { version = 2; nodes = 2; slots = 1; objects = 1 }) ≡ true }
{
    Letter {
        from: NodeId(1),
        to: NodeId(0),
        epoch: 1,
        body: Body::OReq(X, Want::Own),
    }
}

/// Both nodes.
#[tactic(auto, unfolding(zeus_packet::specs::Fits::nodes_fit, zeus_base::specs::Nodes::with_node))]
fn both() -> NodeSet
    ensures { nodes_fit (record { version = 2; nodes = 2; slots = 1; objects = 1 }) result ≡ true }
{
    NodeSet::empty().insert(NodeId(0)).insert(NodeId(1))
}

#[test]
fn an_owner_acknowledges_with_the_content(rt: HostRuntime) -> Result<(), Fail> {
    let alloc = rt.alloc();
    let mut node = start(alloc, NodeId(0))?;
    let mut out = Effect::new(alloc)?;
    assert_eq!(rt; node.receive(&request(), &mut out), Outcome::Taken);
    assert!(rt; !node.owns(X));
    let sent = out.sent.as_slice();
    assert_eq!(rt; sent.len(), 1);
    let content = match sent.first() {
        Some(letter) => match &letter.body {
            Body::OAck(_, _, content) => *content,
            _ => None,
        },
        None => None,
    };
    assert_eq!(rt; content.map(|content| content.value), Some(Value::Num(5)));
    Ok(())
}

#[test]
fn a_node_reports_in_a_later_view_and_stops(rt: HostRuntime) -> Result<(), Fail> {
    let alloc = rt.alloc();
    let mut node = start(alloc, NodeId(1))?;
    let mut out = Effect::new(alloc)?;
    let view = View {
        epoch: 2,
        members: both(),
    };
    assert_eq!(rt; node.install(&view, &mut out), Install::Installed);
    assert_eq!(rt; node.epoch(), 2);
    assert!(rt; !node.is_open());
    assert_eq!(rt; out.sent.len(), 1);
    out.clear();
    assert_eq!(rt; node.stop(), Stop::Done);
    assert_eq!(rt; node.tick(&mut out), Ticked::Stopped);
    Ok(())
}
