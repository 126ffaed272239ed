//! Tests of typical calls.
ghost use Rattle.std.specs.Prelude.{◌≡◌, ◌<◌, [], ◌∷◌, IfOk, length};
ghost use Rattle.zeus_base.specs.Limits.{KeepsLimits};
ghost use Rattle.zeus_base.specs.declared.value.Value.TheVariants.{Num};
ghost use Rattle.node_ranges.specs.Ranges.{limits_of};

use commit_rules::{Effect, NodeState, finish, on_recovered, on_rinv};
use std::alloc::{AllocError, Global};
use std::test::Fail;
use zeus_base::{Config, NodeId, NodeSet, ObjId, ObjectDecl, ObjectList, SlotId, Stream, Value};
use zeus_model::Outcome;
use zeus_packet::{Body, Letter, RInv, View, Write, Writes};

/// Two nodes with one slot each. Node 0 is the directory, and owns the object that node 1 has a copy of.
fn config(alloc: Global) -> Result<Config, AllocError>
    ensures limits { IfOk result KeepsLimits }
    ensures nodes { IfOk result (λ config. config.nodes ≡ 2) }
    ensures slots { IfOk result (λ config. config.slots ≡ 1) }
    ensures objects { IfOk result (λ config. length config.objects ≡ 1) }
{
    let zero = NodeSet::empty().insert(NodeId(0));
    let x = ObjectDecl {
        value: Value::Num(5),
        owner: NodeId(0),
        replicas: zero.insert(NodeId(1)),
    };
    Ok(Config {
        version: 1,
        nodes: 2,
        slots: 1,
        directory: zero,
        degree: None,
        objects: ObjectList::from_vec(vec![in alloc; x]?),
    })
}

fn start(alloc: Global, me: NodeId) -> Result<NodeState, Fail>
    requires { me < 2 }
    ensures { IfOk result (λ node. limits_of node ≡ record { version = 2; nodes = 2; slots = 1; objects = 1 }) }
{
    let config = config(alloc)?;
    Ok(NodeState::new(alloc, &config, me)?)
}

/// The first entry of node 0: it writes 9 to the object, and node 1 follows it.
fn entry(alloc: Global) -> RInv
    ensures { result ≡ record {
      stream = record { node = 0; slot = 0 };
      number = 0;
      done = 0;
      followers = 1 ∷ [];
      writes = record { obj = 0; ver = 1; value = Num 9 } ∷ [];
    } }
{
    let mut writes = Writes::new(alloc);
    writes.push(Write {
        obj: ObjId(0),
        ver: 1,
        value: Value::Num(9),
    });
    RInv {
        stream: Stream {
            node: NodeId(0),
            slot: SlotId(0),
        },
        number: 0,
        done: 0,
        followers: NodeSet::empty().insert(NodeId(1)),
        writes,
    }
}

/// The only letter acknowledges entry 0 to node 0.
fn acknowledges(letters: &[Letter]) -> bool {
    let [letter] = letters else {
        return false;
    };
    let first = match &letter.body {
        Body::RAck(_, number) => *number == 0,
        _ => false,
    };
    first && letter.to == NodeId(0)
}

/// The only letter tells node 0 that its sender has reported in epoch 2.
fn reports(letters: &[Letter]) -> bool {
    let [letter] = letters else {
        return false;
    };
    let recovered = match &letter.body {
        Body::Recovered => true,
        _ => false,
    };
    recovered && letter.to == NodeId(0) && letter.epoch == 2
}

#[test]
fn a_follower_stores_an_entry_and_acknowledges_it(rt: HostRuntime) -> Result<(), Fail> {
    let alloc = rt.alloc();
    let mut node = start(alloc, NodeId(1))?;
    let mut out = Effect::new(alloc)?;
    let first = entry(alloc);
    let outcome = on_rinv(&mut node, NodeId(0), &first, &mut out);
    assert_eq!(rt; outcome, Outcome::Taken);
    assert!(rt; acknowledges(out.sent.as_slice()));
    let copy = node.copy(ObjId(0));
    assert_eq!(rt; copy.map(|copy| copy.value), Some(Value::Num(9)));
    out.clear();
    finish(&mut node, &mut out);
    assert_eq!(rt; out.sent.len(), 0);
    Ok(())
}

#[test]
fn a_node_with_nothing_to_replay_reports_in_a_new_view(rt: HostRuntime) -> Result<(), Fail> {
    let alloc = rt.alloc();
    let mut node = start(alloc, NodeId(1))?;
    let mut out = Effect::new(alloc)?;
    let view = View {
        epoch: 2,
        members: NodeSet::below(2),
    };
    node.take_view(&view);
    finish(&mut node, &mut out);
    assert!(rt; node.has_reported(NodeId(1)));
    assert!(rt; reports(out.sent.as_slice()));
    if node.node_count() == 2 {
        assert_eq!(rt; on_recovered(&mut node, NodeId(0)), Outcome::Taken);
        assert!(rt; node.is_open());
    }
    Ok(())
}
