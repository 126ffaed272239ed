//! Tests of typical calls.
ghost use Rattle.std.specs.Prelude.{◌≡◌, ◌<◌, ◌≤◌, All, IfOk, IfSome, length, nat_lt};
ghost use Rattle.std.specs.List.{list_all};
ghost use Rattle.zeus_base.specs.Limits.{KeepsLimits};
ghost use Rattle.zeus_txn.specs.Ops.{named};
ghost use Rattle.zeus_txn.specs.Tx.{IsTx};

use local_rules::{Begin, Effect, NodeState, Tried, begin, try_slot};
use std::alloc::{AllocError, Global};
use std::process::Abort;
use std::test::Fail;
use zeus_base::{Config, NodeId, NodeSet, ObjId, ObjectDecl, ObjectList, SlotId, TxId, Value};
use zeus_packet::{Body, Letter, Want};
use zeus_txn::{Op, Tx};

const X: ObjId = ObjId(0);

const Y: ObjId = ObjId(1);

const SLOT: SlotId = SlotId(0);

/// Two nodes with one slot each. Node 0 owns x, with a replica at node 1, and y, which no other node has.
fn config(alloc: Global, degree: Option<u8>) -> Result<Config, AllocError>
    requires { IfSome degree (λ d. (1 ≤ d) × (d ≤ 8)) }
    ensures limits { IfOk result KeepsLimits }
    ensures nodes { IfOk result (λ config. config.nodes ≡ 2) }
    ensures slots { IfOk result (λ config. config.slots ≡ 1) }
    ensures objects { IfOk result (λ config. length config.objects ≡ 2) }
{
    let zero = NodeSet::empty().insert(NodeId(0));
    let x = ObjectDecl {
        value: Value::Num(5),
        owner: NodeId(0),
        replicas: zero.insert(NodeId(1)),
    };
    let y = ObjectDecl {
        replicas: zero,
        ..x
    };
    Ok(Config {
        version: 1,
        nodes: 2,
        slots: 1,
        directory: zero,
        degree,
        objects: ObjectList::from_vec(vec![in alloc; x, y]?),
    })
}

fn start(alloc: Global, degree: Option<u8>, me: NodeId) -> Result<NodeState, Fail>
    requires degree { IfSome degree (λ d. (1 ≤ d) × (d ≤ 8)) }
    requires me { me < 2 }
    ensures slots { IfOk result (λ node. length node.slots ≡ 1) }
    ensures objects { IfOk result (λ node. length node.entries ≡ 2) }
{
    let config = config(alloc, degree)?;
    Ok(NodeState::new(alloc, &config, me)?)
}

/// Whether all are x and y.
fn are_known(objects: &[ObjId]) -> bool
    ensures { result ≡ list_all (λ x. nat_lt x 2) objects.now }
{
    objects.iter().all(|object| object.0 < 2)
}

/// The transaction, where it is one and names x and y alone.
fn transaction(alloc: Global, ops: &[Op]) -> Option<Tx>
    ensures made { IfSome result IsTx }
    ensures objects { IfSome result (λ tx. All (λ x. x < 2) (named tx)) }
{
    let tx = Tx::new(alloc, ops).ok()?;
    if !tx.ops().is_empty() && are_known(tx.named().as_slice()) {
        Some(tx)
    } else {
        None
    }
}

/// Node `me`, whose slot has begun transaction 7 with these operations.
fn begun(
    rt: &impl Abort,
    alloc: Global,
    degree: Option<u8>,
    me: NodeId,
    ops: &[Op],
) -> Result<NodeState, Fail>
    requires degree { IfSome degree (λ d. (1 ≤ d) × (d ≤ 8)) }
    requires me { me < 2 }
    ensures { IfOk result (λ node. length node.slots ≡ 1) }
{
    let mut node = start(alloc, degree, me)?;
    let tx = transaction(alloc, ops).expect(rt, "a transaction");
    assert_eq!(rt; begin(&mut node, SLOT, TxId(7), &tx), Begin::Begun);
    assert!(rt; node.slot_count() == 1);
    Ok(node)
}

/// A node that has tried its slot, with what it answered and what it sent.
#[derive(Drop)]
struct Trial {
    node: NodeState,
    out: Effect,
    tried: Tried,
}

/// Node `me` begins transaction 7 with these operations and tries it.
fn first_try(
    rt: &impl Abort,
    alloc: Global,
    degree: Option<u8>,
    me: NodeId,
    ops: &[Op],
) -> Result<Trial, Fail>
    requires degree { IfSome degree (λ d. (1 ≤ d) × (d ≤ 8)) }
    requires me { me < 2 }
    ensures { IfOk result (λ trial. length trial.node.slots ≡ 1) }
{
    let mut out = Effect::new(alloc)?;
    let mut node = begun(rt, alloc, degree, me, ops)?;
    let tried = try_slot(&mut node, SLOT, &mut out);
    assert!(rt; node.slot_count() == 1);
    Ok(Trial { node, out, tried })
}

/// The first letter asks node 0 for the object.
fn asks(letters: &[Letter], object: ObjId, want: Want) -> bool {
    match letters.first() {
        Some(letter) => {
            letter.to == NodeId(0)
                && matches!(&letter.body, Body::OReq(asked, wanted) if *asked == object && *wanted == want)
        }
        None => false,
    }
}

#[test]
fn an_owner_commits_and_tells_its_follower(rt: HostRuntime) -> Result<(), Fail> {
    let mut trial = first_try(&rt, rt.alloc(), None, NodeId(0), &[Op::Add(X, 3)])?;
    assert!(rt; matches!(trial.tried, Tried::Committed(TxId(7), 0, _)));
    let to = trial.out.sent.as_slice().first().map(|letter| letter.to);
    assert_eq!(rt; to, Some(NodeId(1)));
    assert_eq!(rt; trial.out.sent.len(), 1);
    assert_eq!(rt; trial.out.passed.len(), 0);
    trial.out.clear();
    let again = try_slot(&mut trial.node, SLOT, &mut trial.out);
    assert!(rt; matches!(again, Tried::Nothing));
    Ok(())
}

#[test]
fn a_node_asks_for_what_it_does_not_own(rt: HostRuntime) -> Result<(), Fail> {
    let trial = first_try(&rt, rt.alloc(), None, NodeId(1), &[Op::Add(X, 3)])?;
    assert!(rt; matches!(trial.tried, Tried::NotOwner(X)));
    assert!(rt; asks(trial.out.sent.as_slice(), X, Want::Own));
    assert!(rt; trial.node.current(SLOT).is_some());
    Ok(())
}

#[test]
fn a_read_without_a_copy_is_refused(rt: HostRuntime) -> Result<(), Fail> {
    let ops = [Op::Get(X), Op::Get(Y)];
    let trial = first_try(&rt, rt.alloc(), None, NodeId(1), &ops)?;
    assert!(rt; matches!(trial.tried, Tried::NoCopy(TxId(7), Y)));
    assert_eq!(rt; trial.out.sent.len(), 0);
    assert!(rt; trial.node.current(SLOT).is_none());
    Ok(())
}

#[test]
fn with_a_degree_it_asks_for_copies(rt: HostRuntime) -> Result<(), Fail> {
    let ops = [Op::Get(X), Op::Get(Y)];
    let trial = first_try(&rt, rt.alloc(), Some(1), NodeId(1), &ops)?;
    assert!(rt; matches!(trial.tried, Tried::NoCopy(TxId(7), Y)));
    assert!(rt; asks(trial.out.sent.as_slice(), Y, Want::Read));
    assert_eq!(rt; trial.out.sent.len(), 1);
    assert!(rt; trial.node.current(SLOT).is_some());
    Ok(())
}
