//! Tests of typical calls.
use membership::{Barrier, Made, Service, View};
use std::test::Fail;
use zeus_base::{NodeId, NodeSet};

/// The set of nodes 0 and 1.
fn two() -> NodeSet {
    NodeSet::empty().insert(NodeId(0)).insert(NodeId(1))
}

/// That there is a view of this epoch, with these members.
fn view(epoch: u32, members: NodeSet) -> Option<View> {
    Some(View { epoch, members })
}

#[test]
fn a_view_leaves_out_stopped_nodes_alone(rt: HostRuntime) -> Result<(), Fail> {
    let mut service = Service::new(rt.alloc(), 3)?;
    let none = NodeSet::empty();
    let all = two().insert(NodeId(2));
    assert_eq!(rt; service.count(), 1);
    assert_eq!(rt; service.get(0), None);
    assert_eq!(rt; service.get(1), view(1, all));
    assert_eq!(rt; service.get(2), None);
    assert_eq!(rt; service.view(none, all)?, Made::Empty);
    let strangers = all.insert(NodeId(7)).insert(NodeId(5));
    assert_eq!(rt; service.view(strangers, none)?, Made::NotMember(NodeId(5)));
    let first = none.insert(NodeId(0));
    let last = none.insert(NodeId(2));
    assert_eq!(rt; service.view(first, last)?, Made::NotStopped(NodeId(1)));
    assert_eq!(rt; service.count(), 1);
    assert_eq!(rt; service.view(two(), last)?, Made::Installed(2));
    assert_eq!(rt; service.view(all, none)?, Made::NotMember(NodeId(2)));
    assert_eq!(rt; service.view(two(), none)?, Made::Installed(3));
    assert_eq!(rt; service.count(), 3);
    assert_eq!(rt; service.get(1), view(1, all));
    assert_eq!(rt; service.get(2), view(2, two()));
    assert_eq!(rt; service.get(3), view(3, two()));
    assert_eq!(rt; service.get(4), None);
    Ok(())
}

#[test]
fn a_barrier_opens_when_every_member_has_reported(rt: HostRuntime) {
    let mut barrier = Barrier::new(two().insert(NodeId(2)));
    assert!(rt; barrier.is_open(two()));
    barrier.reset();
    assert!(rt; !barrier.is_open(two()));
    assert!(rt; barrier.report(NodeId(1)));
    assert!(rt; !barrier.report(NodeId(1)));
    assert!(rt; barrier.has(NodeId(1)));
    assert!(rt; !barrier.has(NodeId(0)));
    assert!(rt; !barrier.is_open(two()));
    assert!(rt; barrier.report(NodeId(0)));
    assert!(rt; barrier.is_open(two()));
    assert!(rt; barrier.report(NodeId(4)));
    assert!(rt; barrier.is_open(two()));
}
