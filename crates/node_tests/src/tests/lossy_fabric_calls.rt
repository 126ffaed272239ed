use lossy_fabric::{Letter, Links, NodeId};
use std::test::Fail;
use zeus_packet::{Body, fits};
use zeus_wire::largest;

#[test]
fn keeps_each_packet_of_a_link(rt: HostRuntime) -> Result<(), Fail> {
    let mut links = Links::new(rt.alloc(), 2)?;
    let (from, to) = (NodeId(0), NodeId(1));
    links.reserve(from)?;
    let letter = Letter {
        from,
        to,
        epoch: 2,
        body: Body::Recovered,
    };
    assert!(rt; fits(&letter, &largest(2)));
    assert_eq!(rt; links.send(&letter), 0);
    assert_eq!(rt; links.send(&letter), 1);
    assert_eq!(rt; links.count(from, to), 2);
    assert_eq!(rt; links.count(to, from), 0);
    let second = links.get(from, to, 1);
    assert!(rt; matches!(&second, Some(packet) if packet.number == 1 && packet.letter.epoch == 2));
    assert!(rt; links.get(from, to, 2).is_none());
    Ok(())
}
